// What every handler of an event is made of: the round advances, a QC is taken, a proposal is
// asked for.
//
// `state` has what an event changes, `rounds` the moves of core.rs between rounds, `tallies` the
// answers to a counted vote or timeout.
#![tactic(auto)]

pub mod rounds;
pub mod state;
pub mod tallies;
