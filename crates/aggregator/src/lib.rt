// The tallies of votes and of timeouts: aggregator.rs, with fixed room.
//
// `tallies` has the tables and all that is public, `tally` what is done to a single tally.
#![tactic(auto)]

pub mod tallies;
mod tally;
