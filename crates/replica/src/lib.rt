// The replica: one event at a time, over memory that the caller lends.
//
// `started` says whether what was handed in counts as started, `stages` what an event does before,
// at and after the table of blocks, `step` is the public entry.
#![tactic(auto)]

pub mod stages;
pub mod started;
pub mod step;
