// A trace, one turn at a time: the record at the front of what was read is taken, the replica steps,
// and its outputs and its ANSWER are written.
#![tactic(auto)]

pub mod turn;
