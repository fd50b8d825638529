// The replica as one record, handed in and got back (01: "a replica record handed in", "fixed
// tallies held by value").
//
// `record` has the record. `stages` lends its parts to the functions of crate `replica`, which work
// on them in place, and puts them back. `step` is the public entry: one event, from any record.
#![tactic(auto)]

pub mod record;
mod stages;
pub mod step;
