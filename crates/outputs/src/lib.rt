// The records that are written, into a buffer that the caller lends: 01, The trace form, Out.
//
// `put` has the writers of single fields, `records` those of whole records: each is handed a place,
// stores its bytes there, and answers the place after them. Nothing else in the buffer changes.
#![tactic(auto)]

mod put;
pub mod records;
