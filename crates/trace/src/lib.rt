// The records of a trace, read where they lie (01, The trace form).
//
// `record` takes one record off a trace, `part` hands on parts of a slice, `events` has the form of
// each of the seven kinds, their limits, and their fields. Every public function answers for every
// input; nothing is read past the slice. The records that are written are elsewhere.
#![tactic(auto)]

pub mod events;
pub mod part;
pub mod record;
