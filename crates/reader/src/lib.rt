// The record reader: the trace bytes and the place in them (01, What changes shape).
//
// `place` has the work, on a slice and a number. `reader` has the struct, whose methods are thin: each
// calls `place`. Callers that have a buffer and numbers use `reader::front_from`. No function has a
// `requires`.
#![tactic(auto)]

pub mod place;
pub mod reader;
