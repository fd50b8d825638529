// The replica as a library for C and Rust: functions on numbers and lent slices, exported under C
// names that begin with `nickelhush_`. `include/nickelhush.h` declares them.
//
// `memory` reads the replica's record out of lent numbers and writes it back, `exports` has the
// exported functions.
#![tactic(auto)]

pub mod exports;
pub mod memory;
