// A replica that reads a trace from a reader and writes what it answers to a writer, or compares it
// with what another reader has, in fixed memory.
//
// `state` is a run by value, `streams` what it reads and writes, `input` reads, `output` writes and
// compares, `serve` is the loop over `turns::turn`, and the entry for a program.
#![tactic(auto)]

pub mod input;
pub mod output;
pub mod serve;
pub mod state;
pub mod streams;
