// The replica as a program. 01, The trace form: "The program reads the trace from standard input
// with a 256-slot table." It writes every output, and after each event its ANSWER.
#![tactic(auto)]

use serving::serve::serve_new;
use serving::state::Mode;
use serving::streams::Streams;
use std::io::empty;

fn main(rt: HostRuntime) {
    let mut streams = Streams {
        input: rt.stdin(),
        expected: empty(),
        output: rt.stdout(),
    };
    serve_new(&mut streams, Mode::Write);
}
