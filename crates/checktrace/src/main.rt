// Answers each record of the trace on standard input by its form and its limits alone: an ANSWER for
// each, of `forms`. A trace of any length goes through one buffer. 01, The trace form: "A length
// above 4,096 or a record cut by the end gets ANSWER 16 and ends the run."
//
// What is answered is in `forms::run`, on slices. What is here moves bytes, and is proved safe.
#![tactic(auto)]

ghost use Rattle.std.specs.Prelude.{◌+◌, ◌≤◌, length};

use buffers::shift;
use buffers::streams::{LARGE, large_buffer, read_some};
use certificates::error::{Refusal, number};
use outputs::records::{ANSWER_SIZE, put_answer};
use std::io::{Read, Write};

// A run: what it reads and writes, and its buffers. The bytes of buf from start up to have are trace
// that was read and not taken.
#[derive(Drop)]
struct Run<R, W> {
    input: R,
    output: W,
    buf: [u8; LARGE],
    out: [u8; LARGE],
    start: usize,
    have: usize,
    ghost ordered: { start ≤ have },
    ghost within: { have ≤ 65536 },
}

impl<R: Read, W: Write> Run<R, W> {
    // The answer to a record that is cut or too long, after which the run ends.
    fn refuse(&mut self) {
        let n = put_answer(&mut self.out, 0, number(Err(Refusal::BadRecord)));
        let _ = self.output.write_all(&self.out[..n]);
    }

    // No whole record is left: more is read, after what is left of the trace was moved to the front.
    // Nothing where the run ends.
    fn refill(&mut self) -> Option<()> {
        let kept = shift(&mut self.buf, self.start, self.have);
        self.start = 0;
        self.have = kept;
        if forms::is_too_long(&self.buf[..kept]) {
            self.refuse();
            return None;
        }
        let n = read_some(&mut self.input, &mut self.buf[kept..]);
        if n == 0 {
            if kept != 0 {
                self.refuse();
            }
            return None;
        }
        self.have = kept + n;
        Some(())
    }

    // Answers the whole records in the buffer, or reads more where there is none. Nothing where the
    // run ends. The bounds that are tested here hold in every run.
    fn step(&mut self) -> Option<()> {
        let (start, have) = (self.start, self.have);
        let Run { buf, out, .. } = self;
        let ran = forms::run(&buf[start..have], out);
        if ran.used == 0 {
            return self.refill();
        }
        if LARGE < ran.written || have - start < ran.used {
            return None;
        }
        self.output.write_all(&self.out[..ran.written]).ok()?;
        self.start = start + ran.used;
        Some(())
    }
}

// A proved loop has to end, and nothing says that the input does, so the turns are counted. Each
// takes a record of two bytes or more, reads a byte or more, or ends the run: a trace of n bytes
// takes at most 1.5 n + 1 turns, and these are enough for 10^19 bytes.
fn main(rt: HostRuntime) {
    let mut run = Run {
        input: rt.stdin(),
        output: rt.stdout(),
        buf: large_buffer(),
        out: large_buffer(),
        start: 0,
        have: 0,
    };
    for _ in 0..u64::MAX {
        if run.step().is_none() {
            return;
        }
    }
}
