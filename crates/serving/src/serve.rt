// The loop over `turn`, and the entry for a program.
ghost use Rattle.std.specs.Prelude.{◌≡◌, ◌+◌, ◌≤◌, length, replicate};
ghost use Rattle.outputs.specs.Records.{answer_size};
ghost use Rattle.replica.specs.Started.{room_for};
ghost use Rattle.synchronizer.specs.Table.{blank};
ghost use Rattle.serving.specs.State.{passed_by, slots};
ghost use Rattle.serving.specs.Bytes.{Passes};

use crate::input::refill;
use crate::output::{close, deliver, flush};
use crate::state::{Mode, Served, Serving, Why};
use crate::streams::Streams;
use aggregator::tallies::{TIMEOUT_TALLIES, TIMEOUT_WIDTH, VOTE_TALLIES, VOTE_WIDTH};
use buffers::streams::large_buffer;
use certificates::config::MEMBERS_MAX;
use certificates::error::{Refusal, number};
use certificates::numbers::{Hash, Round};
use outputs::records::{ANSWER_SIZE, put_answer};
use std::io::{Read, Write};
use synchronizer::table::Slot;
use turns::turn::{Met, Turned, turn};

// 01, The trace form: "with a 256-slot table"; and the bytes of the output buffer.
pub const SLOTS: usize = 256;

pub const OUT_ROOM: usize = 13318;

// The input ended. A record that its end cuts gets ANSWER 16.
fn cut<R, E: Read, W: Write>(
    streams: &mut Streams<R, E, W>,
    out: &mut [u8],
    pack: &mut [u8],
    s: Serving,
) -> Serving
    ensures { (result.turns ≤ s.turns) × (result.run ≡ s.run) }
{
    if s.run.have <= s.run.at {
        return s;
    }
    if out.len() < ANSWER_SIZE {
        return s.ended(Why::NoRoom);
    }
    let n = put_answer(out, 0, number(Err(Refusal::BadRecord)));
    deliver(streams, out, pack, n, s)
}

// There is no whole record in the buffer. What waits is written out before more is waited for.
fn more<R: Read, E: Read, W: Write>(
    streams: &mut Streams<R, E, W>,
    out: &mut [u8],
    buf: &mut [u8],
    pack: &mut [u8],
    s: Serving,
) -> Serving
    ensures { Passes s buf.old result buf.new }
{
    let u = flush(&mut streams.output, pack, s);
    if u.why.is_fault() {
        return u;
    }
    let v = refill(&mut streams.input, buf, u);
    if v.why == Why::Ended {
        return cut(streams, out, pack, v);
    }
    v
}

// What a turn left is delivered, or more is read.
pub(crate) fn moved<R: Read, E: Read, W: Write>(
    streams: &mut Streams<R, E, W>,
    out: &mut [u8],
    buf: &mut [u8],
    pack: &mut [u8],
    s: Serving,
    t: Turned,
) -> Serving
    ensures { Passes (passed_by s t) buf.old result buf.new }
{
    let u = s.passed(t);
    match t.met {
        Met::More => more(streams, out, buf, pack, u),
        Met::Answered => deliver(streams, out, pack, t.written, u),
        Met::TooLong => deliver(streams, out, pack, t.written, u).ended(Why::Ended),
    }
}

// Turn after turn, to the end of the run. Nothing says that the input ends, so the turns are counted
// down. Each takes a record of two bytes or more, reads a byte or more, or ends the run: a trace of
// n bytes takes at most 1.5 n + 1 turns, and 2^64 - 1 are enough for 10^19 bytes.
//
// The lent buffers are parameters: a struct of them was tried, and the proof did not close, since two
// references in one struct cannot be lent on at once.
pub fn serve<R: Read, E: Read, W: Write>(
    streams: &mut Streams<R, E, W>,
    stakes: &mut [u32],
    votes: &mut [u64],
    timeouts: &mut [u64],
    table: &mut [Slot],
    out: &mut [u8],
    buf: &mut [u8],
    pack: &mut [u8],
    s: Serving,
) -> Serving
    ensures { result.turns ≡ 0 }
{
    let mut u = s;
    while 0 < u.turns {
        let t = turn(stakes, votes, timeouts, table, out, buf, u.run);
        u = moved(streams, out, buf, pack, u, t);
    }
    u
}

// An empty table.
pub(crate) fn blank_table() -> [Slot; SLOTS]
    ensures { result ≡ replicate slots blank }
{
    let s = Slot {
        used: false,
        digest: Hash::ZERO,
        round: Round(0),
        parent: Hash::ZERO,
        parent_round: Round(0),
    };
    [s; SLOTS]
}

// Room for the most that an event over such a table writes, and its ANSWER.
fn out_buffer() -> [u8; OUT_ROOM]
    ensures { room_for slots + answer_size ≡ length result }
{
    [0; OUT_ROOM]
}

// A replica that was not started plays the trace of the input to its end; what it writes goes to the
// output, or is compared with what is expected.
pub fn serve_new<R: Read, E: Read, W: Write>(streams: &mut Streams<R, E, W>, mode: Mode) -> Served {
    let mut stakes = [0u32; MEMBERS_MAX];
    let mut votes = [0u64; VOTE_TALLIES * VOTE_WIDTH];
    let mut timeouts = [0u64; TIMEOUT_TALLIES * TIMEOUT_WIDTH];
    let mut table = blank_table();
    let mut out = out_buffer();
    let mut buf = large_buffer();
    let mut pack = large_buffer();
    let s = Serving::fresh(mode);
    let u = serve(
        streams,
        &mut stakes,
        &mut votes,
        &mut timeouts,
        &mut table,
        &mut out,
        &mut buf,
        &mut pack,
        s,
    );
    close(streams, &pack, u).told()
}
