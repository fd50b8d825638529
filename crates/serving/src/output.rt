// What a turn wrote is written out, or compared.
ghost use Rattle.std.specs.Prelude.{◌≡◌, ◌≤◌, length};
ghost use Rattle.serving.specs.declared.state.Mode.TheVariants.{Write};
ghost use Rattle.serving.specs.Bytes.{Flushes, Delivers};

use crate::state::{Mode, Serving, Why};
use crate::streams::Streams;
use buffers::streams::read_full;
use buffers::{alike, copy};
use std::io::{Read, Write};

// What waits in the pack is written out. After a write that failed nothing is written any more, so
// that a record that was cut off stays the last.
pub(crate) fn flush<W: Write>(output: &mut W, pack: &[u8], s: Serving) -> Serving
    ensures { Flushes s result }
{
    if s.held == 0 {
        return s;
    }
    if pack.len() < s.held {
        return s.ended(Why::NoRoom);
    }
    if output.write_all(&pack[..s.held]).is_err() {
        return s.holding(0).ended(Why::NotWritten);
    }
    s.holding(0)
}

// The first n bytes of out wait in the pack, behind those that do already. Where there is no room
// behind them, those are written out first.
fn hold<W: Write>(output: &mut W, out: &[u8], pack: &mut [u8], n: usize, s: Serving) -> Serving
    requires { (n ≤ length out.now) × (s.mode ≡ Write) }
    ensures { Delivers s out.now pack.old n result pack.new }
{
    let held = s.held;
    if pack.len() < held {
        return s.ended(Why::NoRoom);
    }
    if n <= pack.len() - held {
        copy(out, pack, held, n);
        return s.holding(held + n).further(n);
    }
    let u = flush(output, pack, s);
    if u.why.is_fault() {
        return u;
    }
    if pack.len() < n {
        return u.ended(Why::NoRoom);
    }
    copy(out, pack, 0, n);
    u.holding(n).further(n)
}

// Reads the next m bytes that are expected to the front of pack, and answers how many there are.
fn expect<E: Read>(expected: &mut E, pack: &mut [u8], m: usize) -> usize
    requires { m ≤ length pack.old }
    ensures { result ≤ m }
{
    read_full(expected, &mut pack[..m])
}

// The first n bytes of out are compared with the next n that are expected.
fn compare<E: Read>(expected: &mut E, out: &[u8], pack: &mut [u8], n: usize, s: Serving) -> Serving
    requires { (n ≤ length out.now) × (s.mode ≡ Write → ⊥) }
    ensures { Delivers s out.now pack.old n result pack.new }
{
    let m = s.mode.comparable(n);
    if pack.len() < m {
        return s.ended(Why::NoRoom);
    }
    let got = expect(expected, pack, m);
    let same = alike(out, pack, got);
    s.judged(got, same, n)
}

// The first n bytes of out are a turn's output.
pub(crate) fn deliver<R, E: Read, W: Write>(
    streams: &mut Streams<R, E, W>,
    out: &[u8],
    pack: &mut [u8],
    n: usize,
    s: Serving,
) -> Serving
    ensures { Delivers s out.now pack.old n result pack.new }
{
    if out.len() < n {
        return s.ended(Why::NoRoom);
    }
    match s.mode {
        Mode::Write => hold(&mut streams.output, out, pack, n, s),
        Mode::File | Mode::Part { .. } => compare(&mut streams.expected, out, pack, n, s),
    }
}

// At the end what waits is written out, and nothing more may be expected.
pub(crate) fn close<R, E: Read, W: Write>(
    streams: &mut Streams<R, E, W>,
    pack: &[u8],
    s: Serving,
) -> Serving {
    match s.mode {
        Mode::Write => flush(&mut streams.output, pack, s),
        Mode::Part { due: 0, .. } => s,
        Mode::Part { .. } => s.ended(Why::Differs),
        Mode::File => {
            if read_full(&mut streams.expected, &mut [0]) == 0 {
                return s;
            }
            s.ended(Why::Differs)
        }
    }
}
