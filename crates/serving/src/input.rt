// More of the trace is read into the buffer.
ghost use Rattle.std.specs.Prelude.{◌+◌, ◌≤◌, ◌≡◌, length, take, unwrap_or};
ghost use Rattle.serving.specs.Bytes.{Refills};

use crate::state::{Serving, Why};
use buffers::shift;
use std::io::Read;
use turns::turn::Run;

// One read into buf from `from` up to `to`: how many bytes it brought, or that it failed. What stands
// before is kept.
fn fill<R: Read>(input: &mut R, buf: &mut [u8], from: usize, to: usize) -> Option<usize>
    requires { (from ≤ to) × (to ≤ length buf.old) }
    ensures { (from + unwrap_or result 0 ≤ to) × (take from buf.new ≡ take from buf.old) }
{
    input.read(&mut buf[from..to]).ok()
}

// What is unread is moved to the front of the buffer.
fn to_front(buf: &mut [u8], s: Serving) -> Serving
    ensures { Refills s buf.old result buf.new }
{
    let Run { at, have, .. } = s.run;
    if buf.len() < have || have < at {
        return s.ended(Why::NoRoom);
    }
    s.filled(shift(buf, at, have))
}

// One read puts more behind what is there: of a part no more than is left of it.
fn read_more<R: Read>(input: &mut R, buf: &mut [u8], s: Serving) -> Serving
    ensures { Refills s buf.old result buf.new }
{
    let Run { at, have, .. } = s.run;
    if buf.len() <= have || have < at {
        return s.ended(Why::NoRoom);
    }
    let n = s.mode.readable(buf.len() - have);
    if n == 0 {
        return s.ended(Why::Ended);
    }
    s.brought(fill(input, buf, have, have + n))
}

// More is read behind what is unread. The run is over where the input ends, where a read fails or a
// part is cut.
pub(crate) fn refill<R: Read>(input: &mut R, buf: &mut [u8], s: Serving) -> Serving
    ensures { Refills s buf.old result buf.new }
{
    let u = to_front(buf, s);
    if u.why.is_fault() {
        return u;
    }
    read_more(input, buf, u)
}
