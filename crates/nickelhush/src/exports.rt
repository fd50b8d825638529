// What a host calls. A slice is a pointer and a length in C. None of these has a `requires`: any
// memory that may lawfully be lent gets its answer.
ghost use Rattle.std.specs.Prelude.{◌≡◌, ◌%◌, ◌/◌, length, get_or, replicate};
ghost use Rattle.trace.specs.Record.{split_of};
ghost use Rattle.nickelhush.specs.Memory.{lent, handed, hosted, taken_of, size_of, room_of};

use crate::memory::{CORE_LENGTH, SEAT_LENGTH, core_in, is_ready, keep, refuse, seat_in};
use aggregator::tallies::{TIMEOUT_TALLIES, TIMEOUT_WIDTH, VOTE_TALLIES, VOTE_WIDTH};
use certificates::config::MEMBERS_MAX;
use outputs::records::COMMIT_SIZE;
use replica::started::{ROOM, SLOTS_MAX};
use replica::step::step;
use synchronizer::table::Slot;
use trace::events::form_of;
use trace::record::{Front, RECORD_MAX, split};

// One event: the record's kind and body, without its length. The result is the answer, and 65,536
// times the bytes written to out.
#[unsafe(no_mangle)]
pub extern "C" fn nickelhush_step(
    seat: &mut [u16],
    core: &mut [u64],
    stakes: &mut [u32],
    votes: &mut [u64],
    timeouts: &mut [u64],
    table: &mut [Slot],
    out: &mut [u8],
    input: &[u8],
) -> u32
    ensures { handed result (lent seat.new core.new stakes.new votes.new timeouts.new table.new out.new) ≡ hosted (lent seat.old core.old stakes.old votes.old timeouts.old table.old out.old) input.now }
{
    let kind = form_of(input);
    if is_ready(seat, core, kind) {
        let s = seat_in(seat);
        let c = core_in(core);
        let r = step(stakes, votes, timeouts, table, out, input, s, c);
        return keep(seat, core, r);
    }
    refuse(kind)
}

// The answer in a result of `nickelhush_step`.
#[unsafe(no_mangle)]
pub extern "C" fn nickelhush_answer(res: u32) -> u32
    ensures { result ≡ res % 65536 }
{
    res % 65536
}

// The bytes written, in a result of `nickelhush_step`.
#[unsafe(no_mangle)]
pub extern "C" fn nickelhush_written(res: u32) -> usize
    ensures { result ≡ res / 65536 }
{
    (res / 65536) as usize
}

// A new replica: its memory becomes zeros, and counts as not started.
#[unsafe(no_mangle)]
pub extern "C" fn nickelhush_new(
    seat: &mut [u16],
    core: &mut [u64],
    stakes: &mut [u32],
    votes: &mut [u64],
    timeouts: &mut [u64],
)
    ensures { (seat.new ≡ replicate (length seat.old) 0) × (core.new ≡ replicate (length core.old) 0) × (stakes.new ≡ replicate (length stakes.old) 0) × (votes.new ≡ replicate (length votes.old) 0) × (timeouts.new ≡ replicate (length timeouts.old) 0) }
{
    seat.fill(0);
    core.fill(0);
    stakes.fill(0);
    votes.fill(0);
    timeouts.fill(0);
}

// How many bytes the record at the front of a trace takes, with its length: 2 or more. 0 at the end
// of the trace; 1 where the trace ends in a record, or the length is above the most.
#[unsafe(no_mangle)]
pub extern "C" fn nickelhush_record(trace: &[u8]) -> usize
    ensures { result ≡ taken_of (split_of trace.now) }
{
    match split(trace) {
        Front::End => 0,
        Front::Cut => 1,
        Front::Small { end } => end,
        Front::Record { kind: _, end } => end,
    }
}

// The current round.
#[unsafe(no_mangle)]
pub extern "C" fn nickelhush_round(core: &[u64]) -> u64
    ensures { result ≡ get_or core.now 0 0 }
{
    core.get(0).copied().unwrap_or(0)
}

// The round that was last voted in, or given up.
#[unsafe(no_mangle)]
pub extern "C" fn nickelhush_last_voted(core: &[u64]) -> u64
    ensures { result ≡ get_or core.now 1 0 }
{
    core.get(1).copied().unwrap_or(0)
}

// The round of the last block that was delivered.
#[unsafe(no_mangle)]
pub extern "C" fn nickelhush_last_committed(core: &[u64]) -> u64
    ensures { result ≡ get_or core.now 2 0 }
{
    core.get(2).copied().unwrap_or(0)
}

// How much memory to lend: the numbers in seat (0), core (1), stakes (2), votes (3), timeouts (4); the
// most slots (5); the most bytes of a record after its length (6).
#[unsafe(no_mangle)]
pub extern "C" fn nickelhush_size(part: u32) -> usize
    ensures { result ≡ size_of part }
{
    match part {
        0 => SEAT_LENGTH,
        1 => CORE_LENGTH,
        2 => MEMBERS_MAX,
        3 => VOTE_TALLIES * VOTE_WIDTH,
        4 => TIMEOUT_TALLIES * TIMEOUT_WIDTH,
        5 => SLOTS_MAX,
        6 => RECORD_MAX,
        _ => 0,
    }
}

// The bytes of output to lend with a table of so many slots, and 0 where no table has so many.
#[unsafe(no_mangle)]
pub extern "C" fn nickelhush_room(slots: usize) -> usize
    ensures { result ≡ room_of slots }
{
    if slots == 0 {
        return 0;
    }
    if SLOTS_MAX < slots {
        return 0;
    }
    COMMIT_SIZE * slots + ROOM
}
