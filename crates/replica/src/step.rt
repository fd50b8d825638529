// The public entry: any record, any lent memory. The record may be a part of what is lent.
ghost use Rattle.std.specs.Prelude.{◌≡◌, ◌≤◌, length};
ghost use Rattle.certificates.specs.Error.{number};
ghost use Rattle.handlers.specs.Votes.{voting_most};
ghost use Rattle.trace.specs.Fields.{block_of};
ghost use Rattle.moves.specs.State.{whole};
ghost use Rattle.replica.specs.Started.{members_of, room_for, roomy};
ghost use Rattle.replica.specs.Step.{left_by, laid, world, stepped};
ghost use Rattle.replica.specs.Stages.{staged_of, finished_of, work_at, Begins, Finishable, Finishes};
ghost use Rattle.replica.specs.Order.{record_in, order_for};

use crate::stages::{Begun, Stepped, begin, finish, work_of};
use crate::started::Seat;
use moves::state::Core;
use synchronizer::settle::{Settled, Work, settle};
use synchronizer::table::{Slot, len_of};
use trace::part::middle;

// An event to take: the part of the replica that goes by value, and where its record lies in the
// input, from `from` up to `to`.
#[derive(Clone, Copy)]
pub struct Order {
    pub seat: Seat,
    pub core: Core,
    pub from: usize,
    pub to: usize,
}

// An event whose record is the whole input.
pub(crate) fn order_of(input: &[u8], seat: Seat, core: Core) -> Order
    ensures { result ≡ order_for seat core (length input.now) }
{
    Order {
        seat,
        core,
        from: 0,
        to: input.len(),
    }
}

// ---- the parts of an event, on the record that the order names

pub(crate) fn begin_in(
    stakes: &mut [u32],
    votes: &mut [u64],
    timeouts: &mut [u64],
    out: &mut [u8],
    input: &[u8],
    order: Order,
    slots: usize,
) -> Begun
    ensures { Begins (staged_of order.seat stakes.old (whole order.core votes.old timeouts.old) (roomy slots (length out.old)) (record_in order input.now)) (roomy slots (length out.old)) (record_in order input.now) out.old result stakes.new votes.new timeouts.new out.new }
{
    let seat = order.seat;
    let core = order.core;
    let part = middle(input, order.from, order.to);
    begin(stakes, votes, timeouts, out, part, seat, core, slots)
}

pub(crate) fn work_in(input: &[u8], order: Order, b: Begun) -> Work
    ensures { result ≡ work_at b (block_of (record_in order input.now)) }
{
    let part = middle(input, order.from, order.to);
    work_of(part, b)
}

pub(crate) fn finish_in(
    stakes: &[u32],
    votes: &mut [u64],
    timeouts: &mut [u64],
    out: &mut [u8],
    input: &[u8],
    order: Order,
    b: Begun,
    s: Settled,
) -> Stepped
    requires { Finishable b s (record_in order input.now) stakes.now votes.old timeouts.old (length out.old) }
    ensures { Finishes (finished_of (members_of b.seat stakes.now) b.seat.own.0 (whole b.core votes.old timeouts.old) b.does (number b.answer) (number s.answer) s.last.0 (block_of (record_in order input.now))) voting_most b.seat out.old s.at result votes.new timeouts.new out.new }
{
    let part = middle(input, order.from, order.to);
    finish(stakes, votes, timeouts, out, part, b, s)
}

// ---- one event

// One event, of the record that the order names. The contract fixes the answer, the whole record,
// the table and every byte of out, and says that no event writes more than 44 bytes a slot and
// 2,048.
pub fn step_in(
    stakes: &mut [u32],
    votes: &mut [u64],
    timeouts: &mut [u64],
    table: &mut [Slot],
    out: &mut [u8],
    input: &[u8],
    order: Order,
) -> Stepped
    ensures { (left_by result stakes.new votes.new timeouts.new table.new out.new ≡ laid (stepped (world order.seat stakes.old order.core votes.old timeouts.old table.old) (length out.old) (record_in order input.now)) out.old) × (result.written ≤ room_for (length table.old)) }
{
    let slots = len_of(table);
    let b = begin_in(stakes, votes, timeouts, out, input, order, slots);
    let w = work_in(input, order, b);
    let s = settle(table, out, w);
    finish_in(stakes, votes, timeouts, out, input, order, b, s)
}

// One event, of a record that is the whole input. The contract is that of `step_in`.
pub fn step(
    stakes: &mut [u32],
    votes: &mut [u64],
    timeouts: &mut [u64],
    table: &mut [Slot],
    out: &mut [u8],
    input: &[u8],
    seat: Seat,
    core: Core,
) -> Stepped
    ensures { (left_by result stakes.new votes.new timeouts.new table.new out.new ≡ laid (stepped (world seat stakes.old core votes.old timeouts.old table.old) (length out.old) input.now) out.old) × (result.written ≤ room_for (length table.old)) }
{
    let order = order_of(input, seat, core);
    step_in(stakes, votes, timeouts, table, out, input, order)
}
