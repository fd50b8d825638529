// One turn of a run: 01, The trace form. The caller reads the trace into a buffer and writes what a
// turn leaves in the output; nothing here reads or writes anything else.
ghost use Rattle.std.specs.Prelude.{◌≡◌, ◌+◌, ◌≤◌, length};
ghost use Rattle.trace.specs.Part.{between};
ghost use Rattle.outputs.specs.Records.{answer_size};
ghost use Rattle.replica.specs.Started.{room_for};
ghost use Rattle.replica.specs.Step.{world};
ghost use Rattle.turns.specs.Turn.{turned, laid_in, left_by};
ghost use Rattle.turns.specs.Code.{cut_met, ahead_of, order_at, Closes};

use certificates::error::number;
use certificates::num::u16_at;
use moves::state::Core;
use outputs::records::{ANSWER_SIZE, put_answer};
use reader::reader::front_from;
use replica::stages::Stepped;
use replica::started::Seat;
use replica::step::{Order, step_in};
use synchronizer::table::Slot;
use trace::part::middle;
use trace::record::{Front, RECORD_MAX};

// What a turn met at the front: a record, which was taken and answered; no whole record, so that
// more has to be read, or the input has ended; a length above the most, which ends the run.
#[derive(Clone, Copy, Debug, PartialEq, Eq)]
pub enum Met {
    Answered,
    More,
    TooLong,
}

// The replica's part by value, and the bytes of the buffer that were read and not taken: those from
// `at` up to `have`, as far as the buffer has them.
#[derive(Clone, Copy)]
pub struct Run {
    pub seat: Seat,
    pub core: Core,
    pub at: usize,
    pub have: usize,
}

// What a turn leaves: the run, the bytes of the output that were written, and what was met.
#[derive(Clone, Copy)]
pub struct Turned {
    pub run: Run,
    pub written: usize,
    pub met: Met,
}

// What stands at the front: what is met, where the record lies, and that the next one starts where
// it ends. Where no record is to be taken, none lies at the front, and nothing is skipped. (An enum
// with the two places in it is no plainer: each reader of them would match it.)
#[derive(Clone, Copy)]
pub struct Ahead {
    pub met: Met,
    pub from: usize,
    pub to: usize,
}

// A front that is cut: a length above the most ends the run, and else more may come.
#[tactic(auto, using(crate::proofs::Fronts::cut_long, crate::proofs::Fronts::cut_more))]
fn cut_met(part: &[u8]) -> Met
    ensures { result ≡ cut_met part.now }
{
    if RECORD_MAX < u16_at(part, 0) as usize {
        return Met::TooLong;
    }
    Met::More
}

pub(crate) fn ahead_of(trace: &[u8], run: Run) -> Ahead
    ensures { result ≡ ahead_of run.at (between run.at run.have trace.now) }
{
    let part = middle(trace, run.at, run.have);
    match front_from(trace, run.at, run.have) {
        Front::End => Ahead {
            met: Met::More,
            from: run.at,
            to: run.at,
        },
        Front::Cut => Ahead {
            met: cut_met(part),
            from: run.at,
            to: run.at,
        },
        Front::Small { end } | Front::Record { kind: _, end } => Ahead {
            met: Met::Answered,
            from: run.at + 2,
            to: run.at + end,
        },
    }
}

// The replica is asked for the record at the front. Where there is none it is asked for an empty
// one, which is a bad record and changes nothing.
pub(crate) fn order_for(run: Run, ahead: Ahead) -> Order
    ensures { result ≡ order_at run ahead }
{
    Order {
        seat: run.seat,
        core: run.core,
        from: ahead.from,
        to: ahead.to,
    }
}

// The ANSWER behind the outputs, unless there was no record or no room is left.
pub(crate) fn close(out: &mut [u8], run: Run, ahead: Ahead, s: Stepped) -> Turned
    ensures { Closes run ahead s out.old result out.new }
{
    let next = Run {
        seat: s.seat,
        core: s.core,
        at: ahead.to,
        have: run.have,
    };
    if ahead.met != Met::More && ANSWER_SIZE <= out.len() && s.written <= out.len() - ANSWER_SIZE {
        let written = put_answer(out, s.written, number(s.answer));
        return Turned {
            run: next,
            written,
            met: ahead.met,
        };
    }
    Turned {
        run: next,
        written: s.written,
        met: ahead.met,
    }
}

// One turn. The contract fixes what is met, the run, the whole replica record, the table and every
// byte of out, and says that what is written lies in out and is at most 44 bytes a slot, 2,048 and
// the ANSWER.
pub fn turn(
    stakes: &mut [u32],
    votes: &mut [u64],
    timeouts: &mut [u64],
    table: &mut [Slot],
    out: &mut [u8],
    trace: &[u8],
    run: Run,
) -> Turned
    ensures { (left_by result stakes.new votes.new timeouts.new table.new out.new ≡ laid_in (turned (world run.seat stakes.old run.core votes.old timeouts.old table.old) (length out.old) (between run.at run.have trace.now)) run.at run.have out.old) × (result.written ≤ length out.old) × (result.written ≤ room_for (length table.old) + answer_size) }
{
    let ahead = ahead_of(trace, run);
    let order = order_for(run, ahead);
    let s = step_in(stakes, votes, timeouts, table, out, trace, order);
    close(out, run, ahead, s)
}
