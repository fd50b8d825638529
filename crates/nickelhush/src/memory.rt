// The part of the replica's record that `step` takes by value, as it lies in lent numbers; and an
// event's result as one number.
ghost use Rattle.std.specs.Prelude.{◌≡◌, ◌≤◌, length, replicate, get_or};
ghost use Rattle.certificates.specs.Error.{number};
ghost use Rattle.nickelhush.specs.Memory.{seat_length, core_length, fit, ready, seat_of, core_of, seat_numbers, core_numbers, packed, written_most, unfit_answer};

use certificates::error::{Answer, Refusal, number};
use certificates::messages::QC;
use certificates::numbers::{Hash, Place, Round, Signers};
use moves::state::Core;
use replica::stages::Stepped;
use replica::started::Seat;
use trace::events::Kind;

// The numbers that hold the seat: the member count, the own place.
pub const SEAT_LENGTH: usize = 2;

// The numbers that hold the core: round, last voted, last committed, then the high QC's hash (4),
// round and signers.
pub const CORE_LENGTH: usize = 9;

// Whether the two have the lengths that they must have.
#[tactic(auto, unfolding(crate::specs::Memory::fit))]
fn is_fit(seat: &[u16], core: &[u64]) -> bool
    ensures { result ≡ fit (length seat.now) (length core.now) }
{
    seat.len() == SEAT_LENGTH && core.len() == CORE_LENGTH
}

// That, and the record has a kind, since its form is that of one. What has none is refused before the
// replica is read.
#[tactic(auto, unfolding(crate::specs::Memory::ready))]
pub(crate) fn is_ready(seat: &[u16], core: &[u64], kind: Option<Kind>) -> bool
    ensures { result ≡ ready (length seat.now) (length core.now) kind }
{
    is_fit(seat, core) && kind.is_some()
}

pub(crate) fn seat_in(seat: &[u16]) -> Seat
    requires { length seat.now ≡ seat_length }
    ensures { result ≡ seat_of seat.now }
{
    Seat {
        count: seat[0],
        own: Place(seat[1]),
    }
}

pub(crate) fn core_in(core: &[u64]) -> Core
    requires { length core.now ≡ core_length }
    ensures { result ≡ core_of core.now }
{
    let hash = Hash {
        a: core[3],
        b: core[4],
        c: core[5],
        d: core[6],
    };
    let high_qc = QC {
        hash,
        round: Round(core[7]),
        signers: Signers(core[8]),
    };
    Core {
        round: Round(core[0]),
        last_voted_round: Round(core[1]),
        last_committed_round: Round(core[2]),
        high_qc,
    }
}

fn seat_out(seat: &mut [u16], s: Seat)
    requires { length seat.old ≡ seat_length }
    ensures { seat.new ≡ seat_numbers s }
{
    seat[0] = s.count;
    seat[1] = s.own.0;
}

fn core_out(core: &mut [u64], c: Core)
    requires { length core.old ≡ core_length }
    ensures { core.new ≡ core_numbers c }
{
    let qc = c.high_qc;
    let hash = qc.hash;
    core[0] = c.round.0;
    core[1] = c.last_voted_round.0;
    core[2] = c.last_committed_round.0;
    core[3] = hash.a;
    core[4] = hash.b;
    core[5] = hash.c;
    core[6] = hash.d;
    core[7] = qc.round.0;
    core[8] = qc.signers.0;
}

// An event's result as one number: the answer in the low 16 bits, the bytes written in the high 16.
fn pack(answer: Answer, written: usize) -> u32
    requires { written ≤ written_most }
    ensures { result ≡ packed (number answer) written }
{
    (number(answer) as u32) + 65536 * (written as u32)
}

// Writes back what an event left, and gives its result.
pub(crate) fn keep(seat: &mut [u16], core: &mut [u64], s: Stepped) -> u32
    requires { (length seat.old ≡ seat_length) × (length core.old ≡ core_length) × (s.written ≤ written_most) }
    ensures { (result ≡ packed (number s.answer) s.written) × (seat.new ≡ seat_numbers s.seat) × (core.new ≡ core_numbers s.core) }
{
    seat_out(seat, s.seat);
    core_out(core, s.core);
    pack(s.answer, s.written)
}

// The answer where the seat or the core has another length: the memory counts as not started, and no
// replica can start in it.
fn unfit_answer(kind: Option<Kind>) -> Answer
    ensures { number result ≡ unfit_answer kind }
{
    Err(match kind {
        None => Refusal::BadRecord,
        Some(Kind::Start) => Refusal::NoRoom,
        Some(_) => Refusal::NotStarted,
    })
}

pub(crate) fn refuse(kind: Option<Kind>) -> u32
    ensures { result ≡ packed (unfit_answer kind) 0 }
{
    pack(unfit_answer(kind), 0)
}
