// An event in three parts: what needs no block, then the table, then the vote.
ghost use Rattle.std.specs.Prelude.{◌≡◌, ◌+◌, ◌≤◌, true, length, drop};
ghost use Rattle.certificates.specs.Error.{number};
ghost use Rattle.certificates.specs.Start.{setup_at};
ghost use Rattle.trace.specs.declared.events.Kind.TheVariants.{Propose};
ghost use Rattle.trace.specs.Limits.{limit_of};
ghost use Rattle.trace.specs.Fields.{block_of};
ghost use Rattle.outputs.specs.Put.{Wrote};
ghost use Rattle.moves.specs.State.{whole};
ghost use Rattle.handlers.specs.Sound.{Sound};
ghost use Rattle.handlers.specs.Votes.{voting, voting_most};
ghost use Rattle.replica.specs.Started.{members_of, sized, started_of, roomy};
ghost use Rattle.replica.specs.Blocks.{slot_for};
ghost use Rattle.replica.specs.Step.{new_core, new_seat, announced, announced_most};
ghost use Rattle.replica.specs.Stages.{handled_in, ready_in, Filled, Boots, booted_by, booting_of, started_in, is_start, staged_of, finished_of, work_at, early_begun, ran_handed, handed_begun, first_most, Handles, Begins, Ongoing, Finishable, Finishes};

use crate::started::{Seat, is_roomy, is_sized, total_of};
use aggregator::tallies::clear;
use certificates::committee::{Committee, Members};
use certificates::config::{check_setup, load, member_count, own_place, quorum_threshold};
use certificates::error::{Answer, Refusal};
use certificates::messages::QC;
use certificates::num::u64_at;
use certificates::numbers::{Hash, Round, Signers, Stake};
use handlers::proposals::handle_proposal;
use handlers::timeouts::{handle_tc, handle_timeout, local_timeout_round};
use handlers::votes::{handle_vote, make_vote};
use moves::rounds::generate_proposal;
use moves::state::{Core, Ran};
use outputs::records::put_timer_reset;
use synchronizer::settle::{Settled, Task, Work};
use synchronizer::table::Slot;
use trace::events::{
    Block, Kind, block_of, body_of, form_of, limit_of, payload_of, timeout_of, vote_of,
};

// What is to be done with the table. `Block` is the record's block.
#[derive(Clone, Copy, Debug, PartialEq, Eq)]
pub enum Does {
    Nothing,
    Clear,
    Block,
}

// What a handler leaves, and what is to be done with the table.
#[derive(Clone, Copy)]
pub struct Handed {
    pub answer: Answer,
    pub core: Core,
    pub at: usize,
    pub does: Does,
}

// What the first part leaves, and what is to be done with the table. For a block the quorum is kept.
#[derive(Clone, Copy)]
pub struct Begun {
    pub seat: Seat,
    pub answer: Answer,
    pub core: Core,
    pub at: usize,
    pub does: Does,
    pub need: Stake,
}

// What an event leaves: the answer, the part of the record that goes by value, and how many bytes
// were written.
#[derive(Clone, Copy)]
pub struct Stepped {
    pub answer: Answer,
    pub seat: Seat,
    pub core: Core,
    pub written: usize,
}

// ---- the first part

fn early(seat: Seat, core: Core, refusal: Refusal) -> Begun
    ensures { result ≡ early_begun seat core refusal }
{
    Begun {
        seat,
        answer: Err(refusal),
        core,
        at: 0,
        does: Does::Nothing,
        need: Stake(0),
    }
}

fn of_ran(r: Ran) -> Handed
    ensures { result ≡ ran_handed r }
{
    Handed {
        answer: r.answer,
        core: r.core,
        at: r.at,
        does: Does::Nothing,
    }
}

fn of_handed(seat: Seat, need: Stake, h: Handed) -> Begun
    ensures { result ≡ handed_begun seat need h }
{
    Begun {
        seat,
        answer: h.answer,
        core: h.core,
        at: h.at,
        does: h.does,
        need,
    }
}

fn new_core() -> Core
    ensures { result ≡ new_core }
{
    let high_qc = QC {
        hash: Hash::ZERO,
        round: Round(0),
        signers: Signers(0),
    };
    Core {
        round: Round(1),
        last_voted_round: Round(0),
        last_committed_round: Round(0),
        high_qc,
    }
}

// TIMER RESET; MAKE without TC if the own place leads round 1.
fn announce(members: Members, core: Core, out: &mut [u8]) -> usize
    requires { announced_most ≤ length out.old }
    ensures { Wrote announced_most (announced members.entry.stakes.now members.entry.own.0 core) out.old 0 out.new result }
{
    let a = put_timer_reset(out, 0);
    generate_proposal(members, core, out, a)
}

// The committee's seat in a record of START.
fn seat_of(input: &[u8]) -> Seat
    ensures { result ≡ new_seat input.now }
{
    let body = body_of(input);
    let count = member_count(body);
    let own = own_place(body);
    Seat { count, own }
}

// The members' stakes, and no tally.
fn fill(stakes: &mut [u32], votes: &mut [u64], timeouts: &mut [u64], input: &[u8])
    ensures { Filled input.now stakes.old votes.old timeouts.old stakes.new votes.new timeouts.new }
{
    load(stakes, body_of(input));
    clear(votes);
    clear(timeouts);
}

// START, once its setup is known to be good: the whole record is new.
fn boot(
    stakes: &mut [u32],
    votes: &mut [u64],
    timeouts: &mut [u64],
    out: &mut [u8],
    input: &[u8],
    seat: Seat,
    core: Core,
    total: Stake,
) -> Begun
    requires { Boots input.now (length stakes.old) (length votes.old) (length timeouts.old) (length out.old) total }
    ensures { Begins (booted_by seat stakes.old (whole core votes.old timeouts.old) input.now (Some total)) true input.now out.old result stakes.new votes.new timeouts.new out.new }
{
    let taken = seat_of(input);
    fill(stakes, votes, timeouts, input);
    let fresh = new_core();
    let n = taken.count as usize;
    let members = Members {
        stakes: &stakes[0..n],
        own: taken.own,
    };
    let at = announce(members, fresh, out);
    Begun {
        seat: taken,
        answer: Ok(()),
        core: fresh,
        at,
        does: Does::Clear,
        need: Stake(0),
    }
}

// What a record of START meets: a good setup, or 18 or 17. Memory of other sizes cannot hold a replica.
#[tactic(auto, unfolding(crate::specs::Stages::booting_of))]
fn booting_of(
    stakes: usize,
    votes: usize,
    timeouts: usize,
    slots: usize,
    room: usize,
    input: &[u8],
) -> Result<Stake, Refusal>
    ensures { result ≡ booting_of (roomy slots room) (sized stakes votes timeouts) (setup_at (drop 2 input.now)) }
{
    if is_roomy(slots, room) && is_sized(stakes, votes, timeouts) {
        return match check_setup(body_of(input)) {
            Some(total) => Ok(total),
            None => Err(Refusal::BadSetup),
        };
    }
    Err(Refusal::NoRoom)
}

// START on a record that does not count as started.
fn start(
    stakes: &mut [u32],
    votes: &mut [u64],
    timeouts: &mut [u64],
    out: &mut [u8],
    input: &[u8],
    seat: Seat,
    core: Core,
    slots: usize,
) -> Begun
    ensures { Begins (started_in seat stakes.old (whole core votes.old timeouts.old) (roomy slots (length out.old)) input.now) (roomy slots (length out.old)) input.now out.old result stakes.new votes.new timeouts.new out.new }
{
    match booting_of(
        stakes.len(),
        votes.len(),
        timeouts.len(),
        slots,
        out.len(),
        input,
    ) {
        Ok(total) => boot(stakes, votes, timeouts, out, input, seat, core, total),
        Err(refusal) => early(seat, core, refusal),
    }
}

// A proposal before the table.
fn propose(
    committee: Committee,
    core: Core,
    votes: &mut [u64],
    timeouts: &mut [u64],
    out: &mut [u8],
    input: &[u8],
) -> Handed
    requires { Sound committee.members.stakes.now committee.members.own.0 votes.old timeouts.old × (limit_of input.now Propose ≡ 0) × (first_most ≤ length out.old) }
    ensures { Handles (handled_in committee.entry.members.stakes.now committee.entry.members.own.0 (whole core votes.old timeouts.old) input.now Propose) committee.entry.members.stakes.now committee.entry.members.own.0 input.now out.old result votes.new timeouts.new out.new }
{
    let b = block_of(input);
    let payload = payload_of(input);
    let r = handle_proposal(committee, core, votes, timeouts, out, input, b, payload);
    if r.answer.is_ok() {
        return Handed {
            answer: r.answer,
            core: r.core,
            at: r.at,
            does: Does::Block,
        };
    }
    of_ran(r)
}

// An event of a started replica, once its limits are checked.
fn handle(
    committee: Committee,
    core: Core,
    votes: &mut [u64],
    timeouts: &mut [u64],
    out: &mut [u8],
    input: &[u8],
    kind: Kind,
) -> Handed
    requires { Sound committee.members.stakes.now committee.members.own.0 votes.old timeouts.old × (limit_of input.now kind ≡ 0) × (first_most ≤ length out.old) }
    ensures { Handles (handled_in committee.entry.members.stakes.now committee.entry.members.own.0 (whole core votes.old timeouts.old) input.now kind) committee.entry.members.stakes.now committee.entry.members.own.0 input.now out.old result votes.new timeouts.new out.new }
{
    match kind {
        Kind::Start => Handed {
            answer: Err(Refusal::StartedAgain),
            core,
            at: 0,
            does: Does::Nothing,
        },
        Kind::Propose => propose(committee, core, votes, timeouts, out, input),
        Kind::Vote => {
            let v = vote_of(input);
            of_ran(handle_vote(committee, core, votes, timeouts, out, v))
        }
        Kind::Timeout => {
            let t = timeout_of(input);
            of_ran(handle_timeout(committee, core, votes, timeouts, out, input, t))
        }
        Kind::Tc => {
            let round = Round(u64_at(input, 2));
            of_ran(handle_tc(committee, core, votes, timeouts, out, input, round))
        }
        Kind::Loopback => Handed {
            answer: Ok(()),
            core,
            at: 0,
            does: Does::Block,
        },
        Kind::Tick => of_ran(local_timeout_round(committee, core, votes, timeouts, out)),
    }
}

// An event of a started replica: 18, then 32, 20, 19, then its own part.
fn ready(
    stakes: &[u32],
    votes: &mut [u64],
    timeouts: &mut [u64],
    out: &mut [u8],
    input: &[u8],
    seat: Seat,
    core: Core,
    slots: usize,
    total: Stake,
    kind: Kind,
) -> Begun
    requires { started_of seat stakes.now votes.old timeouts.old ≡ Some total }
    ensures { Begins (ready_in seat stakes.now (whole core votes.old timeouts.old) (roomy slots (length out.old)) input.now kind) (roomy slots (length out.old)) input.now out.old result stakes.now votes.new timeouts.new out.new }
{
    if is_roomy(slots, out.len()) {
        return match limit_of(input, Some(kind)) {
            Ok(()) => {
                let n = seat.count as usize;
                let need = quorum_threshold(total);
                let members = Members {
                    stakes: &stakes[0..n],
                    own: seat.own,
                };
                let committee = Committee { members, need };
                let h = handle(committee, core, votes, timeouts, out, input, kind);
                of_handed(seat, need, h)
            }
            Err(refusal) => early(seat, core, refusal),
        };
    }
    early(seat, core, Refusal::NoRoom)
}

fn is_start(kind: Kind) -> bool
    ensures { result ≡ is_start kind }
{
    matches!(kind, Kind::Start)
}

// The first part of an event, in the order 16, then 34 or 33, then the rest.
pub fn begin(
    stakes: &mut [u32],
    votes: &mut [u64],
    timeouts: &mut [u64],
    out: &mut [u8],
    input: &[u8],
    seat: Seat,
    core: Core,
    slots: usize,
) -> Begun
    ensures { Begins (staged_of seat stakes.old (whole core votes.old timeouts.old) (roomy slots (length out.old)) input.now) (roomy slots (length out.old)) input.now out.old result stakes.new votes.new timeouts.new out.new }
{
    let Some(kind) = form_of(input) else {
        return early(seat, core, Refusal::BadRecord);
    };
    match total_of(seat, stakes, votes, timeouts) {
        None => {
            if is_start(kind) {
                return start(stakes, votes, timeouts, out, input, seat, core, slots);
            }
            early(seat, core, Refusal::NotStarted)
        }
        Some(total) => {
            if is_start(kind) {
                return early(seat, core, Refusal::StartedAgain);
            }
            ready(
                stakes, votes, timeouts, out, input, seat, core, slots, total, kind,
            )
        }
    }
}

// ---- the table

// A block as it is stored.
fn slot_of(k: Block) -> Slot
    ensures { result ≡ slot_for k }
{
    Slot {
        used: true,
        digest: k.digest,
        round: k.round,
        parent: k.qc_hash,
        parent_round: k.qc_round,
    }
}

// What the table is asked for.
pub fn work_of(input: &[u8], b: Begun) -> Work
    ensures { result ≡ work_at b (block_of input.now) }
{
    let task = match b.does {
        Does::Nothing => Task::Nothing,
        Does::Clear => Task::Clear,
        Does::Block => {
            let k = block_of(input);
            Task::Store {
                block: slot_of(k),
                author: k.author,
            }
        }
    };
    Work {
        task,
        last: b.core.last_committed_round,
        at: b.at,
    }
}

// ---- the last part

// A block that the table took is voted for.
fn conclude(
    stakes: &[u32],
    votes: &mut [u64],
    timeouts: &mut [u64],
    out: &mut [u8],
    input: &[u8],
    b: Begun,
    core: Core,
    at: usize,
) -> Stepped
    requires { Ongoing b input.now stakes.now votes.old timeouts.old × (at + voting_most ≤ length out.old) }
    ensures { Finishes (voting (members_of b.seat stakes.now) b.seat.own.0 (block_of input.now) (whole core votes.old timeouts.old)) voting_most b.seat out.old at result votes.new timeouts.new out.new }
{
    let seat = b.seat;
    let n = seat.count as usize;
    let k = block_of(input);
    let members = Members {
        stakes: &stakes[0..n],
        own: seat.own,
    };
    let committee = Committee {
        members,
        need: b.need,
    };
    let r = make_vote(committee, core, votes, timeouts, out, at, k);
    Stepped {
        answer: r.answer,
        seat,
        core: r.core,
        written: r.at,
    }
}

// The last part of an event, once the table gave s.
pub fn finish(
    stakes: &[u32],
    votes: &mut [u64],
    timeouts: &mut [u64],
    out: &mut [u8],
    input: &[u8],
    b: Begun,
    s: Settled,
) -> Stepped
    requires { Finishable b s input.now stakes.now votes.old timeouts.old (length out.old) }
    ensures { Finishes (finished_of (members_of b.seat stakes.now) b.seat.own.0 (whole b.core votes.old timeouts.old) b.does (number b.answer) (number s.answer) s.last.0 (block_of input.now)) voting_most b.seat out.old s.at result votes.new timeouts.new out.new }
{
    if let Does::Block = b.does {
        let mut n = b.core;
        n.last_committed_round = s.last;
        return match s.answer {
            Ok(()) => conclude(stakes, votes, timeouts, out, input, b, n, s.at),
            Err(refusal) => Stepped {
                answer: Err(refusal),
                seat: b.seat,
                core: n,
                written: s.at,
            },
        };
    }
    Stepped {
        answer: b.answer,
        seat: b.seat,
        core: b.core,
        written: s.at,
    }
}
