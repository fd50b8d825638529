// TIMEOUT, TC and TICK: handle_timeout, handle_tc, local_timeout_round.
ghost use Rattle.std.specs.Prelude.{◌≡◌, ◌+◌, ◌≤◌, ◌<◌, length};
ghost use Rattle.certificates.specs.Config.{stake_of};
ghost use Rattle.certificates.specs.Error.{number};
ghost use Rattle.certificates.specs.Messages.{tc_check};
ghost use Rattle.certificates.specs.Numbers.{round_max};
ghost use Rattle.moves.specs.State.{whole};
ghost use Rattle.moves.specs.Outcome.{Did, Reached};
ghost use Rattle.moves.specs.Moves.{time_out_most};
ghost use Rattle.moves.specs.Tallied.{timeout_tallied};
ghost use Rattle.handlers.specs.Sound.{Sound, signers_of, Answers};
ghost use Rattle.handlers.specs.Timeouts.{timeout_check, timeout_qc_found, timeout_number, timeout_taken, tc_event_number, handled_timeout, tc_taken, handled_tc, voted_up, TicksTo, own_timeout, handled_tick};
ghost use Rattle.handlers.specs.Timeouts.{handle_timeout_most, handle_tc_most, tick_most, local_timeout_most};

use crate::checks::YES;
use aggregator::tallies::add_timeout;
use certificates::committee::{Committee, Members};
use certificates::config::{MEMBERS_MAX, stake};
use certificates::error::{Answer, Refusal};
use certificates::messages::{QC, check_author, check_embedded_qc, check_tc};
use certificates::numbers::{Place, ROUND_MAX, Round, Signers};
use moves::rounds::{advance_round, generate_proposal_with, process_qc, time_out};
use moves::state::{Core, Moved, Ran};
use moves::tallies::added_refusal;
use outputs::records::{put_timeout, put_timer_reset};
use trace::events::{TC_BODY, TIMEOUT_QC, Timeout, highs_of, qc_part, tc_part};

// STALE, the author, the verdict.
fn timeout_check(members: &[u32], current: Round, t: Timeout) -> Answer
    ensures { number result ≡ timeout_check members.now current.0 t }
{
    if t.round.0 < current.0 {
        return Err(Refusal::Stale);
    }
    check_author(members, t.author, t.verdict)?;
    Ok(())
}

// That, then its QC, which is checked where it lies.
fn check_timeout(
    committee: Committee,
    current: Round,
    input: &[u8],
    t: Timeout,
) -> Result<Signers, Refusal>
    ensures { Answers (timeout_number committee.entry.members.stakes.now current.0 t (timeout_qc_found committee.entry.members.stakes.now input.now)) (signers_of (timeout_qc_found committee.entry.members.stakes.now input.now)) result }
{
    let stakes = committee.members.stakes;
    timeout_check(stakes, current, t)?;
    match check_embedded_qc(stakes, committee.need, qc_part(input, TIMEOUT_QC)) {
        Ok(signers) => Ok(signers),
        Err(e) => Err(e.refusal(Refusal::QcRequiresQuorum)),
    }
}

// A timeout of a member counted in its tally; at the quorum its TC is written and taken. The state is
// handed on only at the quorum, so that no other timeout copies it.
#[inline(always)]
fn count_timeout(
    committee: Committee,
    core: Core,
    votes: &mut [u64],
    timeouts: &mut [u64],
    out: &mut [u8],
    at: usize,
    round: Round,
    author: Place,
    high: Round,
) -> Ran
    requires { Sound committee.members.stakes.now committee.members.own.0 votes.old timeouts.old × (author.0 < length committee.members.stakes.now) × (round.0 ≤ round_max) × (at + time_out_most ≤ length out.old) }
    ensures { Reached time_out_most (timeout_tallied committee.entry.members.stakes.now committee.entry.members.own.0 committee.entry.need.0 (whole core votes.old timeouts.old) round.0 author.0 (stake_of committee.entry.members.stakes.now author.0) high.0) out.old at result votes.new timeouts.new out.new }
{
    let members = committee.members;
    let held = stake(members.stakes, author);
    match add_timeout(timeouts, round, author, held, committee.need, high) {
        Ok(added) => match added {
            Some(quorum) => {
                let row = quorum.row;
                let names = quorum.signers;
                let m = time_out(members, core, votes, timeouts, out, at, round, row, names);
                Ran {
                    answer: Ok(()),
                    core: m.core,
                    at: m.at,
                }
            }
            None => Ran {
                answer: Ok(()),
                core,
                at,
            },
        },
        Err(e) => Ran {
            answer: Err(added_refusal(e)),
            core,
            at,
        },
    }
}

// The QC is taken; then the timeout is counted.
fn take_timeout(
    committee: Committee,
    core: Core,
    votes: &mut [u64],
    timeouts: &mut [u64],
    out: &mut [u8],
    t: Timeout,
    signers: Signers,
) -> Ran
    requires { Sound committee.members.stakes.now committee.members.own.0 votes.old timeouts.old × (t.author.0 < length committee.members.stakes.now) × (t.round.0 ≤ round_max) × (t.qc_round.0 ≤ round_max) × (handle_timeout_most ≤ length out.old) }
    ensures { Reached handle_timeout_most (timeout_taken committee.entry.members.stakes.now committee.entry.members.own.0 (whole core votes.old timeouts.old) t signers) out.old 0 result votes.new timeouts.new out.new }
{
    let qc = QC {
        hash: t.qc_hash,
        round: t.qc_round,
        signers,
    };
    let a = process_qc(core, votes, timeouts, out, 0, qc);
    count_timeout(
        committee, a.core, votes, timeouts, out, a.at, t.round, t.author, qc.round,
    )
}

// t is what the record says.
pub fn handle_timeout(
    committee: Committee,
    core: Core,
    votes: &mut [u64],
    timeouts: &mut [u64],
    out: &mut [u8],
    input: &[u8],
    t: Timeout,
) -> Ran
    requires { Sound committee.members.stakes.now committee.members.own.0 votes.old timeouts.old × (t.round.0 ≤ round_max) × (t.qc_round.0 ≤ round_max) × (handle_timeout_most ≤ length out.old) }
    ensures { Reached handle_timeout_most (handled_timeout committee.entry.members.stakes.now committee.entry.members.own.0 (whole core votes.old timeouts.old) t input.now) out.old 0 result votes.new timeouts.new out.new }
{
    match check_timeout(committee, core.round, input, t) {
        Ok(signers) => { take_timeout(committee, core, votes, timeouts, out, t, signers) }
        Err(refusal) => Ran {
            answer: Err(refusal),
            core,
            at: 0,
        },
    }
}

// Advance, and MAKE with the TC if the own place leads.
fn take_tc(
    members: Members,
    core: Core,
    votes: &mut [u64],
    timeouts: &mut [u64],
    out: &mut [u8],
    part: &[u8],
    round: Round,
    names: Signers,
) -> Moved
    requires { Sound members.stakes.now members.own.0 votes.old timeouts.old × (round.0 ≤ round_max) × (handle_tc_most ≤ length out.old) }
    ensures { Did handle_tc_most (tc_taken members.entry.stakes.now members.entry.own.0 (whole core votes.old timeouts.old) round.0 names part.now) out.old 0 result.core votes.new timeouts.new out.new result.at }
{
    let mut a = advance_round(core, votes, timeouts, out, 0, round);
    let mut highs = [0u64; MEMBERS_MAX];
    highs_of(&mut highs, part);
    a.at = generate_proposal_with(members, a.core, &highs, out, a.at, round, names);
    a
}

// The TC, which is checked where it lies, and then STALE, as in the Rust.
fn check_received_tc(
    committee: Committee,
    current: Round,
    part: &[u8],
    round: Round,
) -> Result<Signers, Refusal>
    ensures { Answers (tc_event_number current.0 round.0 (tc_check committee.entry.members.stakes.now committee.entry.need.0 part.now)) (signers_of (tc_check committee.entry.members.stakes.now committee.entry.need.0 part.now)) result }
{
    match check_tc(committee.members.stakes, committee.need, part) {
        Ok(_) if round.0 < current.0 => Err(Refusal::Stale),
        Ok(names) => Ok(names),
        Err(e) => Err(e.refusal(Refusal::TcRequiresQuorum)),
    }
}

pub fn handle_tc(
    committee: Committee,
    core: Core,
    votes: &mut [u64],
    timeouts: &mut [u64],
    out: &mut [u8],
    input: &[u8],
    round: Round,
) -> Ran
    requires { Sound committee.members.stakes.now committee.members.own.0 votes.old timeouts.old × (round.0 ≤ round_max) × (handle_tc_most ≤ length out.old) }
    ensures { Reached handle_tc_most (handled_tc committee.entry.members.stakes.now committee.entry.members.own.0 (whole core votes.old timeouts.old) round.0 input.now) out.old 0 result votes.new timeouts.new out.new }
{
    let part = tc_part(input, TC_BODY);
    match check_received_tc(committee, core.round, part, round) {
        Ok(names) => {
            let members = committee.members;
            let a = take_tc(members, core, votes, timeouts, out, part, round, names);
            Ran {
                answer: Ok(()),
                core: a.core,
                at: a.at,
            }
        }
        Err(refusal) => Ran {
            answer: Err(refusal),
            core,
            at: 0,
        },
    }
}

fn increase_last_voted_round(core: Core, target: Round) -> Core
    ensures { (result ≡ voted_up core target.0) × (result.round ≡ core.round) }
{
    let mut n = core;
    if core.last_voted_round.0 < target.0 {
        n.last_voted_round = target;
    }
    n
}

// Last voted rises to the current round; TIMER RESET; TIMEOUT.
fn tick(core: Core, out: &mut [u8], at: usize) -> Moved
    requires { at + tick_most ≤ length out.old }
    ensures { TicksTo core out.old at result.core out.new result.at }
{
    let a = put_timer_reset(out, at);
    let b = put_timeout(out, a, core.round, core.high_qc);
    let n = increase_last_voted_round(core, core.round);
    Moved { core: n, at: b }
}

// The own timeout, verdict yes: 22 where the own stake is 0.
fn own_timeout(
    committee: Committee,
    core: Core,
    votes: &mut [u64],
    timeouts: &mut [u64],
    out: &mut [u8],
    at: usize,
) -> Ran
    requires { Sound committee.members.stakes.now committee.members.own.0 votes.old timeouts.old × (core.round.0 ≤ round_max) × (at + time_out_most ≤ length out.old) }
    ensures { Reached time_out_most (own_timeout committee.entry.members.stakes.now committee.entry.members.own.0 (whole core votes.old timeouts.old)) out.old at result votes.new timeouts.new out.new }
{
    let own = committee.members.own;
    match check_author(committee.members.stakes, own, YES) {
        Ok(_) => count_timeout(
            committee,
            core,
            votes,
            timeouts,
            out,
            at,
            core.round,
            own,
            core.high_qc.round,
        ),
        Err(e) => Ran {
            answer: Err(Refusal::from(e)),
            core,
            at,
        },
    }
}

pub fn local_timeout_round(
    committee: Committee,
    core: Core,
    votes: &mut [u64],
    timeouts: &mut [u64],
    out: &mut [u8],
) -> Ran
    requires { Sound committee.members.stakes.now committee.members.own.0 votes.old timeouts.old × (local_timeout_most ≤ length out.old) }
    ensures { Reached local_timeout_most (handled_tick committee.entry.members.stakes.now committee.entry.members.own.0 (whole core votes.old timeouts.old)) out.old 0 result votes.new timeouts.new out.new }
{
    if ROUND_MAX < core.round.0 {
        return Ran {
            answer: Err(Refusal::RoundTooHigh),
            core,
            at: 0,
        };
    }
    let a = tick(core, out, 0);
    own_timeout(committee, a.core, votes, timeouts, out, a.at)
}
