// The moves of core.rs from round to round. Each is handed the place to write at.
ghost use Rattle.std.specs.Prelude.{◌≡◌, ◌+◌, ◌≤◌, ◌<◌, length};
ghost use Rattle.aggregator.specs.Tallies.{votes_length, timeouts_length, timeout_tallies, highs_at};
ghost use Rattle.outputs.specs.Put.{Wrote};
ghost use Rattle.outputs.specs.Records.{members_max, make_size, make_with_most};
ghost use Rattle.certificates.specs.Numbers.{round_max};
ghost use Rattle.moves.specs.State.{whole};
ghost use Rattle.moves.specs.Outcome.{Did};
ghost use Rattle.moves.specs.Moves.{advanced, raised, taken_qc, make_of, make_with_of, certified, tc_outs, timed_out, advance_most, certify_most, tc_outs_most, time_out_most};

use crate::state::{Core, Moved};
use aggregator::tallies::{cleanup_timeouts, cleanup_votes, highs_at};
use certificates::committee::Members;
use certificates::leader::get_leader;
use certificates::messages::QC;
use certificates::numbers::{Round, Signers};
use outputs::records::{put_make, put_make_with, put_tc, put_timer_reset};

// Nothing if r is below the current round. Else TIMER RESET, and the round becomes r + 1, without
// the tallies below it.
pub fn advance_round(
    core: Core,
    votes: &mut [u64],
    timeouts: &mut [u64],
    out: &mut [u8],
    at: usize,
    r: Round,
) -> Moved
    requires { (r.0 ≤ round_max) × (length votes.old ≡ votes_length) × (length timeouts.old ≡ timeouts_length) × (at + advance_most ≤ length out.old) }
    ensures { Did advance_most (advanced (whole core votes.old timeouts.old) r.0) out.old at result.core votes.new timeouts.new out.new result.at }
{
    let mut n = core;
    let mut end = at;
    if core.round.0 <= r.0 {
        let next = Round(r.0 + 1);
        cleanup_votes(votes, next);
        cleanup_timeouts(timeouts, next);
        end = put_timer_reset(out, at);
        n.round = next;
    }
    Moved { core: n, at: end }
}

// The high QC is replaced only by one of a greater round.
pub fn update_high_qc(core: Core, qc: QC) -> Core
    ensures { result ≡ raised core qc }
{
    let mut n = core;
    if core.high_qc.round.0 < qc.round.0 {
        n.high_qc = qc;
    }
    n
}

// Taking a QC.
pub fn process_qc(
    core: Core,
    votes: &mut [u64],
    timeouts: &mut [u64],
    out: &mut [u8],
    at: usize,
    qc: QC,
) -> Moved
    requires { (qc.round.0 ≤ round_max) × (length votes.old ≡ votes_length) × (length timeouts.old ≡ timeouts_length) × (at + advance_most ≤ length out.old) }
    ensures { Did advance_most (taken_qc (whole core votes.old timeouts.old) qc) out.old at result.core votes.new timeouts.new out.new result.at }
{
    let a = advance_round(core, votes, timeouts, out, at, qc.round);
    let n = update_high_qc(a.core, qc);
    Moved { core: n, at: a.at }
}

// MAKE without TC if the own place leads the round.
pub fn generate_proposal(members: Members, core: Core, out: &mut [u8], at: usize) -> usize
    requires { at + make_size ≤ length out.old }
    ensures { Wrote make_size (make_of members.entry.stakes.now members.entry.own.0 core) out.old at out.new result }
{
    let leader = get_leader(members.stakes, core.round);
    if leader.0 == members.own.0 {
        put_make(out, at, core.round, core.high_qc)
    } else {
        at
    }
}

// MAKE with a TC if the own place leads the round.
pub fn generate_proposal_with(
    members: Members,
    core: Core,
    highs: &[u64],
    out: &mut [u8],
    at: usize,
    of: Round,
    names: Signers,
) -> usize
    requires { (length highs.now ≡ members_max) × (at + make_with_most ≤ length out.old) }
    ensures { Wrote make_with_most (make_with_of members.entry.stakes.now members.entry.own.0 core of.0 names.0 highs.now) out.old at out.new result }
{
    let leader = get_leader(members.stakes, core.round);
    if leader.0 == members.own.0 {
        put_make_with(out, at, core.round, core.high_qc, of, names, highs)
    } else {
        at
    }
}

// What a quorum of votes does: the QC is taken, then MAKE without TC if the own place leads.
pub fn certify(
    members: Members,
    core: Core,
    votes: &mut [u64],
    timeouts: &mut [u64],
    out: &mut [u8],
    at: usize,
    qc: QC,
) -> Moved
    requires { (qc.round.0 ≤ round_max) × (length votes.old ≡ votes_length) × (length timeouts.old ≡ timeouts_length) × (at + certify_most ≤ length out.old) }
    ensures { Did certify_most (certified members.entry.stakes.now members.entry.own.0 (whole core votes.old timeouts.old) qc) out.old at result.core votes.new timeouts.new out.new result.at }
{
    let a = process_qc(core, votes, timeouts, out, at, qc);
    let n = a.core;
    let end = generate_proposal(members, n, out, a.at);
    Moved { core: n, at: end }
}

// TC, then MAKE with it if the own place leads the round.
fn write_tc(
    members: Members,
    core: Core,
    highs: &[u64],
    out: &mut [u8],
    at: usize,
    round: Round,
    names: Signers,
) -> usize
    requires { (length highs.now ≡ members_max) × (at + tc_outs_most ≤ length out.old) }
    ensures { Wrote tc_outs_most (tc_outs members.entry.stakes.now members.entry.own.0 core round.0 names.0 highs.now) out.old at out.new result }
{
    let a = put_tc(out, at, round, names, highs);
    generate_proposal_with(members, core, highs, out, a, round, names)
}

// The same of the timeout tally at i.
fn write_tc_at(
    members: Members,
    core: Core,
    timeouts: &[u64],
    i: usize,
    out: &mut [u8],
    at: usize,
    round: Round,
    names: Signers,
) -> usize
    requires { (length timeouts.now ≡ timeouts_length) × (i < timeout_tallies) × (at + tc_outs_most ≤ length out.old) }
    ensures { Wrote tc_outs_most (tc_outs members.entry.stakes.now members.entry.own.0 core round.0 names.0 (highs_at timeouts.now i)) out.old at out.new result }
{
    let highs = highs_at(timeouts, i);
    write_tc(members, core, highs, out, at, round, names)
}

// What a quorum of timeouts does: advance, TC, MAKE with it. The tally is written before the
// advance drops it.
pub fn time_out(
    members: Members,
    core: Core,
    votes: &mut [u64],
    timeouts: &mut [u64],
    out: &mut [u8],
    at: usize,
    round: Round,
    i: usize,
    names: Signers,
) -> Moved
    requires { (round.0 ≤ round_max) × (i < timeout_tallies) × (length votes.old ≡ votes_length) × (length timeouts.old ≡ timeouts_length) × (at + time_out_most ≤ length out.old) }
    ensures { Did time_out_most (timed_out members.entry.stakes.now members.entry.own.0 (whole core votes.old timeouts.old) round.0 names.0 (highs_at timeouts.old i)) out.old at result.core votes.new timeouts.new out.new result.at }
{
    if round.0 < core.round.0 {
        let end = write_tc_at(members, core, timeouts, i, out, at, round, names);
        return Moved { core, at: end };
    }
    let next = Round(round.0 + 1);
    let mut n = core;
    n.round = next;
    let a = put_timer_reset(out, at);
    let end = write_tc_at(members, n, timeouts, i, out, a, round, names);
    cleanup_votes(votes, next);
    cleanup_timeouts(timeouts, next);
    Moved { core: n, at: end }
}
