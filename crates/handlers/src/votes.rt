// VOTE, and the vote for a block: handle_vote, make_vote.
ghost use Rattle.std.specs.Prelude.{◌≡◌, ◌+◌, ◌≤◌, ◌<◌, length};
ghost use Rattle.certificates.specs.Config.{stake_of};
ghost use Rattle.certificates.specs.Error.{number};
ghost use Rattle.certificates.specs.Numbers.{round_max};
ghost use Rattle.trace.specs.Fields.{TcWithin};
ghost use Rattle.moves.specs.State.{whole};
ghost use Rattle.moves.specs.Outcome.{Reached};
ghost use Rattle.moves.specs.Moves.{certify_most};
ghost use Rattle.moves.specs.Tallied.{vote_tallied};
ghost use Rattle.handlers.specs.Sound.{Sound};
ghost use Rattle.handlers.specs.Votes.{vote_check, handled_vote, extends, may_vote, own_vote, voted, voting, voting_most};

use crate::checks::YES;
use aggregator::tallies::add_vote;
use certificates::committee::Committee;
use certificates::config::stake;
use certificates::error::{Answer, Refusal};
use certificates::leader::get_leader;
use certificates::messages::{QC, check_author};
use certificates::numbers::{Hash, Place, Round};
use moves::rounds::certify;
use moves::state::{Core, Ran};
use moves::tallies::added_refusal;
use outputs::records::put_vote;
use trace::events::{Block, Vote};

// STALE, the author, the verdict.
fn vote_check(members: &[u32], current: Round, v: Vote) -> Answer
    ensures { number result ≡ vote_check members.now current.0 v }
{
    if v.round.0 < current.0 {
        return Err(Refusal::Stale);
    }
    check_author(members, v.author, v.verdict)?;
    Ok(())
}

// A vote of a member counted in its tally; at the quorum its QC is taken. The state is handed on only
// at the quorum, so that no other vote copies it; as a call of its own it would be copied by each.
#[inline(always)]
fn count_vote(
    committee: Committee,
    core: Core,
    votes: &mut [u64],
    timeouts: &mut [u64],
    out: &mut [u8],
    at: usize,
    hash: Hash,
    round: Round,
    author: Place,
) -> Ran
    requires { Sound committee.members.stakes.now committee.members.own.0 votes.old timeouts.old × (author.0 < length committee.members.stakes.now) × (round.0 ≤ round_max) × (at + certify_most ≤ length out.old) }
    ensures { Reached certify_most (vote_tallied committee.entry.members.stakes.now committee.entry.members.own.0 committee.entry.need.0 (whole core votes.old timeouts.old) hash round.0 author.0 (stake_of committee.entry.members.stakes.now author.0)) out.old at result votes.new timeouts.new out.new }
{
    let members = committee.members;
    let held = stake(members.stakes, author);
    match add_vote(votes, round, hash, author, held, committee.need) {
        Ok(added) => match added {
            Some(quorum) => {
                let qc = QC {
                    hash,
                    round,
                    signers: quorum.signers,
                };
                let m = certify(members, core, votes, timeouts, out, at, qc);
                Ran {
                    answer: Ok(()),
                    core: m.core,
                    at: m.at,
                }
            }
            None => Ran {
                answer: Ok(()),
                core,
                at,
            },
        },
        Err(e) => Ran {
            answer: Err(added_refusal(e)),
            core,
            at,
        },
    }
}

// A vote that passes the checks is counted. Any other is refused, and leaves everything as it was.
pub fn handle_vote(
    committee: Committee,
    core: Core,
    votes: &mut [u64],
    timeouts: &mut [u64],
    out: &mut [u8],
    v: Vote,
) -> Ran
    requires { Sound committee.members.stakes.now committee.members.own.0 votes.old timeouts.old × (v.round.0 ≤ round_max) × (certify_most ≤ length out.old) }
    ensures { Reached certify_most (handled_vote committee.entry.members.stakes.now committee.entry.members.own.0 (whole core votes.old timeouts.old) v) out.old 0 result votes.new timeouts.new out.new }
{
    match vote_check(committee.members.stakes, core.round, v) {
        Ok(()) => count_vote(
            committee, core, votes, timeouts, out, 0, v.hash, v.round, v.author,
        ),
        Err(refusal) => Ran {
            answer: Err(refusal),
            core,
            at: 0,
        },
    }
}

// The block extends its QC's round, or a TC's whose high rounds are not above the QC's.
#[tactic(auto, unfolding(crate::specs::Votes::extends))]
fn is_extending(b: Block) -> bool
    requires { (b.qc_round.0 ≤ round_max) × TcWithin b.tc }
    ensures { result ≡ extends b }
{
    b.qc_round.0 + 1 == b.round.0
        || b.tc.is_some_and(|tc| tc.round.0 + 1 == b.round.0 && tc.high.0 <= b.qc_round.0)
}

// Both rules: safety_rule_1 and safety_rule_2.
#[tactic(auto, unfolding(crate::specs::Votes::may_vote))]
fn may_vote(core: Core, b: Block) -> bool
    requires { (b.qc_round.0 ≤ round_max) × TcWithin b.tc }
    ensures { result ≡ may_vote core b }
{
    core.last_voted_round.0 < b.round.0 && is_extending(b)
}

// VOTE's steps from the author on for the own vote, verdict yes.
fn own_vote(
    committee: Committee,
    core: Core,
    votes: &mut [u64],
    timeouts: &mut [u64],
    out: &mut [u8],
    at: usize,
    b: Block,
) -> Ran
    requires { Sound committee.members.stakes.now committee.members.own.0 votes.old timeouts.old × (b.round.0 ≤ round_max) × (at + certify_most ≤ length out.old) }
    ensures { Reached certify_most (own_vote committee.entry.members.stakes.now committee.entry.members.own.0 b (whole core votes.old timeouts.old)) out.old at result votes.new timeouts.new out.new }
{
    let own = committee.members.own;
    match check_author(committee.members.stakes, own, YES) {
        Ok(_) => count_vote(
            committee, core, votes, timeouts, out, at, b.digest, b.round, own,
        ),
        Err(e) => Ran {
            answer: Err(Refusal::from(e)),
            core,
            at,
        },
    }
}

// Last voted becomes the block's round, and VOTE is written to the next round's leader. Where that is
// the own place, the vote is also counted. The Rust sends none to itself (DIFFERENCES, own vote).
fn send_vote(
    committee: Committee,
    core: Core,
    votes: &mut [u64],
    timeouts: &mut [u64],
    out: &mut [u8],
    at: usize,
    b: Block,
) -> Ran
    requires { Sound committee.members.stakes.now committee.members.own.0 votes.old timeouts.old × (b.round.0 ≤ round_max) × (at + voting_most ≤ length out.old) }
    ensures { Reached voting_most (voted committee.entry.members.stakes.now committee.entry.members.own.0 b (whole core votes.old timeouts.old)) out.old at result votes.new timeouts.new out.new }
{
    let own = committee.members.own;
    let mut n = core;
    n.last_voted_round = b.round;
    let next_leader = get_leader(committee.members.stakes, Round(b.round.0 + 1));
    let end = put_vote(out, at, next_leader, b.digest, b.round);
    if next_leader.0 == own.0 {
        return own_vote(committee, n, votes, timeouts, out, end, b);
    }
    Ran {
        answer: Ok(()),
        core: n,
        at: end,
    }
}

// A vote for the block, if its round is the current one and the rules allow it. Else nothing is done.
pub fn make_vote(
    committee: Committee,
    core: Core,
    votes: &mut [u64],
    timeouts: &mut [u64],
    out: &mut [u8],
    at: usize,
    b: Block,
) -> Ran
    requires { Sound committee.members.stakes.now committee.members.own.0 votes.old timeouts.old × (b.round.0 ≤ round_max) × (b.qc_round.0 ≤ round_max) × TcWithin b.tc × (at + voting_most ≤ length out.old) }
    ensures { Reached voting_most (voting committee.entry.members.stakes.now committee.entry.members.own.0 b (whole core votes.old timeouts.old)) out.old at result votes.new timeouts.new out.new }
{
    if b.round.0 == core.round.0 {
        if may_vote(core, b) {
            return send_vote(committee, core, votes, timeouts, out, at, b);
        }
        return Ran {
            answer: Ok(()),
            core,
            at,
        };
    }
    Ran {
        answer: Ok(()),
        core,
        at,
    }
}
