// PROPOSE up to its payload: handle_proposal.
ghost use Rattle.std.specs.Prelude.{◌≡◌, ◌+◌, ◌≤◌, length};
ghost use Rattle.certificates.specs.Error.{number};
ghost use Rattle.certificates.specs.Numbers.{round_max};
ghost use Rattle.aggregator.specs.Tallies.{votes_length, timeouts_length};
ghost use Rattle.trace.specs.Fields.{TcWithin};
ghost use Rattle.moves.specs.State.{whole};
ghost use Rattle.moves.specs.Outcome.{Did};
ghost use Rattle.handlers.specs.Sound.{signers_of, Answers};
ghost use Rattle.handlers.specs.Proposals.{leader_check, qc_found, tc_number, proposal_check, taken, taken_most, proposal_of, Proposes, payload_as};

use certificates::committee::Committee;
use certificates::error::{Answer, Refusal};
use certificates::leader::get_leader;
use certificates::messages::{QC, check_author, check_embedded_qc, check_tc};
use certificates::numbers::Signers;
use moves::rounds::{advance_round, process_qc};
use moves::state::{Core, Moved, Ran};
use trace::events::{BLOCK_QC, Block, qc_part, tc_part};

// The verdicts on a payload; any other is invalid.
const ABSENT: u8 = 0;

const READY: u8 = 1;

// The leader, the author's stake, the verdict.
fn leader_check(members: &[u32], b: Block) -> Answer
    ensures { number result ≡ leader_check members.now b }
{
    let leader = get_leader(members, b.round);
    if leader.0 == b.author.0 {
        check_author(members, b.author, b.verdict)?;
        return Ok(());
    }
    Err(Refusal::WrongLeader)
}

// The block's TC, if it has one.
fn tc_check(committee: Committee, b: Block, input: &[u8]) -> Answer
    ensures { number result ≡ tc_number committee.entry.members.stakes.now b input.now }
{
    let Some(tc) = b.tc else {
        return Ok(());
    };
    match check_tc(
        committee.members.stakes,
        committee.need,
        tc_part(input, tc.at),
    ) {
        Ok(_) => Ok(()),
        Err(e) => Err(e.refusal(Refusal::TcRequiresQuorum)),
    }
}

// The checks in 01's order. b is the record's block; its certificates are checked where they lie.
fn check_proposal(committee: Committee, b: Block, input: &[u8]) -> Result<Signers, Refusal>
    ensures { Answers (proposal_check committee.entry.members.stakes.now b input.now (qc_found committee.entry.members.stakes.now input.now)) (signers_of (qc_found committee.entry.members.stakes.now input.now)) result }
{
    let stakes = committee.members.stakes;
    leader_check(stakes, b)?;
    match check_embedded_qc(stakes, committee.need, qc_part(input, BLOCK_QC)) {
        Ok(signers) => {
            tc_check(committee, b, input)?;
            Ok(signers)
        }
        Err(e) => Err(e.refusal(Refusal::QcRequiresQuorum)),
    }
}

// The QC is taken; then the TC, if any, advances the round.
fn take_certificates(
    core: Core,
    votes: &mut [u64],
    timeouts: &mut [u64],
    out: &mut [u8],
    b: Block,
    signers: Signers,
) -> Moved
    requires { (b.qc_round.0 ≤ round_max) × TcWithin b.tc × (length votes.old ≡ votes_length) × (length timeouts.old ≡ timeouts_length) × (taken_most ≤ length out.old) }
    ensures { Did taken_most (taken (whole core votes.old timeouts.old) b signers) out.old 0 result.core votes.new timeouts.new out.new result.at }
{
    let qc = QC {
        hash: b.qc_hash,
        round: b.qc_round,
        signers,
    };
    let a = process_qc(core, votes, timeouts, out, 0, qc);
    match b.tc {
        Some(tc) => advance_round(a.core, votes, timeouts, out, a.at, tc.round),
        None => a,
    }
}

// WAIT PAYLOAD where it is absent, 27 where it is invalid; the block goes on where it is ready.
fn by_payload(a: Moved, payload: u8) -> Ran
    ensures { result ≡ payload_as a payload }
{
    let answer = match payload {
        READY => Ok(()),
        ABSENT => Err(Refusal::WaitPayload),
        _ => Err(Refusal::InvalidPayload),
    };
    Ran {
        answer,
        core: a.core,
        at: a.at,
    }
}

// A proposal before the table of blocks: the block goes on to it where nothing refuses. The checks, then
// the certificates are taken, then the payload decides. A check that is not passed leaves everything as it
// was.
pub fn handle_proposal(
    committee: Committee,
    core: Core,
    votes: &mut [u64],
    timeouts: &mut [u64],
    out: &mut [u8],
    input: &[u8],
    b: Block,
    payload: u8,
) -> Ran
    requires { (b.qc_round.0 ≤ round_max) × TcWithin b.tc × (length votes.old ≡ votes_length) × (length timeouts.old ≡ timeouts_length) × (taken_most ≤ length out.old) }
    ensures { Proposes taken_most (proposal_of committee.entry.members.stakes.now (whole core votes.old timeouts.old) b input.now payload) out.old 0 result votes.new timeouts.new out.new }
{
    match check_proposal(committee, b, input) {
        Ok(signers) => by_payload(
            take_certificates(core, votes, timeouts, out, b, signers),
            payload,
        ),
        Err(refusal) => Ran {
            answer: Err(refusal),
            core,
            at: 0,
        },
    }
}
