// The writers of whole records, in the order of 01's table of outputs.
ghost use Rattle.std.specs.Prelude.{◌+◌, ◌≤◌, ◌≡◌, length};
ghost use Rattle.outputs.specs.Put.{Put, PutTo};
ghost use Rattle.outputs.specs.Records.{vote, timeout, tc, make, make_with, commit, sync, clean_proposer, clean_mempool, timer_reset, answer, enc};
ghost use Rattle.outputs.specs.Records.{members_max, vote_size, timeout_size, tc_most, make_size, make_with_most, commit_size, sync_size, clean_proposer_size, clean_mempool_size, timer_reset_size, answer_size};

use crate::put::{names_in, put_hash, put_head, put_qc, put_tc_body, put8, put16, put64};
use certificates::messages::QC;
use certificates::numbers::{Hash, Place, Round, Signers};

// The kind of each record.
#[derive(Clone, Copy, Debug, PartialEq, Eq)]
pub enum Kind {
    Vote = 0x0101,
    Timeout = 0x0102,
    Tc = 0x0103,
    Make = 0x0104,
    Commit = 0x0105,
    Sync = 0x0106,
    CleanProposer = 0x0107,
    CleanMempool = 0x0108,
    TimerReset = 0x0109,
    Answer = 0x010A,
}

// The bytes of each record, its length field included; where their number varies, the most.
pub const VOTE_SIZE: usize = 46;

pub const TIMEOUT_SIZE: usize = 60;

pub const TC_MOST: usize = 654;

pub const MAKE_SIZE: usize = 61;

pub const MAKE_WITH_MOST: usize = 711;

pub const COMMIT_SIZE: usize = 44;

pub const SYNC_SIZE: usize = 70;

pub const CLEAN_PROPOSER_SIZE: usize = 100;

pub const CLEAN_MEMPOOL_SIZE: usize = 12;

pub const TIMER_RESET_SIZE: usize = 4;

pub const ANSWER_SIZE: usize = 6;

pub fn put_vote(out: &mut [u8], at: usize, to: Place, hash: Hash, round: Round) -> usize
    requires { at + vote_size ≤ length out.old }
    ensures { Put out.old at vote_size (enc (vote to.0 hash round.0)) out.new result }
{
    let a = put_head(out, at, 44, Kind::Vote);
    let b = put16(out, a, to.0);
    let c = put_hash(out, b, hash);
    put64(out, c, round.0)
}

pub fn put_timeout(out: &mut [u8], at: usize, round: Round, high: QC) -> usize
    requires { at + timeout_size ≤ length out.old }
    ensures { Put out.old at timeout_size (enc (timeout round.0 high)) out.new result }
{
    let a = put_head(out, at, 58, Kind::Timeout);
    let b = put64(out, a, round.0);
    put_qc(out, b, high)
}

// The high rounds are by place.
pub fn put_tc(out: &mut [u8], at: usize, round: Round, names: Signers, highs: &[u64]) -> usize
    requires { (length highs.now ≡ members_max) × (at + tc_most ≤ length out.old) }
    ensures { PutTo tc_most out.old at (enc (tc round.0 names.0 highs.now)) out.new result }
{
    let n = names_in(names);
    let a = put_head(out, at, 12 + 10 * n, Kind::Tc);
    put_tc_body(out, a, round, names, highs)
}

// MAKE without a TC.
pub fn put_make(out: &mut [u8], at: usize, round: Round, high: QC) -> usize
    requires { at + make_size ≤ length out.old }
    ensures { Put out.old at make_size (enc (make round.0 high)) out.new result }
{
    let a = put_head(out, at, 59, Kind::Make);
    let b = put64(out, a, round.0);
    let c = put_qc(out, b, high);
    put8(out, c, 0)
}

// MAKE with the TC of the round `of`.
pub fn put_make_with(
    out: &mut [u8],
    at: usize,
    round: Round,
    high: QC,
    of: Round,
    names: Signers,
    highs: &[u64],
) -> usize
    requires { (length highs.now ≡ members_max) × (at + make_with_most ≤ length out.old) }
    ensures { PutTo make_with_most out.old at (enc (make_with round.0 high of.0 names.0 highs.now)) out.new result }
{
    let n = names_in(names);
    let a = put_head(out, at, 69 + 10 * n, Kind::Make);
    let b = put64(out, a, round.0);
    let c = put_qc(out, b, high);
    let d = put8(out, c, 1);
    put_tc_body(out, d, of, names, highs)
}

pub fn put_commit(out: &mut [u8], at: usize, digest: Hash, round: Round) -> usize
    requires { at + commit_size ≤ length out.old }
    ensures { Put out.old at commit_size (enc (commit digest round.0)) out.new result }
{
    let a = put_head(out, at, 42, Kind::Commit);
    let b = put_hash(out, a, digest);
    put64(out, b, round.0)
}

pub fn put_sync(out: &mut [u8], at: usize, parent: Hash, block: Hash, author: Place) -> usize
    requires { at + sync_size ≤ length out.old }
    ensures { Put out.old at sync_size (enc (sync parent block author.0)) out.new result }
{
    let a = put_head(out, at, 68, Kind::Sync);
    let b = put_hash(out, a, parent);
    let c = put_hash(out, b, block);
    put16(out, c, author.0)
}

// b0 and b1 are the block's grandparent and parent; genesis is zeros.
pub fn put_clean_proposer(out: &mut [u8], at: usize, b0: Hash, b1: Hash, block: Hash) -> usize
    requires { at + clean_proposer_size ≤ length out.old }
    ensures { Put out.old at clean_proposer_size (enc (clean_proposer b0 b1 block)) out.new result }
{
    let a = put_head(out, at, 98, Kind::CleanProposer);
    let b = put_hash(out, a, b0);
    let c = put_hash(out, b, b1);
    put_hash(out, c, block)
}

pub fn put_clean_mempool(out: &mut [u8], at: usize, round: Round) -> usize
    requires { at + clean_mempool_size ≤ length out.old }
    ensures { Put out.old at clean_mempool_size (enc (clean_mempool round.0)) out.new result }
{
    let a = put_head(out, at, 10, Kind::CleanMempool);
    put64(out, a, round.0)
}

pub fn put_timer_reset(out: &mut [u8], at: usize) -> usize
    requires { at + timer_reset_size ≤ length out.old }
    ensures { Put out.old at timer_reset_size (enc timer_reset) out.new result }
{
    put_head(out, at, 2, Kind::TimerReset)
}

pub fn put_answer(out: &mut [u8], at: usize, number: u16) -> usize
    requires { at + answer_size ≤ length out.old }
    ensures { Put out.old at answer_size (enc (answer number)) out.new result }
{
    let a = put_head(out, at, 4, Kind::Answer);
    put16(out, a, number)
}
