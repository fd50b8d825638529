// The seven kinds of event: the form of each, its limits, and its fields, read where they lie.
//
// A record here is what follows the length: kind 2, then the body. The places below are places of
// such a record. A byte that the record does not have reads as 0.
//
//   START             count 2, own place 4, members of 36 from 6
//   PROPOSE, LOOPBACK digest 2, author 34, round 36, verdict 44, QC 45; after it the flag, and
//                     after that the TC if the flag is 1; PROPOSE ends with the payload verdict
//   VOTE              hash 2, round 34, author 42, verdict 44
//   TIMEOUT           round 2, author 10, verdict 12, QC 13
//   TC                TC 2
//   QC                hash 0, round 32, verdict 40, count 41, places of 2 from 43
//   TC                round 0, verdict 8, count 9, entries of 10 from 11: place 0, high round 2
ghost use Rattle.std.specs.Prelude.{◌≡◌, ◌^◌, ◌<◌, length, drop, set, MatchOption};
ghost use Rattle.certificates.specs.Error.{number};
ghost use Rattle.trace.specs.Layout.{signers_max, count_of, size_by, part_of, qc_part, tc_part, flag_at, tc_at, block_end, payload_of, tc_rounds, largest, largest_high, highs_of};
ghost use Rattle.trace.specs.Form.{Numbered, is_formed, form_of, are_marks};
ghost use Rattle.trace.specs.Limits.{empty_tc, bounded, limit_of, limit_in};
ghost use Rattle.trace.specs.Fields.{vote_of, timeout_of, block_of};

use crate::part::{after, byte_at, first};
use crate::record::RECORD_MAX;
use certificates::error::{Answer, Refusal};
use certificates::num::{hash_at, u16_at, u64_at};
use certificates::numbers::{Hash, Place, ROUND_MAX, Round};

// The most signers that a certificate may list.
pub const SIGNERS_MAX: u16 = 64;

// Where the certificates start: the QC of a block, the QC of a timeout, the TC of a TC event.
pub const BLOCK_QC: usize = 45;

pub const TIMEOUT_QC: usize = 13;

pub const TC_BODY: usize = 2;

// The kinds of event, each with its number in a record.
#[derive(Clone, Copy, Debug, PartialEq, Eq)]
pub enum Kind {
    Start = 1,
    Propose = 2,
    Vote = 3,
    Timeout = 4,
    Tc = 5,
    Loopback = 6,
    Tick = 7,
}

// A number that is no kind's.
#[derive(Clone, Copy, Debug, PartialEq, Eq)]
pub struct UnknownKind(pub u16);

impl TryFrom<u16> for Kind {
    type Error = UnknownKind;

    ghost try_from_gives = { Numbered };

    fn try_from(number: u16) -> Result<Self, UnknownKind> {
        match number {
            1 => Ok(Kind::Start),
            2 => Ok(Kind::Propose),
            3 => Ok(Kind::Vote),
            4 => Ok(Kind::Timeout),
            5 => Ok(Kind::Tc),
            6 => Ok(Kind::Loopback),
            7 => Ok(Kind::Tick),
            0 | 8..=65535 => Err(UnknownKind(number)),
        }
    }
}

#[derive(Clone, Copy)]
pub struct Vote {
    pub hash: Hash,
    pub round: Round,
    pub author: Place,
    pub verdict: u8,
}

#[derive(Clone, Copy)]
pub struct Timeout {
    pub round: Round,
    pub author: Place,
    pub verdict: u8,
    pub qc_hash: Hash,
    pub qc_round: Round,
}

// The TC of a block.
#[derive(Clone, Copy)]
pub struct BlockTc {
    // Where it starts in the record.
    pub at: usize,
    pub round: Round,
    // The largest high round of its entries.
    pub high: Round,
}

#[derive(Clone, Copy)]
pub struct Block {
    pub digest: Hash,
    pub author: Place,
    pub round: Round,
    pub verdict: u8,
    pub qc_hash: Hash,
    pub qc_round: Round,
    pub tc: Option<BlockTc>,
}

// ---- parts

pub fn body_of(record: &[u8]) -> &[u8]
    ensures { result.now ≡ drop 2 «record».now }
{
    after(record, 2)
}

// How a certificate lies: where its count stands, and how long each entry behind the count is.
#[derive(Clone, Copy)]
struct Certificate {
    count: u8,
    entry: u8,
}

const QC: Certificate = Certificate {
    count: 41,
    entry: 2,
};

const TC: Certificate = Certificate {
    count: 9,
    entry: 10,
};

impl Certificate {
    // The count of the certificate that starts at a place of the record.
    #[tactic(auto, using(crate::proofs::Parts::count_after))]
    fn count_at(self, record: &[u8], at: usize) -> u16
        ensures { result ≡ count_of self «record».now at }
    {
        u16_at(after(record, at), usize::from(self.count))
    }

    // How long it is, by its count.
    fn size_at(self, record: &[u8], at: usize) -> usize
        ensures { (result ≡ size_by self «record».now at) × (result < 2 ^ 32) }
    {
        let n = usize::from(self.count_at(record, at));
        usize::from(self.count) + 2 + usize::from(self.entry) * n
    }

    // The certificate, as it lies: cut where the record ends.
    fn part_at(self, record: &[u8], at: usize) -> &[u8]
        ensures { result.now ≡ part_of self «record».now at }
    {
        first(after(record, at), self.size_at(record, at))
    }
}

#[tactic(auto, unfolding(crate::specs::Layout::qc_part))]
pub fn qc_part(record: &[u8], at: usize) -> &[u8]
    ensures { result.now ≡ qc_part «record».now at }
{
    QC.part_at(record, at)
}

#[tactic(auto, unfolding(crate::specs::Layout::tc_part))]
pub fn tc_part(record: &[u8], at: usize) -> &[u8]
    ensures { result.now ≡ tc_part «record».now at }
{
    TC.part_at(record, at)
}

// Where the TC flag of a block stands: right after the QC.
#[tactic(auto, unfolding(crate::specs::Layout::flag_at))]
fn flag_at(record: &[u8]) -> usize
    ensures { (result ≡ flag_at «record».now) × (result < 2 ^ 33) }
{
    BLOCK_QC + QC.size_at(record, BLOCK_QC)
}

// Where the TC of a block starts, if it has one: right after the flag.
#[tactic(auto, unfolding(crate::specs::Layout::tc_at))]
fn tc_at(record: &[u8]) -> Option<usize>
    ensures { MatchOption result (tc_at «record».now ≡ 0) (λ tc. (tc ≡ tc_at «record».now) × (0 < tc) × (tc < 2 ^ 34)) }
{
    let flag = flag_at(record);
    if byte_at(record, flag) == 1 {
        Some(flag + 1)
    } else {
        None
    }
}

// Where a block ends.
#[tactic(auto, unfolding(crate::specs::Layout::block_end))]
fn block_end(record: &[u8]) -> usize
    ensures { (result ≡ block_end «record».now) × (result < 2 ^ 35) }
{
    match tc_at(record) {
        Some(tc) => tc + TC.size_at(record, tc),
        None => flag_at(record) + 1,
    }
}

// PROPOSE's last byte: 0 absent, 1 ready, 2 invalid.
#[tactic(auto, unfolding(crate::specs::Layout::payload_of))]
pub fn payload_of(record: &[u8]) -> u8
    ensures { result ≡ payload_of «record».now }
{
    record.last().copied().unwrap_or(0)
}

// ---- the form of each kind: the length that the counts call for, and verdicts and flags in range

// Whether the verdicts and the flag of a block are 0 or 1.
#[tactic(auto, unfolding(crate::specs::Form::block_marks, crate::specs::Form::any_above))]
fn are_marks(record: &[u8]) -> bool
    ensures { result ≡ are_marks «record».now }
{
    byte_at(record, 44) <= 1
        && byte_at(record, 85) <= 1
        && byte_at(record, flag_at(record)) <= 1
        && tc_at(record).is_none_or(|tc| byte_at(record, tc + 8) <= 1)
}

// Whether a record has the form of a kind. One match looks at the length and at the bytes that have a
// range: with a match for each, a record waits for a second jump.
#[tactic(auto, unfolding(crate::specs::Form::is_formed, crate::specs::Form::any_above))]
fn is_formed(record: &[u8], kind: Kind) -> bool
    ensures { result ≡ is_formed «record».now kind }
{
    let n = record.len();
    match kind {
        Kind::Start => n == 6 + 36 * usize::from(u16_at(record, 2)),
        Kind::Propose => {
            n == block_end(record) + 1 && are_marks(record) && payload_of(record) <= 2
        }
        Kind::Vote => n == 45 && byte_at(record, 44) <= 1,
        Kind::Timeout => {
            n == TIMEOUT_QC + QC.size_at(record, TIMEOUT_QC)
                && byte_at(record, 12) <= 1
                && byte_at(record, 53) <= 1
        }
        Kind::Tc => n == TC_BODY + TC.size_at(record, TC_BODY) && byte_at(record, 10) <= 1,
        Kind::Loopback => n == block_end(record) && are_marks(record),
        Kind::Tick => n == 2,
    }
}

// The kind of a record that has the form of its kind, and None for any other.
#[tactic(auto, unfolding(crate::specs::Form::form_of))]
pub fn form_of(record: &[u8]) -> Option<Kind>
    ensures { result ≡ form_of «record».now }
{
    if record.len() < 2 || RECORD_MAX < record.len() {
        return None;
    }
    let kind = Kind::try_from(u16_at(record, 0)).ok()?;
    is_formed(record, kind).then_some(kind)
}

// ---- the entries of a TC: place 2 and high round 8 each, from 11 on

// The largest high round over the entries of a TC: 0 where it has none.
#[tactic(auto, unfolding(crate::specs::Layout::largest_high, crate::specs::Layout::highs_in, crate::specs::Layout::largest))]
pub fn largest_high(part: &[u8]) -> Round
    ensures { result.0 ≡ largest_high part.now }
{
    let mut high = 0;
    for i in 0..usize::from(TC.count_at(part, 0)) {
        high = u64_at(part, 13 + 10 * i).max(high);
    }
    Round(high)
}

// Stores a high round at a place, and nothing where there is no such place.
// By an index: with `get_mut` the proof does not close.
fn put_high(highs: &mut [u64], place: usize, round: u64)
    ensures { highs.new ≡ set highs.old place round }
{
    if place < highs.len() {
        highs[place] = round;
    }
}

// The high round of each place, and 0 for one that has no entry.
#[tactic(auto, unfolding(crate::specs::Layout::highs_of, crate::specs::Layout::highs_up_to))]
pub fn highs_of(highs: &mut [u64], part: &[u8])
    requires { length highs.old ≡ signers_max }
    ensures { highs.new ≡ highs_of part.now }
{
    highs.fill(0);
    for i in 0..usize::from(TC.count_at(part, 0)) {
        let place = usize::from(u16_at(part, 11 + 10 * i));
        put_high(highs, place, u64_at(part, 13 + 10 * i));
    }
}

// ---- limits

// Refuses a list that is too long, and then a round that is too high.
#[tactic(auto, unfolding(crate::specs::Limits::bounded))]
fn bound(count: u16, round: u64) -> Answer
    ensures { number result ≡ bounded count round }
{
    if SIGNERS_MAX < count {
        Err(Refusal::ListTooLong)
    } else if ROUND_MAX < round {
        Err(Refusal::RoundTooHigh)
    } else {
        Ok(())
    }
}

// The highest round of a TC that starts at a place of the record.
#[tactic(auto, unfolding(crate::specs::Layout::tc_rounds, crate::specs::Layout::largest, crate::specs::Layout::largest_high))]
fn tc_rounds(record: &[u8], at: usize) -> u64
    ensures { result ≡ largest (tc_rounds «record».now at) }
{
    let Round(high) = largest_high(tc_part(record, at));
    u64_at(record, at).max(high)
}

#[tactic(auto, using(crate::proofs::Bounds::any_largest), unfolding(crate::specs::Limits::limit_of, crate::specs::Limits::bounded, crate::specs::Limits::block_counts, crate::specs::Limits::block_rounds, crate::specs::Layout::largest))]
fn block_limit(record: &[u8]) -> Answer
    ensures { number result ≡ limit_of «record».now Kind.Propose }
{
    let count = QC.count_at(record, BLOCK_QC);
    let round = u64_at(record, 36).max(u64_at(record, 77));
    match tc_at(record) {
        Some(tc) => bound(
            count.max(TC.count_at(record, tc)),
            round.max(tc_rounds(record, tc)),
        ),
        None => bound(count, round),
    }
}

// Whether a LOOPBACK has a TC, and it lists no one.
fn has_empty_tc(record: &[u8]) -> bool
    ensures { result ≡ empty_tc «record».now Kind.Loopback }
{
    tc_at(record).is_some_and(|tc| TC.count_at(record, tc) == 0)
}

// Refuses a record that passes a limit: with 32, 20 or 19, in this order. One without a form passes none.
#[tactic(auto, using(crate::proofs::Bounds::any_largest), unfolding(crate::specs::Limits::limit_of, crate::specs::Limits::bounded, crate::specs::Layout::largest))]
pub fn limit_of(record: &[u8], kind: Option<Kind>) -> Answer
    ensures { number result ≡ limit_in «record».now kind }
{
    let Some(kind) = kind else {
        return Ok(());
    };
    match kind {
        Kind::Start | Kind::Tick => Ok(()),
        Kind::Propose => block_limit(record),
        Kind::Vote => bound(0, u64_at(record, 34)),
        Kind::Timeout => bound(
            QC.count_at(record, TIMEOUT_QC),
            u64_at(record, 2).max(u64_at(record, 45)),
        ),
        Kind::Tc => bound(TC.count_at(record, TC_BODY), tc_rounds(record, TC_BODY)),
        Kind::Loopback => {
            if has_empty_tc(record) {
                Err(Refusal::EmptyTc)
            } else {
                block_limit(record)
            }
        }
    }
}

// ---- fields

#[tactic(auto, unfolding(crate::specs::Fields::vote_of))]
pub fn vote_of(record: &[u8]) -> Vote
    ensures { result ≡ vote_of «record».now }
{
    Vote {
        hash: hash_at(record, 2),
        round: Round(u64_at(record, 34)),
        author: Place(u16_at(record, 42)),
        verdict: byte_at(record, 44),
    }
}

#[tactic(auto, unfolding(crate::specs::Fields::timeout_of))]
pub fn timeout_of(record: &[u8]) -> Timeout
    ensures { result ≡ timeout_of «record».now }
{
    Timeout {
        round: Round(u64_at(record, 2)),
        author: Place(u16_at(record, 10)),
        verdict: byte_at(record, 12),
        qc_hash: hash_at(record, TIMEOUT_QC),
        qc_round: Round(u64_at(record, 45)),
    }
}

#[tactic(auto, unfolding(crate::specs::Fields::block_of, crate::specs::Fields::block_tc_of))]
pub fn block_of(record: &[u8]) -> Block
    ensures { result ≡ block_of «record».now }
{
    Block {
        digest: hash_at(record, 2),
        author: Place(u16_at(record, 34)),
        round: Round(u64_at(record, 36)),
        verdict: byte_at(record, 44),
        qc_hash: hash_at(record, BLOCK_QC),
        qc_round: Round(u64_at(record, 77)),
        tc: tc_at(record).map(|at| BlockTc {
            at,
            round: Round(u64_at(record, at)),
            high: largest_high(tc_part(record, at)),
        }),
    }
}
