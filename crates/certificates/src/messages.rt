// Certificates: messages.rs. The QC's equality with genesis, the checks of a QC and of a TC in the
// bytes of a record, and the check of an author that a block, a vote and a timeout share.
ghost use Rattle.std.specs.Prelude.{◌≡◌, ℕ, ◌+◌, ◌*◌, ◌≤◌, [], Bool, length};
ghost use Rattle.certificates.specs.Num.{num_at, nums_at};
ghost use Rattle.certificates.specs.Messages.{is_genesis, author_check, unknown_to, settled_by, settled_if, check_from, check_part, qc_check, tc_check, equals_genesis, embedded_check};

use crate::config::{MEMBERS_MAX, stake};
use crate::error::{AuthorError, CertificateError};
use crate::num::{hash_at, u8_at, u16_at, u64_at};
use crate::numbers::{Hash, Place, Round, Signers, Stake};
use crate::signers::weight;

// How a certificate lies in bytes: where its verdict is, and how long an entry of its list.
#[derive(Clone, Copy, Debug, PartialEq, Eq)]
struct Form {
    at: usize,
    stride: usize,
}

impl Form {
    // Hash 32 and round 8 stand before the verdict of a QC, and an entry is a place.
    const QC: Form = Form { at: 40, stride: 2 };

    // Round 8 stands before that of a TC, and an entry is a place and a high round.
    const TC: Form = Form { at: 8, stride: 10 };
}

// A certificate as it is kept: of a block's digest and a round, by these signers.
#[derive(Clone, Copy)]
pub struct QC {
    pub hash: Hash,
    pub round: Round,
    pub signers: Signers,
}

// Whether a QC of this hash and round equals genesis: signers and verdict do not count.
#[tactic(auto, unfolding(crate::specs::Messages::is_genesis))]
pub fn is_genesis(hash: Hash, round: Round) -> bool
    ensures { result ≡ is_genesis hash round.0 }
{
    hash == Hash::ZERO && round.0 == 0
}

// Ensure the authority has voting rights, then check the signature: the stake of a valid author.
#[tactic(auto, unfolding(crate::specs::Messages::author_check))]
pub fn check_author(members: &[u32], author: Place, verdict: u8) -> Result<Stake, AuthorError>
    ensures { result ≡ author_check members.now author.0 verdict }
{
    let held = stake(members, author);
    if held.0 == 0 {
        return Err(AuthorError::UnknownAuthority(author));
    }
    if verdict == 0 {
        return Err(AuthorError::InvalidSignature);
    }
    Ok(held)
}

// The place in entry `i` of the list: verdict 1 and count 2 stand before it.
fn place_at(form: Form, part: &[u8], i: usize) -> Place
    requires { form.at + 3 + form.stride * i + 2 ≤ length part.now }
    ensures { result.0 ≡ num_at 2 part.now (form.at + 3 + form.stride * i) }
{
    let at = form.at + 3 + form.stride * i;
    Place(u16::from_le_bytes([part[at], part[at + 1]]))
}

// Whether a place is no member with stake. A signer set has room for no place past the limit.
#[tactic(auto, unfolding(crate::specs::Messages::unknown_to))]
fn is_unknown(members: &[u32], p: Place) -> bool
    ensures { result ≡ unknown_to members.now p.0 }
{
    MEMBERS_MAX <= p.0 as usize || stake(members, p).0 == 0
}

// Signers of whom each is known and none is named twice: the quorum, and then the verdict.
#[tactic(auto, unfolding(crate::specs::Messages::settled_by))]
fn settle(
    members: &[u32],
    need: Stake,
    verdict: bool,
    s: Signers,
) -> Result<Signers, CertificateError>
    ensures { result ≡ settled_by members.now need.0 verdict s }
{
    let held = weight(members, s);
    if held < need.0 as u64 {
        return Err(CertificateError::RequiresQuorum);
    }
    if verdict {
        Ok(s)
    } else {
        Err(CertificateError::InvalidSignature)
    }
}

// The `n` signers of the list: at the first repeat, and at the first unknown place, it is refused.
fn signers_in(
    form: Form,
    members: &[u32],
    part: &[u8],
    n: usize,
) -> Result<Signers, CertificateError>
    requires { (2 ≤ form.stride) × (form.at + 3 + form.stride * n ≤ length part.now) }
    ensures { (need : ℕ) (verdict : Bool) → settled_if members.now need verdict result ≡ check_from members.now need verdict [] (nums_at 2 form.stride n part.now (form.at + 3)) }
{
    let mut word: u64 = 0;
    for i in 0..n {
        let p = place_at(form, part, i);
        for j in 0..i {
            if place_at(form, part, j) == p {
                return Err(CertificateError::AuthorityReuse(p));
            }
        }
        if is_unknown(members, p) {
            return Err(CertificateError::UnknownAuthority(p));
        }
        word |= 1u64 << p.0;
    }
    Ok(Signers(word))
}

// A certificate of a form: verdict 1, count 2, then the entries.
fn check_part(
    form: Form,
    members: &[u32],
    need: Stake,
    part: &[u8],
) -> Result<Signers, CertificateError>
    requires { (form.at ≤ 40) × (2 ≤ form.stride) × (form.stride ≤ 10) }
    ensures { result ≡ check_part form members.now need.0 part.now }
{
    let verdict = u8_at(part, form.at);
    let n = u16_at(part, form.at + 1) as usize;
    if part.len() < form.at + 3 + form.stride * n {
        return Err(CertificateError::Cut);
    }
    let signers = signers_in(form, members, part, n)?;
    settle(members, need, verdict == 1, signers)
}

// QC::verify.
#[tactic(auto, unfolding(crate::specs::Messages::qc_check))]
pub fn check_qc(members: &[u32], need: Stake, part: &[u8]) -> Result<Signers, CertificateError>
    ensures { result ≡ qc_check members.now need.0 part.now }
{
    check_part(Form::QC, members, need, part)
}

// TC::verify.
#[tactic(auto, unfolding(crate::specs::Messages::tc_check))]
pub fn check_tc(members: &[u32], need: Stake, part: &[u8]) -> Result<Signers, CertificateError>
    ensures { result ≡ tc_check members.now need.0 part.now }
{
    check_part(Form::TC, members, need, part)
}

// Whether the bytes are a QC that equals genesis. Bytes that end before its round does are none.
#[tactic(auto, unfolding(crate::specs::Messages::equals_genesis))]
pub fn equals_genesis(part: &[u8]) -> bool
    ensures { result ≡ equals_genesis part.now }
{
    if part.len() < Form::QC.at {
        return false;
    }
    is_genesis(hash_at(part, 0), Round(u64_at(part, 32)))
}

// The QC inside a block or a timeout: one that equals genesis is not checked, and names no signers.
#[tactic(auto, unfolding(crate::specs::Messages::embedded_check))]
pub fn check_embedded_qc(
    members: &[u32],
    need: Stake,
    part: &[u8],
) -> Result<Signers, CertificateError>
    ensures { result ≡ embedded_check members.now need.0 part.now }
{
    if equals_genesis(part) {
        return Ok(Signers(0));
    }
    check_qc(members, need, part)
}
