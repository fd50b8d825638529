// The writers of single fields and of the parts that records share. Each asks that its bytes fit,
// and says what it stored by `Put`.
ghost use Rattle.std.specs.Prelude.{◌+◌, ◌*◌, ◌≤◌, ◌++◌, ◌≡◌, length};
ghost use Rattle.std.specs.Int.Count.{ones};
ghost use Rattle.outputs.specs.Fields.{digits, hash_bytes, bytes_of};
ghost use Rattle.outputs.specs.Put.{Put};
ghost use Rattle.outputs.specs.Records.{members_max, qc_fields, places_of, entries, tc_fields, code_of};

use crate::records::Kind;
use certificates::messages::QC;
use certificates::numbers::{Hash, Round, Signers};

// Some bytes.
fn put<const N: usize>(out: &mut [u8], at: usize, bytes: [u8; N]) -> usize
    requires { at + N ≤ length out.old }
    ensures { Put out.old at N bytes.entry out.new result }
{
    let to = at + N;
    out[at..to].copy_from_slice(&bytes);
    to
}

// A number of each width.
pub(crate) fn put8(out: &mut [u8], at: usize, x: u8) -> usize
    requires { at + 1 ≤ length out.old }
    ensures { Put out.old at 1 (digits 1 x) out.new result }
{
    put(out, at, [x])
}

pub(crate) fn put16(out: &mut [u8], at: usize, x: u16) -> usize
    requires { at + 2 ≤ length out.old }
    ensures { Put out.old at 2 (digits 2 x) out.new result }
{
    put(out, at, u16::to_le_bytes(x))
}

pub(crate) fn put64(out: &mut [u8], at: usize, x: u64) -> usize
    requires { at + 8 ≤ length out.old }
    ensures { Put out.old at 8 (digits 8 x) out.new result }
{
    put(out, at, u64::to_le_bytes(x))
}

// A record's length and kind.
pub(crate) fn put_head(out: &mut [u8], at: usize, len: u16, kind: Kind) -> usize
    requires { at + 4 ≤ length out.old }
    ensures { Put out.old at 4 (digits 2 len ++ digits 2 (code_of kind)) out.new result }
{
    let mid = put16(out, at, len);
    put16(out, mid, kind as u16)
}

pub(crate) fn put_hash(out: &mut [u8], at: usize, h: Hash) -> usize
    requires { at + 32 ≤ length out.old }
    ensures { Put out.old at 32 (hash_bytes h) out.new result }
{
    let b = put64(out, at, h.a);
    let c = put64(out, b, h.b);
    let d = put64(out, c, h.c);
    put64(out, d, h.d)
}

// A QC as it is written: hash 32, round 8, signer word 8.
pub(crate) fn put_qc(out: &mut [u8], at: usize, q: QC) -> usize
    requires { at + 48 ≤ length out.old }
    ensures { Put out.old at 48 (bytes_of (qc_fields q)) out.new result }
{
    let h = q.hash;
    let b = put_hash(out, at, h);
    let c = put64(out, b, q.round.0);
    put64(out, c, q.signers.0)
}

// An entry of a TC: place 2, high round 8.
fn put_entry(out: &mut [u8], at: usize, p: u16, high: u64) -> usize
    requires { at + 10 ≤ length out.old }
    ensures { Put out.old at 10 (digits 2 p ++ digits 8 high) out.new result }
{
    let mid = put16(out, at, p);
    put64(out, mid, high)
}

// The entries of a TC: the set places, the lowest first.
fn put_entries(out: &mut [u8], at: usize, names: u64, highs: &[u64]) -> usize
    requires { (length highs.now ≡ members_max) × (at + 10 * members_max ≤ length out.old) }
    ensures { Put out.old at (10 * ones names) (bytes_of (entries (places_of names) highs.now)) out.new result }
{
    let mut left = names;
    let mut to = at;
    while left != 0 {
        let p = u64::trailing_zeros(left);
        to = put_entry(out, to, p as u16, highs[p as usize]);
        left -= 1u64 << p;
    }
    to
}

// How many names there are: the count of ones.
pub(crate) fn names_in(names: Signers) -> u16
    ensures { (result ≡ ones names.0) × (result ≤ members_max) }
{
    u64::count_ones(names.0) as u16
}

// A TC's body: round 8, count 2, the entries.
pub(crate) fn put_tc_body(
    out: &mut [u8],
    at: usize,
    round: Round,
    names: Signers,
    highs: &[u64],
) -> usize
    requires { (length highs.now ≡ members_max) × (at + (10 + 10 * members_max) ≤ length out.old) }
    ensures { Put out.old at (10 + 10 * ones names.0) (bytes_of (tc_fields round.0 names.0 highs.now)) out.new result }
{
    let n = names_in(names);
    let a = put64(out, at, round.0);
    let b = put16(out, a, n);
    put_entries(out, b, names.0, highs)
}
