// Bytes moved, copied, compared and summed; and read, in `streams`.
#![tactic(auto)]

pub mod streams;

ghost use Rattle.std.specs.Prelude.{◌+◌, ◌-◌, ◌≤◌, ◌≡◌, length, take, drop};
ghost use Rattle.std.proofs.Math.Seq.{paste};
ghost use Rattle.buffers.specs.Buffers.{Alike, common, mixed, sum_of};

// Moves what lies from start up to have to the front of buf, and answers how much that is.
pub fn shift(buf: &mut [u8], start: usize, have: usize) -> usize
    requires { (start ≤ have) × (have ≤ length buf.old) }
    ensures { (result ≡ have - start) × (take result buf.new ≡ take result (drop start buf.old)) }
{
    buf.copy_within(start..have, 0);
    have - start
}

// Puts the first n bytes of src into dst, from `to` on.
pub fn copy(src: &[u8], dst: &mut [u8], to: usize, n: usize)
    requires { (n ≤ length src.now) × (to + n ≤ length dst.old) }
    ensures { dst.new ≡ paste dst.old to src.now n }
{
    dst[to..to + n].copy_from_slice(&src[..n]);
}

fn front_alike(a: &[u8], b: &[u8]) -> usize
    ensures { result ≡ common a.now b.now }
{
    a.iter().zip(b).take_while(|(x, y)| *x == *y).count()
}

// How many bytes at the front of a and b are equal, of the first n.
#[tactic(auto, using(crate::proofs::Sums::alike_parts))]
pub fn alike(a: &[u8], b: &[u8], n: usize) -> usize
    requires { (n ≤ length a.now) × (n ≤ length b.now) }
    ensures { Alike a.now b.now n result }
{
    front_alike(&a[..n], &b[..n])
}

#[tactic(auto, unfolding(crate::specs::Buffers::mixed))]
fn mix(sum: u32, byte: u8) -> u32
    ensures { result ≡ mixed sum byte }
{
    (((sum as u64) * 257 + (byte as u64) + 1) % 4294967291) as u32
}

// The sum of s, begun at `sum`: that of one file after another is the sum of their bytes.
#[tactic(auto, using(crate::proofs::Sums::sum_by_fold))]
pub fn sum_of(s: &[u8], sum: u32) -> u32
    ensures { result ≡ sum_of sum s.now }
{
    s.iter().fold(sum, |all, byte| mix(all, *byte))
}
