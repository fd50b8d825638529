// Little-endian numbers and hashes at a place of a slice. A place from which the bytes do not all
// lie in the slice reads as zero.
ghost use Rattle.std.specs.Prelude.{◌≡◌, ◌+◌, ◌≤◌, length, leb};
ghost use Rattle.certificates.specs.Num.{bytes_at, num_at, hash_at};

use crate::numbers::Hash;

// The N bytes from `at` on, and zeros where they do not all lie in the slice. One test of the place is
// all that a read waits for.
#[tactic(auto, unfolding(crate::specs::Num::bytes_at))]
fn bytes_at<const N: usize>(s: &[u8], at: usize) -> [u8; N]
    ensures { result ≡ bytes_at N s.now at }
{
    if holds(s, at, N) {
        if let Some(bytes) = s[at..at + N].first_chunk() {
            return *bytes;
        }
    }
    [0; N]
}

// Whether w bytes from `at` on lie in s.
pub(crate) fn holds(s: &[u8], at: usize, w: usize) -> bool
    ensures { result ≡ leb (at + w) (length s.now) }
{
    w <= s.len() && at <= s.len() - w
}

pub fn u8_at(s: &[u8], at: usize) -> u8
    ensures { result ≡ num_at 1 s.now at }
{
    u8::from_le_bytes(bytes_at(s, at))
}

pub fn u16_at(s: &[u8], at: usize) -> u16
    ensures { result ≡ num_at 2 s.now at }
{
    u16::from_le_bytes(bytes_at(s, at))
}

pub fn u32_at(s: &[u8], at: usize) -> u32
    ensures { result ≡ num_at 4 s.now at }
{
    u32::from_le_bytes(bytes_at(s, at))
}

pub fn u64_at(s: &[u8], at: usize) -> u64
    ensures { result ≡ num_at 8 s.now at }
{
    u64::from_le_bytes(bytes_at(s, at))
}

pub fn hash_at(s: &[u8], at: usize) -> Hash
    ensures { result ≡ hash_at s.now at }
{
    let bytes: [u8; 32] = bytes_at(s, at);
    Hash {
        a: u64_at(&bytes, 0),
        b: u64_at(&bytes, 8),
        c: u64_at(&bytes, 16),
        d: u64_at(&bytes, 24),
    }
}
