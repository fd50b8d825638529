// Sets of signers (01: Certificates). Ones count them, trailing zeros visit their places.
ghost use Rattle.std.specs.Prelude.{◌≡◌};
ghost use Rattle.std.specs.Int.Count.{ones};
ghost use Rattle.certificates.specs.Signers.{weight_of};

use crate::config::stake;
use crate::numbers::{Place, Signers};

// How many signers there are.
pub fn count(s: Signers) -> u32
    ensures { result ≡ ones s.0 }
{
    s.0.count_ones()
}

// The stake of the signers.
pub fn weight(members: &[u32], s: Signers) -> u64
    ensures { result ≡ weight_of members.now s }
{
    let mut left = s.0;
    let mut sum: u64 = 0;
    while left != 0 {
        let p = left.trailing_zeros();
        let held = stake(members, Place(p as u16));
        sum += held.0 as u64;
        left -= 1u64 << p;
    }
    sum
}
