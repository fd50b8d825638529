// The leader of a round: leader.rs.
ghost use Rattle.std.specs.Prelude.{◌≡◌};
ghost use Rattle.certificates.specs.Leader.{leader_of};

use crate::config::MEMBERS_MAX;
use crate::numbers::{Place, Round};

// The members lead in turn, by their places. Outside the limits of a committee, place 0.
#[tactic(auto, unfolding(crate::specs::Leader::leader_of))]
pub fn get_leader(members: &[u32], round: Round) -> Place
    ensures { result.0 ≡ leader_of members.now round.0 }
{
    let n = members.len();
    if n == 0 || MEMBERS_MAX < n {
        return Place(0);
    }
    let k = n as u64;
    let r = round.0 % k;
    Place(r as u16)
}
