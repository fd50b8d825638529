// 01, Members: whether what was handed in counts as started; and the room that an event needs.
ghost use Rattle.std.specs.Prelude.{◌≡◌, length};
ghost use Rattle.aggregator.specs.Tallies.{votes_length, timeouts_length};
ghost use Rattle.replica.specs.Started.{sized, shaped, light_in, started_of, roomy};

use aggregator::tallies::{TIMEOUT_TALLIES, TIMEOUT_WIDTH, VOTE_TALLIES, VOTE_WIDTH, are_light};
use certificates::config::{MEMBERS_MAX, total_stake};
use certificates::numbers::{Place, Stake};
use outputs::records::COMMIT_SIZE;

// The most slots that a table may have, and the most bytes that an event writes besides COMMITs.
pub const SLOTS_MAX: usize = 1024;

pub const ROOM: usize = 2048;

// What START fixes: the number of members, and the own place.
#[derive(Clone, Copy)]
pub struct Seat {
    pub count: u16,
    pub own: Place,
}

// Memory of the sizes that a replica has.
#[tactic(auto, unfolding(crate::specs::Started::sized))]
pub(crate) fn is_sized(stakes: usize, votes: usize, timeouts: usize) -> bool
    ensures { result ≡ sized stakes votes timeouts }
{
    stakes == MEMBERS_MAX
        && votes == VOTE_TALLIES * VOTE_WIDTH
        && timeouts == TIMEOUT_TALLIES * TIMEOUT_WIDTH
}

// That, and the count and the own place within the limits.
#[tactic(auto, unfolding(crate::specs::Started::shaped))]
fn is_shaped(seat: Seat, stakes: usize, votes: usize, timeouts: usize) -> bool
    ensures { result ≡ shaped seat stakes votes timeouts }
{
    (seat.count as usize) <= MEMBERS_MAX
        && seat.own.0 < seat.count
        && is_sized(stakes, votes, timeouts)
}

fn light_in(votes: &[u64], timeouts: &[u64], total: Stake) -> Option<Stake>
    requires { (length votes.now ≡ votes_length) × (length timeouts.now ≡ timeouts_length) }
    ensures { result ≡ light_in votes.now timeouts.now (Some total) }
{
    if are_light(votes, timeouts, total) {
        Some(total)
    } else {
        None
    }
}

// The total stake, where the record counts as started. It is asked on every event.
#[tactic(auto, unfolding(crate::specs::Started::started_of))]
pub fn total_of(seat: Seat, stakes: &[u32], votes: &[u64], timeouts: &[u64]) -> Option<Stake>
    ensures { result ≡ started_of seat stakes.now votes.now timeouts.now }
{
    if is_shaped(seat, stakes.len(), votes.len(), timeouts.len()) {
        let n = seat.count as usize;
        let total = total_stake(&stakes[0..n])?;
        light_in(votes, timeouts, total)
    } else {
        None
    }
}

// A table of 1 to 1,024 slots, and room for the output.
#[tactic(auto, unfolding(crate::specs::Started::roomy))]
pub fn is_roomy(slots: usize, room: usize) -> bool
    ensures { result ≡ roomy slots room }
{
    slots != 0 && slots <= SLOTS_MAX && COMMIT_SIZE * slots + ROOM <= room
}
