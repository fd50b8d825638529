// The committee of an event, as its parts are handed to what takes it.
ghost use Rattle.std.specs.Prelude.{◌≡◌};
ghost use Rattle.certificates.specs.Config.{quorum_of};

use crate::numbers::{Place, Stake};

// The members' stakes by place, and the own place.
#[derive(Clone, Copy)]
pub struct Members<'a> {
    pub stakes: &'a [u32],
    pub own: Place,
}

// The members, and the stake of a quorum of them.
#[derive(Clone, Copy)]
pub struct Committee<'a> {
    pub members: Members<'a>,
    pub need: Stake,
    ghost quorum: { need.0 ≡ quorum_of members.stakes.now },
}
