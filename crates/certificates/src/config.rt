// Stake and quorum: config.rs, and the limits of a setup (01: Members, stake, leader).
//
// A committee is the slice of its members' stakes by place; its length is the member count.
ghost use Rattle.std.specs.Prelude.{◌≡◌, ◌+◌, ◌*◌, ◌≤◌, length};
ghost use Rattle.certificates.specs.Config.{members_max, sum, stake_of, quorum_from, limited, setup_of};
ghost use Rattle.certificates.specs.Start.{same_word, members_at, member_len, member_count, own_place, stakes_in, key_at, keys_from, below, ascending, setup_at, loaded_stakes};

use crate::num::{holds, u8_at, u16_at, u32_at, u64_at};
use crate::numbers::{Place, Stake};

// The most members that a committee has.
pub const MEMBERS_MAX: usize = 64;

// The most stake that its members hold together.
pub const TOTAL_MAX: u64 = 2147483647;

// A stake is large from here on: as many below it as there are members sum up to 32 bits.
const LARGE: u32 = 16777216;

// Where START's body has the first member, how long a member is, and how long its key.
const MEMBERS_AT: usize = 4;

const MEMBER_LEN: usize = 36;

const KEY_LEN: usize = 32;

// The bytes of a word, by which keys are compared first.
const WORD: usize = 8;

// The stake of a place, which is 0 where the place is no member's.
#[tactic(auto, unfolding(crate::specs::Config::stake_of))]
pub fn stake(members: &[u32], place: Place) -> Stake
    ensures { result.0 ≡ stake_of members.now place.0 }
{
    Stake(members.get(place.0 as usize).copied().unwrap_or(0))
}

// Two thirds of the total, rounded down, and one more.
#[tactic(auto, unfolding(crate::specs::Config::quorum_from))]
pub fn quorum_threshold(total: Stake) -> Stake
    ensures { result.0 ≡ quorum_from total.0 }
{
    let t = total.0 as u64;
    let q = 2 * t / 3 + 1;
    Stake(q as u32)
}

// The total, where it keeps the limit.
#[tactic(auto, unfolding(crate::specs::Config::limited))]
fn limit(total: u64) -> Option<Stake>
    ensures { result ≡ limited total }
{
    if TOTAL_MAX < total {
        return None;
    }
    Some(Stake(total as u32))
}

// The stake of so few members that the sum fits.
#[tactic(auto, using(crate::proofs::ConfigLaws::sum_all))]
fn sum_any(members: &[u32]) -> u64
    requires { length members.now ≤ members_max }
    ensures { result ≡ sum members.now }
{
    members.iter().map(|s| u64::from(*s)).sum()
}

// The same. Where no stake is large, which `all` tells, the sum fits 32 bits: every event asks for it, and
// more of them are added at a time.
fn sum_stakes(members: &[u32]) -> u64
    requires { length members.now ≤ members_max }
    ensures { result ≡ sum members.now }
{
    let mut all: u32 = 0;
    let mut sum: u32 = 0;
    for stake in members {
        all |= *stake;
        sum += *stake % LARGE;
    }
    if all < LARGE {
        return u64::from(sum);
    }
    sum_any(members)
}

// The total stake of a committee: none without members, with too many, or with too much stake.
#[tactic(auto, unfolding(crate::specs::Config::setup_of))]
pub fn total_stake(members: &[u32]) -> Option<Stake>
    ensures { result ≡ setup_of members.now }
{
    if members.is_empty() || MEMBERS_MAX < members.len() {
        return None;
    }
    limit(sum_stakes(members))
}

// The member count in START's body.
#[tactic(auto, unfolding(crate::specs::Start::member_count))]
pub fn member_count(body: &[u8]) -> u16
    ensures { result ≡ member_count body.now }
{
    u16_at(body, 0)
}

// The own place in START's body.
#[tactic(auto, unfolding(crate::specs::Start::own_place))]
pub fn own_place(body: &[u8]) -> Place
    ensures { result.0 ≡ own_place body.now }
{
    Place(u16_at(body, 2))
}

// The stake of member `i` in START's body, 0 where the body names no such member.
fn stake_in(body: &[u8], i: usize) -> u32
    ensures { result ≡ stake_of (stakes_in body.now) i }
{
    if i < member_count(body) as usize {
        u32_at(body, MEMBERS_AT + KEY_LEN + MEMBER_LEN * i)
    } else {
        0
    }
}

// The stake of the first `n` members in START's body.
fn sum_in(body: &[u8], n: usize) -> u64
    requires { (n ≡ member_count body.now) × (n ≤ members_max) }
    ensures { result ≡ sum (stakes_in body.now) }
{
    let mut sum = 0;
    for i in 0..n {
        sum += u64::from(stake_in(body, i));
    }
    sum
}

// Whether the next eight of so many bytes that are left lie in the body at both places, and are the same.
#[tactic(auto, unfolding(crate::specs::Start::same_word))]
fn is_word_same(body: &[u8], x: usize, y: usize, left: usize) -> bool
    ensures { result ≡ same_word body.now x y left }
{
    WORD <= left
        && holds(body, x, WORD)
        && holds(body, y, WORD)
        && u64_at(body, x) == u64_at(body, y)
}

// Whether the key at `a` is below the key at `b`: the first byte that differs decides. Words that are the
// same are passed over.
fn key_below(body: &[u8], a: usize, b: usize) -> bool
    requires { (a ≤ members_at + member_len * members_max) × (b ≤ members_at + member_len * members_max) }
    ensures { result ≡ below (key_at body.now a) (key_at body.now b) }
{
    let mut same = 0;
    while is_word_same(body, a + same, b + same, KEY_LEN - same) {
        same += WORD;
    }
    for i in same..KEY_LEN {
        let u = u8_at(body, a + i);
        let v = u8_at(body, b + i);
        if u != v {
            return u < v;
        }
    }
    false
}

// Whether each of the first `n` keys in START's body is below the next.
fn keys_ascend(body: &[u8], n: usize) -> bool
    requires { n ≤ members_max }
    ensures { result ≡ ascending (keys_from n body.now members_at) }
{
    for i in 1..n {
        let at = MEMBERS_AT + MEMBER_LEN * i;
        if !key_below(body, at - MEMBER_LEN, at) {
            return false;
        }
    }
    true
}

// The total stake in START's body, where its members keep the limits, their keys ascend, and the own place is
// one of theirs.
pub fn check_setup(body: &[u8]) -> Option<Stake>
    ensures { result ≡ setup_at body.now }
{
    let n = member_count(body) as usize;
    let own = own_place(body).0 as usize;
    if own < n && n <= MEMBERS_MAX && keys_ascend(body, n) {
        limit(sum_in(body, n))
    } else {
        None
    }
}

// The stakes of START's body into a lent slice: member by member, and 0 past the last.
pub fn load(stakes: &mut [u32], body: &[u8])
    ensures { stakes.new ≡ loaded_stakes (length stakes.old) body.now }
{
    for (i, stake) in stakes.iter_mut().enumerate() {
        *stake = stake_in(body, i);
    }
}
