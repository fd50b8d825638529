// The tallies of votes and of timeouts: `Aggregator` of aggregator.rs, with fixed room.
//
// A table of tallies is one lent slice of numbers, tally after tally, each a row of it:
//
//     vote tally, 8 wide       used, round, weight, names, the hash's four words
//     timeout tally, 68 wide   used, round, weight, names, then a high round for each of 64 places
//
// `used` is 0 in a tally that is not in use, and any other number in one that is; a new tally has 1.
// What else lies in a tally that is not in use is not looked at. Bit p of `names` is for place p.
ghost use Rattle.std.specs.Prelude.{not, ◌≡◌, ◌+◌, ◌*◌, ◌≤◌, ◌<◌, ◌^◌, length};
ghost use Rattle.aggregator.specs.Rows.{row, with_row, FoundAs, zeros};
ghost use Rattle.aggregator.specs.Tally.{fields, places, vote_width, timeout_width, weight_of, is_vote, of_round, new_vote, new_timeout, no_high, with_high, answer_of, counted, AddedAs};
ghost use Rattle.aggregator.specs.Tallies.{vote_tallies, timeout_tallies, votes_length, timeouts_length, find_row, find_free, heavy, any_heavy, joined, dropped, TallyFor, Countable, added, after, vote_added, votes_after, timeout_added, timeouts_after, HighsAs};

use crate::tally::{HIGHS, Key, PLACES, TimeoutKey, USED, VoteKey, WEIGHT, append, is_heavy, keep};
use certificates::numbers::{Hash, Place, Round, Signers, Stake};

pub const VOTE_TALLIES: usize = 32;

pub const VOTE_WIDTH: usize = 8;

pub const TIMEOUT_TALLIES: usize = 16;

pub const TIMEOUT_WIDTH: usize = 68;

// A tally that has the quorum: its row, and its names.
#[derive(Clone, Copy, Debug, PartialEq, Eq)]
pub struct Quorum {
    pub row: usize,
    pub signers: Signers,
}

// Why a vote or a timeout is not counted.
#[derive(Clone, Copy, Debug, PartialEq, Eq)]
pub enum AddError {
    // There is no tally for it, and all are held.
    NoRoom,
    // Its author was counted already.
    Used,
}

// What became of a vote or a timeout. Where it is counted and its tally is short of the quorum, there is
// nothing more.
pub type Added = Result<Option<Quorum>, AddError>;

// ---- a tally and its author

// The lowest tally that is in use for the key.
fn find<K: Key>(table: &[u64], key: K) -> Option<usize>
    requires { length table.now ≡ K.TALLIES * K.WIDTH }
    ensures { FoundAs (find_row (K.test key) K.WIDTH K.TALLIES table.now) K.TALLIES result }
{
    table.chunks_exact(K::WIDTH).position(|t| key.is_of(t))
}

// The lowest tally that is not in use.
fn find_free<K: Key>(table: &[u64]) -> Option<usize>
    requires { length table.now ≡ K.TALLIES * K.WIDTH }
    ensures { FoundAs (find_free K.WIDTH K.TALLIES table.now) K.TALLIES result }
{
    table.chunks_exact(K::WIDTH).position(|t| t[USED] == 0)
}

// The tally in row i opened for the key.
fn open_at<K: Key>(table: &mut [u64], i: usize, key: K)
    requires { (length table.old ≡ K.TALLIES * K.WIDTH) × (i < K.TALLIES) }
    ensures { table.new ≡ with_row K.WIDTH table.old i (K.new key) }
{
    let from = i * K::WIDTH;
    let to = from + K::WIDTH;
    key.open(&mut table[from..to]);
}

// An author counted in the tally of row i.
fn append_at<K: Key>(
    table: &mut [u64],
    i: usize,
    key: K,
    place: Place,
    stake: Stake,
    need: Stake,
) -> Added
    requires { (length table.old ≡ K.TALLIES * K.WIDTH) × (i < K.TALLIES) × (place.0 < places) × (weight_of (row K.WIDTH table.old i) + stake.0 < 2 ^ 64) }
    ensures { AddedAs (answer_of i (row K.WIDTH table.old i) place.0 stake.0 need.0) (with_row K.WIDTH table.old i (counted (K.mark key place.0) (row K.WIDTH table.old i) place.0 stake.0 need.0)) result table.new }
{
    let from = i * K::WIDTH;
    let to = from + K::WIDTH;
    append(&mut table[from..to], i, key, place, stake, need)
}

// The row of the tally for the key, which is opened where there is none yet and there is room.
fn tally<K: Key>(table: &mut [u64], key: K) -> Option<usize>
    requires { length table.old ≡ K.TALLIES * K.WIDTH }
    ensures { TallyFor (K.test key) (K.new key) K.WIDTH K.TALLIES table.old result table.new }
{
    if let Some(i) = find(table, key) {
        return Some(i);
    }
    let i = find_free::<K>(table)?;
    open_at(table, i, key);
    Some(i)
}

// An author counted in the tally for the key. `NoRoom` and `Used` leave the whole table as it was.
fn add<K: Key>(table: &mut [u64], key: K, place: Place, stake: Stake, need: Stake) -> Added
    requires { Countable K.WIDTH K.TALLIES table.old place.0 stake.0 }
    ensures { AddedAs (added (K.test key) (K.new key) K.WIDTH K.TALLIES table.old place.0 stake.0 need.0) (after (K.test key) (K.new key) (K.mark key place.0) K.WIDTH K.TALLIES table.old place.0 stake.0 need.0) result table.new }
{
    match tally(table, key) {
        Some(i) => append_at(table, i, key, place, stake, need),
        None => Err(AddError::NoRoom),
    }
}

// A vote counted in the tally of its round and hash. `NoRoom` and `Used` leave the whole table as
// it was.
pub fn add_vote(
    votes: &mut [u64],
    round: Round,
    hash: Hash,
    place: Place,
    stake: Stake,
    need: Stake,
) -> Added
    requires { Countable vote_width vote_tallies votes.old place.0 stake.0 }
    ensures { AddedAs (vote_added votes.old round.0 hash place.0 stake.0 need.0) (votes_after votes.old round.0 hash place.0 stake.0 need.0) result votes.new }
{
    add(votes, VoteKey { round, hash }, place, stake, need)
}

// A timeout counted in the tally of its round, with its author's high round. `NoRoom` and `Used`
// leave the whole table as it was.
pub fn add_timeout(
    timeouts: &mut [u64],
    round: Round,
    place: Place,
    stake: Stake,
    need: Stake,
    high: Round,
) -> Added
    requires { Countable timeout_width timeout_tallies timeouts.old place.0 stake.0 }
    ensures { AddedAs (timeout_added timeouts.old round.0 place.0 stake.0 need.0) (timeouts_after timeouts.old round.0 place.0 stake.0 need.0 high.0) result timeouts.new }
{
    add(timeouts, TimeoutKey { round, high }, place, stake, need)
}

// The high rounds of the tally in row i, by place.
pub fn highs_at(timeouts: &[u64], i: usize) -> &[u64]
    requires { (length timeouts.now ≡ timeouts_length) × (i < timeout_tallies) }
    ensures { HighsAs timeouts.now i result.now }
{
    let from = i * TIMEOUT_WIDTH + HIGHS;
    let to = from + PLACES;
    &timeouts[from..to]
}

// ---- every tally

// Of n tallies, each w wide, those in use for a round below `round` become all zeros.
pub fn cleanup(v: &mut [u64], w: usize, n: usize, round: Round)
    requires { (fields ≤ w) × (n * w ≤ length v.old) }
    ensures { v.new ≡ dropped w n v.old round.0 }
{
    // By `chunks_exact_mut` the proof does not close: it does not see what the rows were made.
    for i in 0..n {
        let from = i * w;
        let to = from + w;
        keep(&mut v[from..to], round);
    }
}

pub fn cleanup_votes(votes: &mut [u64], round: Round)
    requires { length votes.old ≡ votes_length }
    ensures { votes.new ≡ dropped vote_width vote_tallies votes.old round.0 }
{
    cleanup(votes, VOTE_WIDTH, VOTE_TALLIES, round);
}

pub fn cleanup_timeouts(timeouts: &mut [u64], round: Round)
    requires { length timeouts.old ≡ timeouts_length }
    ensures { timeouts.new ≡ dropped timeout_width timeout_tallies timeouts.old round.0 }
{
    cleanup(timeouts, TIMEOUT_WIDTH, TIMEOUT_TALLIES, round);
}

// Every bit that the weight of some of n tallies has, each w wide. Every event asks for it: over a
// `K: Key` it is slower, by `chunks_exact` and `fold` too.
fn weights_of(v: &[u64], w: usize, n: usize) -> u64
    requires { (fields ≤ w) × (n * w ≤ length v.now) }
    ensures { result ≡ joined w n v.now }
{
    let mut all = 0;
    for i in 0..n {
        all |= v[i * w + WEIGHT];
    }
    all
}

// Whether some tally in use is heavier than the total. It is hardly ever asked, and inlined it would
// slow down what is asked on every event.
#[cold]
#[inline(never)]
fn is_any_heavy<K: Key>(table: &[u64], total: Stake) -> bool
    requires { length table.now ≡ K.TALLIES * K.WIDTH }
    ensures { result ≡ heavy K.WIDTH K.TALLIES table.now total.0 }
{
    for i in 0..K::TALLIES {
        if is_heavy(&table[i * K::WIDTH..], total) {
            return true;
        }
    }
    false
}

// Whether no tally in use is heavier than the total. Where the bits of all weights together are no
// more than the total, none is, and no tally is looked at by itself.
pub fn are_light(votes: &[u64], timeouts: &[u64], total: Stake) -> bool
    requires { (length votes.now ≡ votes_length) × (length timeouts.now ≡ timeouts_length) }
    ensures { result ≡ not (any_heavy votes.now timeouts.now total.0) }
{
    let of_votes = weights_of(votes, VOTE_WIDTH, VOTE_TALLIES);
    let of_timeouts = weights_of(timeouts, TIMEOUT_WIDTH, TIMEOUT_TALLIES);
    if of_votes | of_timeouts <= (total.0 as u64) {
        return true;
    }
    !is_any_heavy::<VoteKey>(votes, total) && !is_any_heavy::<TimeoutKey>(timeouts, total)
}

// Every number becomes 0: a table with no tally in use.
pub fn clear(s: &mut [u64])
    ensures { s.new ≡ zeros (length s.old) }
{
    s.fill(0);
}
