// A single tally, a row of numbers: `QCMaker` and `TCMaker` of aggregator.rs.
//
// The first four numbers are the same in a vote tally and in a timeout tally, and so is what is
// done to them. What differs goes by the key that a tally is kept under.
ghost use Rattle.std.specs.Prelude.{ℕ, Bool, List, ◌≡◌, ◌+◌, ◌≤◌, ◌<◌, ◌^◌, length};
ghost use Rattle.aggregator.specs.Tally.{fields, places, vote_width, timeout_width, weight_of, is_vote, of_round, is_heavy, kept, new_vote, new_timeout, no_high, with_high, answer_of, counted, AddedAs};
ghost use Rattle.aggregator.specs.Tallies.{vote_tallies, timeout_tallies};
ghost use Rattle.aggregator.specs.Keys.{Keyed, vote-keyed, timeout-keyed};
ghost use Rattle.std.proofs.Common.{arith};

use crate::tallies::{
    AddError, Added, Quorum, TIMEOUT_TALLIES, TIMEOUT_WIDTH, VOTE_TALLIES, VOTE_WIDTH, clear,
};
use certificates::config::MEMBERS_MAX;
use certificates::numbers::{Hash, Place, Round, Signers, Stake};

// Where a tally's numbers lie.
pub(crate) const USED: usize = 0;

const ROUND: usize = 1;

pub(crate) const WEIGHT: usize = 2;

const NAMES: usize = 3;

// In a vote tally: the hash's four words.
const HASH_A: usize = 4;

const HASH_B: usize = 5;

const HASH_C: usize = 6;

const HASH_D: usize = 7;

// In a timeout tally: the first of the high rounds, and how many there are.
pub(crate) const HIGHS: usize = 4;

pub(crate) const PLACES: usize = MEMBERS_MAX;

// What a tally is kept under, and with it how the tallies of its kind lie in their table.
pub(crate) trait Key: Copy {
    ghost WIDTH: { ℕ };

    ghost TALLIES: { ℕ };

    // What a tally in use for the key passes, one that nobody is counted in, and what is stored
    // of an author besides its name and stake.
    ghost test: { Self → List ℕ → Bool };

    ghost new: { Self → List ℕ };

    ghost mark: { Self → ℕ → List ℕ → List ℕ };

    const WIDTH: usize;

    const TALLIES: usize;

    // Whether a tally is in use for the key.
    fn is_of(self, t: &[u64]) -> bool
        requires { length t.now ≡ WIDTH }
        ensures { result ≡ test self t.now };

    // A tally for the key, with nobody counted yet.
    fn open(self, t: &mut [u64])
        requires { length t.old ≡ WIDTH }
        ensures { t.new ≡ new self };

    fn mark(self, t: &mut [u64], place: Place)
        requires { (length t.old ≡ WIDTH) × (place.0 < places) }
        ensures { t.new ≡ mark self place.0 t.old };

    ghost wide: { fields ≤ WIDTH };

    ghost keyed: { (k : Self) → Keyed (test k) (new k) WIDTH };
}

// A vote's: the round and the hash.
#[derive(Clone, Copy)]
pub(crate) struct VoteKey {
    pub(crate) round: Round,
    pub(crate) hash: Hash,
}

impl Key for VoteKey {
    ghost WIDTH = { vote_width };

    ghost TALLIES = { vote_tallies };

    ghost test = { λ k. is_vote k.round.0 k.hash };

    ghost new = { λ k. new_vote k.round.0 k.hash };

    ghost mark = { λ k p. no_high };

    ghost wide = { Prim.omega arith };

    ghost keyed = { λ k. vote-keyed k.round.0 k.hash };

    const WIDTH: usize = VOTE_WIDTH;

    const TALLIES: usize = VOTE_TALLIES;

    fn is_of(self, t: &[u64]) -> bool {
        t[USED] != 0
            && t[ROUND] == self.round.0
            && Hash {
                a: t[HASH_A],
                b: t[HASH_B],
                c: t[HASH_C],
                d: t[HASH_D],
            } == self.hash
    }

    fn open(self, t: &mut [u64]) {
        t[USED] = 1;
        t[ROUND] = self.round.0;
        t[WEIGHT] = 0;
        t[NAMES] = 0;
        t[HASH_A] = self.hash.a;
        t[HASH_B] = self.hash.b;
        t[HASH_C] = self.hash.c;
        t[HASH_D] = self.hash.d;
    }

    fn mark(self, _t: &mut [u64], _place: Place) {}
}

// A timeout's: the round, with the author's high round.
#[derive(Clone, Copy)]
pub(crate) struct TimeoutKey {
    pub(crate) round: Round,
    pub(crate) high: Round,
}

impl Key for TimeoutKey {
    ghost WIDTH = { timeout_width };

    ghost TALLIES = { timeout_tallies };

    ghost test = { λ k. of_round k.round.0 };

    ghost new = { λ k. new_timeout k.round.0 };

    ghost mark = { λ k p. with_high p k.high.0 };

    ghost wide = { Prim.omega arith };

    ghost keyed = { λ k. timeout-keyed k.round.0 };

    const WIDTH: usize = TIMEOUT_WIDTH;

    const TALLIES: usize = TIMEOUT_TALLIES;

    fn is_of(self, t: &[u64]) -> bool {
        t[USED] != 0 && t[ROUND] == self.round.0
    }

    fn open(self, t: &mut [u64]) {
        clear(t);
        t[USED] = 1;
        t[ROUND] = self.round.0;
    }

    fn mark(self, t: &mut [u64], place: Place) {
        t[HIGHS + place.0 as usize] = self.high.0;
    }
}

// Whether a tally is in use and heavier than the total. Few are heavier, so the weight is looked at
// first.
pub(crate) fn is_heavy(t: &[u64], total: Stake) -> bool
    requires { fields ≤ length t.now }
    ensures { result ≡ is_heavy total.0 t.now }
{
    (total.0 as u64) < t[WEIGHT] && t[USED] != 0
}

// A tally as it stands once the round is `round`: all zeros if it is of an earlier one.
pub(crate) fn keep(t: &mut [u64], round: Round)
    requires { fields ≤ length t.old }
    ensures { t.new ≡ kept round.0 t.old }
{
    if t[USED] != 0 && t[ROUND] < round.0 {
        clear(t);
    }
}

// An author counted in the tally of row i. One that was counted already changes nothing. At the
// quorum the weight becomes 0 and the names stay.
pub(crate) fn append<K: Key>(
    t: &mut [u64],
    i: usize,
    key: K,
    place: Place,
    stake: Stake,
    need: Stake,
) -> Added
    requires { (length t.old ≡ K.WIDTH) × (place.0 < places) × (weight_of t.old + stake.0 < 2 ^ 64) }
    ensures { AddedAs (answer_of i t.old place.0 stake.0 need.0) (counted (K.mark key place.0) t.old place.0 stake.0 need.0) result t.new }
{
    let names = t[NAMES];
    // Ensure it is the first time this authority votes.
    if (names >> place.0) % 2 == 1 {
        return Err(AddError::Used);
    }
    let signers = names | (1 << place.0);
    let weight = t[WEIGHT] + (stake.0 as u64);
    t[NAMES] = signers;
    if weight < (need.0 as u64) {
        t[WEIGHT] = weight;
        key.mark(t, place);
        return Ok(None);
    }
    t[WEIGHT] = 0; // Ensures QC is only made once.
    key.mark(t, place);
    Ok(Some(Quorum {
        row: i,
        signers: Signers(signers),
    }))
}
