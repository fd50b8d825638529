// The block table: what stands at a place, what a scan finds, a store, and the clear of START.
ghost use Rattle.std.specs.Prelude.{◌≡◌, length, set};
ghost use Rattle.certificates.specs.Error.{number};
ghost use Rattle.synchronizer.specs.Table.{blank, slot_at, fits, found_in, place_of, stored, store_answer, cleared};

use certificates::error::{Answer, Refusal};
use certificates::numbers::{Hash, Round};

// A block as it is kept. A slot that is not used holds nothing. It is laid out as in C: a host lends
// slices of it.
#[repr(C)]
#[derive(Clone, Copy, Debug, PartialEq, Eq)]
pub struct Slot {
    pub used: bool,
    pub digest: Hash,
    pub round: Round,
    pub parent: Hash,
    pub parent_round: Round,
}

// What a scan looks for: any slot at all, a free one, or a used one with this digest.
#[derive(Clone, Copy, Debug, PartialEq, Eq)]
pub enum Want {
    Any,
    Free,
    Digest(Hash),
}

// A slot that holds nothing: all zeros.
pub(crate) fn empty() -> Slot
    ensures { result ≡ blank }
{
    Slot {
        used: false,
        digest: Hash::ZERO,
        round: Round(0),
        parent: Hash::ZERO,
        parent_round: Round(0),
    }
}

// Whether a slot is one that is looked for.
#[tactic(auto, unfolding(crate::specs::Table::fits))]
pub(crate) fn meets(s: &Slot, w: Want) -> bool
    ensures { result ≡ fits s.now w }
{
    match w {
        Want::Any => true,
        Want::Free => !s.used,
        Want::Digest(digest) => s.used && s.digest == digest,
    }
}

// How many slots there are.
pub fn len_of(table: &[Slot]) -> usize
    ensures { result ≡ length table.now }
{
    table.len()
}

// The slot at a place, and an empty one past the end.
pub fn slot_at(table: &[Slot], i: usize) -> Slot
    ensures { result ≡ slot_at table.now i }
{
    if i < table.len() { table[i] } else { empty() }
}

// Stores a slot at a place. Past the end nothing changes.
pub fn put_at(table: &mut [Slot], i: usize, s: Slot)
    ensures { table.new ≡ set table.old i s }
{
    if i < table.len() {
        table[i] = s;
    }
}

// The place of the lowest slot that is looked for.
pub fn find(table: &[Slot], w: Want) -> Option<usize>
    ensures { result ≡ found_in table.now w }
{
    table.iter().position(|s| meets(s, w))
}

// Every slot becomes all zeros.
#[tactic(auto, unfolding(crate::specs::Table::cleared))]
pub fn clear(table: &mut [Slot])
    ensures { table.new ≡ cleared table.old }
{
    table.fill(empty());
}

// Stores a block in place of the one with its digest, or in the lowest free slot. Where there is
// neither, it answers 28 and nothing changes.
pub fn store(table: &mut [Slot], block: Slot) -> Answer
    ensures { (number result ≡ store_answer (place_of table.old block) (length table.old)) × (table.new ≡ stored table.old block) }
{
    let same = find(table, Want::Digest(block.digest));
    let i = same
        .or_else(|| find(table, Want::Free))
        .ok_or(Refusal::TableFull)?;
    put_at(table, i, block);
    Ok(())
}
