// The parent and the grandparent of a block: synchronizer.rs.
ghost use Rattle.std.specs.Prelude.{◌≡◌};
ghost use Rattle.synchronizer.specs.Table.{genesis, parent_of, ancestors_of};
ghost use Rattle.synchronizer.specs.Parts.{with_found};

use crate::table::{Slot, Want, empty, find, slot_at};
use certificates::error::Refusal;
use certificates::messages::is_genesis;

// `b0 <- |qc0; b1| <- |qc1; block|`.
#[derive(Clone, Copy, Debug, PartialEq, Eq)]
pub struct Ancestors {
    pub b0: Slot,
    pub b1: Slot,
}

// Why a block is not stored, and its ancestors as far as they were found. A block that was not found is
// an empty slot, and genesis is the parent of an empty slot.
#[derive(Clone, Copy, Debug, PartialEq, Eq)]
pub struct Unstored {
    pub refusal: Refusal,
    pub found: Ancestors,
}

// The genesis block, which is its own parent.
pub(crate) fn genesis_block() -> Slot
    ensures { result ≡ genesis }
{
    Slot {
        used: true,
        ..empty()
    }
}

// The parent of a block: genesis if its QC equals genesis, else by the QC's hash.
pub fn get_parent_block(table: &[Slot], block: Slot) -> Option<Slot>
    ensures { result ≡ parent_of table.now block }
{
    if is_genesis(block.parent, block.parent_round) {
        return Some(genesis_block());
    }
    let i = find(table, Want::Digest(block.parent))?;
    Some(slot_at(table, i))
}

// The block's parent b1 and grandparent b0. It answers 2 where b1 is absent, and 30 where b0 is.
pub fn get_ancestors(table: &[Slot], block: Slot) -> Result<Ancestors, Unstored>
    ensures { result ≡ with_found table.now block (ancestors_of table.now block) }
{
    let Some(b1) = get_parent_block(table, block) else {
        return Err(Unstored {
            refusal: Refusal::WaitParent,
            found: Ancestors {
                b0: genesis_block(),
                b1: empty(),
            },
        });
    };
    let Some(b0) = get_parent_block(table, b1) else {
        return Err(Unstored {
            refusal: Refusal::AncestorAbsent,
            found: Ancestors { b0: empty(), b1 },
        });
    };
    Ok(Ancestors { b0, b1 })
}
