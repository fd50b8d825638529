// The walk from a block to the last committed one, and the COMMITs that it brings: core.rs's commit,
// corrected as 01 says.
ghost use Rattle.std.specs.Prelude.{◌+◌, ◌*◌, ◌≤◌, ◌≡◌, ltb, length, map};
ghost use Rattle.outputs.specs.Records.{commit_size};
ghost use Rattle.outputs.specs.Put.{Wrote};
ghost use Rattle.synchronizer.specs.Walk.{commit_of, chain_of};
ghost use Rattle.synchronizer.specs.Settle.{commit_rec};
ghost use Rattle.synchronizer.specs.Parts.{next_walked, counted, count_of};

use crate::ancestors::get_parent_block;
use crate::table::{Slot, empty};
use certificates::error::Refusal;
use certificates::numbers::Round;
use outputs::records::put_commit;

// The bytes of a COMMIT, its length field included.
pub const COMMIT_SIZE: usize = 44;

// COMMITs that are still to be written: how many, the place of the oldest, and the newest block.
#[derive(Clone, Copy, Debug, PartialEq, Eq)]
pub struct Chain {
    pub left: usize,
    pub at: usize,
    pub block: Slot,
}

// Whether a round is above another plus 1, which never wraps.
pub(crate) fn is_above_next(round: Round, last: Round) -> bool
    ensures { result ≡ ltb (last.0 + 1) round.0 }
{
    last.0 < round.0 && 1 < round.0 - last.0
}

// The block that a walk goes on to from `child`: its parent, or none where that was committed before.
// It answers 30 where the parent is absent, and 31 where its round is not below.
pub(crate) fn next_walked(
    child: Slot,
    parent: Option<Slot>,
    last: Round,
) -> Result<Option<Slot>, Refusal>
    ensures { result ≡ next_walked child.round.0 last.0 parent }
{
    let block = parent.ok_or(Refusal::AncestorAbsent)?;
    if child.round.0 <= block.round.0 {
        return Err(Refusal::RoundNotBelow);
    }
    if block.round.0 <= last.0 {
        return Ok(None);
    }
    Ok(Some(block))
}

// How many blocks a commit of b0 delivers. Where b0 is at or below the last committed round it
// delivers nothing.
pub fn count_walk(table: &[Slot], b0: Slot, last: Round) -> Result<usize, Refusal>
    ensures { counted result ≡ count_of (commit_of table.now b0 last.0) }
{
    if b0.round.0 <= last.0 {
        return Ok(0);
    }
    let mut block = b0;
    let mut blocks = 1;
    while is_above_next(block.round, last) {
        let Some(parent) = next_walked(block, get_parent_block(table, block), last)? else {
            break;
        };
        block = parent;
        blocks += 1;
    }
    Ok(blocks)
}

// Writes the COMMITs of a chain, found newest first, at falling places. An absent parent is an empty
// slot.
pub fn write_commits(table: &[Slot], out: &mut [u8], c: Chain)
    requires { c.at + commit_size * c.left ≤ length out.old }
    ensures { Wrote (commit_size * c.left) (map commit_rec (chain_of c.left table.now c.block)) out.old c.at out.new (c.at + commit_size * c.left) }
{
    let mut block = c.block;
    for left in (0..c.left).rev() {
        put_commit(out, c.at + COMMIT_SIZE * left, block.digest, block.round);
        // No parent of the oldest is looked for.
        if 0 < left {
            block = get_parent_block(table, block).unwrap_or(empty());
        }
    }
}
