// What an event does with the block table: nothing, START's clear, or a block (core.rs's
// process_block, up to the vote).
ghost use Rattle.std.specs.Prelude.{◌+◌, ◌*◌, ◌≤◌, ◌≡◌, length, eqb};
ghost use Rattle.outputs.specs.Put.{Wrote};
ghost use Rattle.synchronizer.specs.Settle.{is_two_chain, clean_of, commit_if, linked_of, processed_of, settled_of, clean_most, settle_most, RoomFor, Settles};
ghost use Rattle.synchronizer.specs.Parts.{counted, count_of, Admits, CommitsFit, RoomToAsk, Asks};

use crate::ancestors::{Ancestors, Unstored, get_ancestors};
use crate::commit::{COMMIT_SIZE, Chain, count_walk, write_commits};
use crate::table::{Slot, clear, store};
use certificates::error::{Answer, Refusal};
use certificates::numbers::{Place, Round};
use outputs::records::{put_clean_mempool, put_clean_proposer, put_sync};

// What an event does with the table: nothing, it clears it, or it brings a block of this author.
#[derive(Clone, Copy, Debug, PartialEq, Eq)]
pub enum Task {
    Nothing,
    Clear,
    Store { block: Slot, author: Place },
}

// What is to be done, the last committed round, and the place that outputs are written from.
#[derive(Clone, Copy, Debug, PartialEq, Eq)]
pub struct Work {
    pub task: Task,
    pub last: Round,
    pub at: usize,
}

// A block that comes to the table, and what Work says beside it.
#[derive(Clone, Copy, Debug, PartialEq, Eq)]
pub struct Arrival {
    pub block: Slot,
    pub author: Place,
    pub last: Round,
    pub at: usize,
}

// The answer, the last committed round, and the place after the outputs.
#[derive(Clone, Copy, Debug, PartialEq, Eq)]
pub struct Settled {
    pub answer: Answer,
    pub last: Round,
    pub at: usize,
}

// A block's ancestors, and then its store, or why the block is not stored. Where the store has no place
// for it, both ancestors were found.
pub fn admit(table: &mut [Slot], block: Slot) -> Result<Ancestors, Unstored>
    ensures { Admits table.old block result table.new }
{
    let found = get_ancestors(table, block)?;
    match store(table, block) {
        Ok(()) => Ok(found),
        Err(refusal) => Err(Unstored { refusal, found }),
    }
}

// Whether the second round is the first plus 1, which never wraps.
pub(crate) fn is_next(low: Round, high: Round) -> bool
    ensures { result ≡ eqb (low.0 + 1) high.0 }
{
    low.0 < high.0 && high.0 - low.0 == 1
}

// Whether b1 is of the round after b0's.
#[tactic(auto, unfolding(crate::specs::Settle::is_two_chain))]
pub(crate) fn is_two_chain(a: Ancestors) -> bool
    ensures { result ≡ is_two_chain a.b0 a.b1 }
{
    is_next(a.b0.round, a.b1.round)
}

// How many blocks a stored block commits: none where b1 is not of the round after b0's.
pub(crate) fn count_commit(table: &[Slot], a: Ancestors, last: Round) -> Result<usize, Refusal>
    ensures { counted result ≡ count_of (commit_if table.now a.b0 a.b1 last.0) }
{
    if is_two_chain(a) {
        count_walk(table, a.b0, last)
    } else {
        Ok(0)
    }
}

// CLEAN PROPOSER, and CLEAN MEMPOOL where b0 is to be committed.
pub(crate) fn write_clean(out: &mut [u8], w: Arrival, a: Ancestors) -> usize
    requires { w.at + clean_most ≤ length out.old }
    ensures { Wrote clean_most (clean_of a.b0 a.b1 w.block) out.old w.at out.new result }
{
    let mid = put_clean_proposer(out, w.at, a.b0.digest, a.b1.digest, w.block.digest);
    if is_two_chain(a) {
        return put_clean_mempool(out, mid, a.b0.round);
    }
    mid
}

// What follows the store: cleanup, and the commit of b0, from the table as it is now and b0 as it was
// found before. A walk that is refused commits nothing.
pub(crate) fn commit(table: &[Slot], out: &mut [u8], w: Arrival, a: Ancestors) -> Settled
    requires { CommitsFit table.now w a (length out.old) }
    ensures { Settles (linked_of table.now w.block a.b0 a.b1 w.last.0) (settle_most (length table.now)) out.old w.at result table.now out.new }
{
    let count = count_commit(table, a, w.last);
    let at = write_clean(out, w, a);
    match count {
        Ok(left) => {
            let block = a.b0;
            write_commits(table, out, Chain { left, at, block });
            Settled {
                answer: Ok(()),
                last: if 0 < left { block.round } else { w.last },
                at: at + COMMIT_SIZE * left,
            }
        }
        Err(refusal) => Settled {
            answer: Err(refusal),
            last: w.last,
            at,
        },
    }
}

// A block: its ancestors, the store, cleanup and commit. Of a block that is not stored nothing is
// written.
pub(crate) fn process_block(table: &mut [Slot], out: &mut [u8], w: Arrival) -> Settled
    requires { w.at + settle_most (length table.old) ≤ length out.old }
    ensures { Settles (processed_of table.old w) (settle_most (length table.old)) out.old w.at result table.new out.new }
{
    match admit(table, w.block) {
        Ok(a) => commit(table, out, w, a),
        Err(unstored) => Settled {
            answer: Err(unstored.refusal),
            last: w.last,
            at: w.at,
        },
    }
}

// SYNC, where a block waits for its parent. Any other settlement stays as it is.
pub(crate) fn ask_parent(out: &mut [u8], w: Arrival, s: Settled) -> Settled
    requires { RoomToAsk s (length out.old) }
    ensures { Asks w s out.old result out.new }
{
    if s.answer == Err(Refusal::WaitParent) {
        let at = put_sync(out, s.at, w.block.parent, w.block.digest, w.author);
        return Settled { at, ..s };
    }
    s
}

// What an event does with the table, and what it writes on the way. For a block the output has room for
// the cleanup and a COMMIT for each slot; a block that waits writes SYNC alone.
pub fn settle(table: &mut [Slot], out: &mut [u8], w: Work) -> Settled
    requires { RoomFor w (length table.old) (length out.old) }
    ensures { Settles (settled_of table.old w) (settle_most (length table.old)) out.old w.at result table.new out.new }
{
    let Work { task, last, at } = w;
    match task {
        Task::Nothing => {}
        Task::Clear => clear(table),
        Task::Store { block, author } => {
            let arrival = Arrival {
                block,
                author,
                last,
                at,
            };
            let s = process_block(table, out, arrival);
            return ask_parent(out, arrival, s);
        }
    }
    Settled {
        answer: Ok(()),
        last,
        at,
    }
}
