// The public entry over a record by value.
ghost use Rattle.std.specs.Prelude.{◌≡◌, ◌≤◌, length};
ghost use Rattle.replica.specs.Started.{room_for};
ghost use Rattle.replica.specs.Step.{laid, stepped};
ghost use Rattle.owned.specs.Record.{world_of, handed_left};

use crate::record::{Handed, Replica};
use crate::stages::{ask, close, open};
use synchronizer::settle::settle;
use synchronizer::table::{Slot, len_of};

// One event: the same as `replica::step::step`, over a record that is handed in and got back.
pub fn step(table: &mut [Slot], out: &mut [u8], input: &[u8], r: Replica) -> Handed
    ensures { (handed_left result table.new out.new ≡ laid (stepped (world_of r table.old) (length out.old) input.now) out.old) × (result.written ≤ room_for (length table.old)) }
{
    let slots = len_of(table);
    let o = open(out, input, r, slots);
    let w = ask(input, o);
    let s = settle(table, out, w);
    close(out, input, o, s)
}
