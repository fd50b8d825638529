// The three parts of an event over a record by value: its parts are lent to `replica`'s functions and
// put back.
ghost use Rattle.std.specs.Prelude.{◌≡◌, length};
ghost use Rattle.trace.specs.Fields.{block_of};
ghost use Rattle.replica.specs.Stages.{work_at};
ghost use Rattle.owned.specs.Stages.{Opens, Closable, Closes};

use crate::record::{Handed, Replica};
use aggregator::tallies::{TIMEOUT_TALLIES, TIMEOUT_WIDTH, VOTE_TALLIES, VOTE_WIDTH};
use certificates::config::MEMBERS_MAX;
use replica::stages::{Begun, begin, finish, work_of};
use synchronizer::settle::{Settled, Work};

// What the first part leaves.
#[derive(Clone, Copy)]
pub(crate) struct Opened {
    pub begun: Begun,
    pub stakes: [u32; MEMBERS_MAX],
    pub votes: [u64; VOTE_TALLIES * VOTE_WIDTH],
    pub timeouts: [u64; TIMEOUT_TALLIES * TIMEOUT_WIDTH],
}

// The first part: what needs no block.
pub(crate) fn open(out: &mut [u8], input: &[u8], r: Replica, slots: usize) -> Opened
    ensures { Opens r slots input.now out.old result out.new }
{
    let mut stakes = r.stakes;
    let mut votes = r.votes;
    let mut timeouts = r.timeouts;
    let begun = begin(
        &mut stakes,
        &mut votes,
        &mut timeouts,
        out,
        input,
        r.seat,
        r.core,
        slots,
    );
    Opened {
        begun,
        stakes,
        votes,
        timeouts,
    }
}

// What the table is asked for.
pub(crate) fn ask(input: &[u8], o: Opened) -> Work
    ensures { result ≡ work_at o.begun (block_of input.now) }
{
    let begun = o.begun;
    work_of(input, begun)
}

// The last part, once the table gave s: the vote.
pub(crate) fn close(out: &mut [u8], input: &[u8], o: Opened, s: Settled) -> Handed
    requires { Closable o s input.now (length out.old) }
    ensures { Closes o s input.now out.old result out.new }
{
    let begun = o.begun;
    let stakes = o.stakes;
    let mut votes = o.votes;
    let mut timeouts = o.timeouts;
    let x = finish(&stakes, &mut votes, &mut timeouts, out, input, begun, s);
    let seat = x.seat;
    let core = x.core;
    let replica = Replica {
        seat,
        core,
        stakes,
        votes,
        timeouts,
    };
    Handed {
        answer: x.answer,
        written: x.written,
        replica,
    }
}
