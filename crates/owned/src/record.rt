// The record of a replica: all that it knows but for the table of blocks. The tallies have fixed
// room: 32 of votes and 16 of timeouts, each a row of numbers.
ghost use Rattle.std.specs.Prelude.{◌≡◌};
ghost use Rattle.owned.specs.Record.{no_replica};

use aggregator::tallies::{TIMEOUT_TALLIES, TIMEOUT_WIDTH, VOTE_TALLIES, VOTE_WIDTH};
use certificates::config::MEMBERS_MAX;
use certificates::error::Answer;
use certificates::messages::QC;
use certificates::numbers::{Hash, Place, Round, Signers};
use moves::state::Core;
use replica::started::Seat;

#[derive(Clone, Copy)]
pub struct Replica {
    pub seat: Seat,
    pub core: Core,
    pub stakes: [u32; MEMBERS_MAX],
    pub votes: [u64; VOTE_TALLIES * VOTE_WIDTH],
    pub timeouts: [u64; TIMEOUT_TALLIES * TIMEOUT_WIDTH],
}

// What an event leaves: the answer, how many bytes were written, and the record.
#[derive(Clone, Copy)]
pub struct Handed {
    pub answer: Answer,
    pub written: usize,
    pub replica: Replica,
}

// A record of zeros, which counts as not started: what a host hands in with START.
pub fn empty() -> Replica
    ensures { result ≡ no_replica }
{
    let high_qc = QC {
        hash: Hash::ZERO,
        round: Round(0),
        signers: Signers(0),
    };
    let seat = Seat {
        count: 0,
        own: Place(0),
    };
    let core = Core {
        round: Round(0),
        last_voted_round: Round(0),
        last_committed_round: Round(0),
        high_qc,
    };
    let stakes = [0u32; MEMBERS_MAX];
    let votes = [0u64; VOTE_TALLIES * VOTE_WIDTH];
    let timeouts = [0u64; TIMEOUT_TALLIES * TIMEOUT_WIDTH];
    Replica {
        seat,
        core,
        stakes,
        votes,
        timeouts,
    }
}
