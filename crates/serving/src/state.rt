// A run by value: what the replica keeps by value, and how far it is.
ghost use Rattle.std.specs.Prelude.{◌≡◌, ◌+◌, ◌≤◌, ◌<◌, ◌^◌, unwrap_or, ltb};
ghost use Rattle.serving.specs.State.{idle as idle_run, fresh_of, rank, later, ended_by, passed_by, filled_by, readable_of, due_of, read_by, met_in, end_of, gained_by, brought_by, met_by, held_by, further_by, judged_by, told_of};

use certificates::messages::QC;
use certificates::numbers::{Hash, Place, Round, Signers};
use moves::state::Core;
use replica::started::Seat;
use turns::turn::{Run, Turned};

// What is done with the output: it is written; it is compared with a file, to the file's end; it is
// compared with a part of a file, and the input is a part of a file too. Of the parts `left` and
// `due` bytes were not read yet.
#[derive(Clone, Copy, Debug, PartialEq, Eq)]
pub enum Mode {
    Write,
    File,
    Part { left: u64, due: u64 },
}

// Why a run ended. A later one stands over an earlier one.
#[derive(Clone, Copy, Debug, PartialEq, Eq, PartialOrd, Ord)]
pub enum Why {
    Going,
    Ended,
    NotRead,
    NotWritten,
    Differs,
    NoRoom,
}

#[derive(Clone, Copy)]
pub struct Serving {
    pub run: Run,
    pub mode: Mode,
    // The bytes at the front of the pack that wait to be written.
    pub held: usize,
    // The bytes of output so far; where it differs, the place of the first byte that does.
    pub place: u64,
    pub turns: u64,
    pub why: Why,
}

// What a program is told of its run.
#[derive(Clone, Copy)]
pub struct Served {
    pub why: Why,
    pub place: u64,
}

impl Why {
    // Past the end of the input: a fault, or output that is not what is expected.
    pub(crate) fn is_fault(self) -> bool
        ensures { result ≡ ltb (rank Why.Ended) (rank self) }
    {
        Why::Ended < self
    }

    // The one that stands over the other.
    fn later(self, other: Why) -> Why
        ensures { result ≡ later self other }
    {
        self.max(other)
    }
}

impl Mode {
    // Of a part no more of the input than is left of it.
    pub(crate) fn readable(self, n: usize) -> usize
        ensures { result ≡ readable_of self n }
    {
        match self {
            Mode::Part { left, due: _ } => left.min(n as u64) as usize,
            Mode::Write | Mode::File => n,
        }
    }

    // Of a part no more than is due.
    pub(crate) fn comparable(self, n: usize) -> usize
        ensures { (result ≡ due_of self n) × (result ≤ n) }
    {
        match self {
            Mode::Part { left: _, due } => due.min(n as u64) as usize,
            Mode::Write | Mode::File => n,
        }
    }

    // n bytes of the input were read.
    fn read(self, n: usize) -> Mode
        ensures { result ≡ read_by self n }
    {
        match self {
            Mode::Part { left, due } => Mode::Part {
                left: left.saturating_sub(n as u64),
                due,
            },
            Mode::Write | Mode::File => self,
        }
    }

    // n bytes of what is expected were read.
    fn met(self, n: usize) -> Mode
        ensures { result ≡ met_in self n }
    {
        match self {
            Mode::Part { left, due } => Mode::Part {
                left,
                due: due.saturating_sub(n as u64),
            },
            Mode::Write | Mode::File => self,
        }
    }

    // What the end of the input makes of a run: a part that is cut is not read.
    fn end(self) -> Why
        ensures { result ≡ end_of self }
    {
        match self {
            Mode::Part { left: _, due: _ } => Why::NotRead,
            Mode::Write | Mode::File => Why::Ended,
        }
    }
}

// A replica that was not started, at the front of an empty buffer.
fn idle() -> Run
    ensures { result ≡ idle_run }
{
    Run {
        seat: Seat {
            count: 0,
            own: Place(0),
        },
        core: Core {
            round: Round(0),
            last_voted_round: Round(0),
            last_committed_round: Round(0),
            high_qc: QC {
                hash: Hash::ZERO,
                round: Round(0),
                signers: Signers(0),
            },
        },
        at: 0,
        have: 0,
    }
}

impl Serving {
    // A run at its beginning.
    pub(crate) fn fresh(mode: Mode) -> Serving
        ensures { result ≡ fresh_of mode }
    {
        Serving {
            run: idle(),
            mode,
            held: 0,
            place: 0,
            turns: u64::MAX,
            why: Why::Going,
        }
    }

    pub(crate) fn told(self) -> Served
        ensures { result ≡ told_of self }
    {
        Served {
            why: self.why,
            place: self.place,
        }
    }

    // The run is over.
    pub(crate) fn ended(self, why: Why) -> Serving
        ensures { result ≡ ended_by self why }
    {
        Serving {
            turns: 0,
            why: self.why.later(why),
            ..self
        }
    }

    // A turn is over, and left t.
    pub(crate) fn passed(self, t: Turned) -> Serving
        ensures { result ≡ passed_by self t }
    {
        Serving {
            run: t.run,
            turns: self.turns.saturating_sub(1),
            ..self
        }
    }

    // n bytes stand unread at the front of the buffer.
    pub(crate) fn filled(self, n: usize) -> Serving
        ensures { result ≡ filled_by self n }
    {
        Serving {
            run: Run {
                at: 0,
                have: n,
                ..self.run
            },
            ..self
        }
    }

    // n bytes of the input were read behind those that are there.
    fn gained(self, n: usize) -> Serving
        requires { self.run.have + n < 2 ^ 64 }
        ensures { result ≡ gained_by self n }
    {
        Serving {
            run: Run {
                have: self.run.have + n,
                ..self.run
            },
            mode: self.mode.read(n),
            ..self
        }
    }

    // What a read makes of a run: it failed, or brought so many bytes, none at the end of the input.
    pub(crate) fn brought(self, got: Option<usize>) -> Serving
        requires { self.run.have + unwrap_or got 0 < 2 ^ 64 }
        ensures { result ≡ brought_by self got }
    {
        match got {
            None => self.ended(Why::NotRead),
            Some(0) => self.ended(self.mode.end()),
            Some(n) => self.gained(n),
        }
    }

    // n bytes of what is expected were read.
    fn met(self, n: usize) -> Serving
        ensures { result ≡ met_by self n }
    {
        Serving {
            mode: self.mode.met(n),
            ..self
        }
    }

    // n bytes wait in the pack.
    pub(crate) fn holding(self, n: usize) -> Serving
        ensures { result ≡ held_by self n }
    {
        Serving { held: n, ..self }
    }

    // The output is n bytes further on.
    pub(crate) fn further(self, n: usize) -> Serving
        ensures { result ≡ further_by self n }
    {
        Serving {
            place: self.place.checked_add(n as u64).unwrap_or(self.place),
            ..self
        }
    }

    // Of n bytes of output `same` are those that are expected; `got` were read to see that.
    pub(crate) fn judged(self, got: usize, same: usize, n: usize) -> Serving
        ensures { result ≡ judged_by self got same n }
    {
        let u = self.met(got).further(same);
        if same < n {
            return u.ended(Why::Differs);
        }
        u
    }
}
