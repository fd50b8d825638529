// The state that events change. The tallies lie in lent slices beside it.
use certificates::error::Answer;
use certificates::messages::QC;
use certificates::numbers::Round;

// What a restart needs, and nothing else.
#[derive(Clone, Copy)]
pub struct Core {
    pub round: Round,
    pub last_voted_round: Round,
    pub last_committed_round: Round,
    pub high_qc: QC,
}

// What a part of a handler leaves: the state, and the place after what it wrote.
#[derive(Clone, Copy)]
pub struct Moved {
    pub core: Core,
    pub at: usize,
}

// What an event leaves, with its answer.
#[derive(Clone, Copy)]
pub struct Ran {
    pub answer: Answer,
    pub core: Core,
    pub at: usize,
}
