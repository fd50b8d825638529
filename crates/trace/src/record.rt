// Taking one record off the front of a trace.
ghost use Rattle.std.specs.Prelude.{◌≡◌};
ghost use Rattle.trace.specs.Record.{split_of, record_of, rest_of};

use crate::part::{after, middle};
use certificates::num::u16_at;

// The most bytes that a record has after its length.
pub const RECORD_MAX: usize = 4096;

// What stands at the front of a trace.
#[derive(Clone, Copy, Debug, PartialEq, Eq)]
pub enum Front {
    // Nothing.
    End,
    // A length above the most, or a record that the end of the trace cuts: the run ends here.
    Cut,
    // A length too small for a kind. The next record starts at end.
    Small { end: usize },
    // A record. Its kind is at 2, its body starts at 4, and the next record at end.
    Record { kind: u16, end: usize },
}

#[tactic(auto, unfolding(crate::specs::Record::split_of, crate::specs::Record::framed))]
pub fn split(trace: &[u8]) -> Front
    ensures { result ≡ split_of trace.now }
{
    if trace.is_empty() {
        return Front::End;
    }
    let n = usize::from(u16_at(trace, 0));
    let end = n + 2;
    if trace.len() < 2 || RECORD_MAX < n || trace.len() < end {
        Front::Cut
    } else if n < 2 {
        Front::Small { end }
    } else {
        Front::Record {
            kind: u16_at(trace, 2),
            end,
        }
    }
}

// The record at the front, as it lies in the trace: the kind and the body. Of one too small for a
// kind, the bytes that there are; nothing where the run ends.
pub fn record_of(trace: &[u8], front: Front) -> &[u8]
    ensures { result.now ≡ record_of front trace.now }
{
    match front {
        Front::End | Front::Cut => &[],
        Front::Small { end } | Front::Record { kind: _, end } => middle(trace, 2, end),
    }
}

// The unread rest of the trace: empty where the run ends.
pub fn rest(trace: &[u8], front: Front) -> &[u8]
    ensures { result.now ≡ rest_of front trace.now }
{
    match front {
        Front::End | Front::Cut => &[],
        Front::Small { end } | Front::Record { kind: _, end } => after(trace, end),
    }
}
