// A trace in a slice, answered record by record with the numbers that need no state: 16 for a bad
// record, then 32, 20 and 19 for one that passes a limit, else 0 (01, Numbers the host sees).
//
// The forms and the limits are those of `trace`, the ANSWER that of `outputs`.
#![tactic(auto)]

ghost use Rattle.std.specs.Prelude.{◌≡◌};
ghost use Rattle.certificates.specs.Error.{number};
ghost use Rattle.forms.specs.Numbers.{number_of, answer_of, too_long};
ghost use Rattle.forms.specs.Run.{RanIs};

use certificates::error::{Answer, Refusal, number};
use certificates::num::u16_at;
use outputs::records::{ANSWER_SIZE, put_answer};
use trace::events::{form_of, limit_of};
use trace::part::middle;
use trace::record::{Front, RECORD_MAX, split};

// The number of the answer to a record. The next record starts at end.
#[derive(Clone, Copy, Debug, PartialEq, Eq)]
pub struct Answered {
    pub number: u16,
    pub end: usize,
}

#[derive(Clone, Copy)]
pub struct Ran {
    // The bytes of the trace that were taken.
    pub used: usize,
    // The bytes of the output that were written.
    pub written: usize,
}

// The answer to a record, its kind and body: 16 without a form, and else the one by its limits.
#[tactic(auto, unfolding(crate::specs::Numbers::number_of))]
fn answer_to(record: &[u8]) -> Answer
    ensures { number result ≡ number_of «record».now }
{
    let kind = form_of(record).ok_or(Refusal::BadRecord)?;
    limit_of(record, Some(kind))
}

// The answer to the record at the front of a trace: None where there is none, or it is cut.
#[tactic(auto, unfolding(crate::specs::Numbers::answer_of))]
pub fn answer_front(trace: &[u8]) -> Option<Answered>
    ensures { result ≡ answer_of trace.now }
{
    let (answer, end) = match split(trace) {
        Front::End | Front::Cut => return None,
        Front::Small { end } => (Err(Refusal::BadRecord), end),
        Front::Record { kind: _, end } => (answer_to(middle(trace, 2, end)), end),
    };
    Some(Answered {
        number: number(answer),
        end,
    })
}

// Whether the length at the front is above the most, so that no more bytes make a record of it.
pub fn is_too_long(trace: &[u8]) -> bool
    ensures { result ≡ too_long trace.now }
{
    RECORD_MAX < usize::from(u16_at(trace, 0))
}

// Writes an ANSWER for each record of the trace, as long as there is a whole one and room for it.
#[tactic(auto, using(crate::proofs::Runs::run_ways))]
pub fn run(trace: &[u8], out: &mut [u8]) -> Ran
    ensures { RanIs trace.now out.old out.new result }
{
    let mut t = trace;
    let mut used = 0;
    let mut at = 0;
    while out.len() - at >= ANSWER_SIZE {
        let Some(Answered { number, end }) = answer_front(t) else {
            break;
        };
        at = put_answer(out, at, number);
        t = &t[end..];
        used += end;
    }
    Ran { used, written: at }
}
