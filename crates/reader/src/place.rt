// What stands at a place of a trace, and where the next record starts.
ghost use Rattle.std.specs.Prelude.{◌≡◌};
ghost use Rattle.reader.specs.Place.{front_at, next_at, left_at};

use trace::part::after;
use trace::record::{Front, split};

// What stands at a place: nothing past the end.
pub fn front_at(src: &[u8], at: usize) -> Front
    ensures { result ≡ front_at src.now at }
{
    split(after(src, at))
}

// Where the next record starts: at the end of the trace where the run ends.
#[tactic(auto, using(crate::proofs::Places::next_ways))]
pub fn next_at(src: &[u8], at: usize) -> usize
    ensures { result ≡ next_at src.now at }
{
    match front_at(src, at) {
        Front::End | Front::Cut => src.len(),
        Front::Small { end } | Front::Record { kind: _, end } => at + end,
    }
}

// How many bytes are left from a place on: none past the end.
pub fn left_at(src: &[u8], at: usize) -> usize
    ensures { result ≡ left_at src.now at }
{
    src.len().saturating_sub(at)
}
