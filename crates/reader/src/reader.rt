// A reader holds the trace bytes and its place in them. Each method is thin.
ghost use Rattle.std.specs.Prelude.{◌≡◌};
ghost use Rattle.reader.specs.Place.{front_at, next_at, left_at, front_in};

use crate::place::{front_at, left_at, next_at};
use trace::part::first;
use trace::record::Front;

#[derive(Clone, Copy)]
pub struct Reader<'a> {
    pub src: &'a [u8],
    // The next record starts here.
    pub at: usize,
}

impl<'a> Reader<'a> {
    pub fn new(src: &'a [u8], at: usize) -> Self
        ensures { (result.src ≡ src.entry) × (result.at ≡ at) }
    {
        Reader { src, at }
    }

    // What stands at its place.
    pub fn front(self) -> Front
        ensures { result ≡ front_at self.entry.src.now self.entry.at }
    {
        front_at(self.src, self.at)
    }

    // The reader behind what stands at its place.
    pub fn taken(self) -> Self
        ensures { (result.src ≡ self.entry.src) × (result.at ≡ next_at self.entry.src.now self.entry.at) }
    {
        Reader {
            src: self.src,
            at: next_at(self.src, self.at),
        }
    }

    // How many bytes it has left.
    pub fn left(self) -> usize
        ensures { result ≡ left_at self.entry.src.now self.entry.at }
    {
        left_at(self.src, self.at)
    }
}

// What stands at a place, by a reader made there.
pub fn front_of(src: &[u8], at: usize) -> Front
    ensures { result ≡ front_at src.now at }
{
    Reader::new(src, at).front()
}

// What stands at a place of a buffer of which the first have bytes were read: of all of it where it
// has fewer.
#[tactic(auto, using(crate::proofs::Places::part_ways))]
pub fn front_from(src: &[u8], at: usize, have: usize) -> Front
    ensures { result ≡ front_in src.now at have }
{
    front_of(first(src, have), at)
}
