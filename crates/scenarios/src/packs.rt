// A pack: many traces in one file, and what is expected for each in another.
use crate::files::{open_both, say_sum};
use buffers::streams::read_full;
use serving::serve::serve_new;
use serving::state::{Mode, Why};
use serving::streams::Streams;
use std::io::{Read, Sink};
use std::rt::Files;

// What the front of a pack has: the length of a part, nothing, or bytes that are no length.
#[derive(Clone, Copy)]
enum Front {
    Part { len: u64 },
    End,
    Cut,
}

fn front_of<F: Read>(from: &mut F) -> Front {
    let mut four = [0u8; 4];
    match read_full(from, &mut four) {
        4 => Front::Part {
            len: u64::from(u32::from_le_bytes(four)),
        },
        0 => Front::End,
        _ => Front::Cut,
    }
}

// How a pack ends: all its traces are equal; one differs, at a place; one was not played to its end;
// the two files do not have as many parts.
#[derive(Clone, Copy)]
enum End {
    AllEqual,
    Differs { at: u64 },
    NotPlayed,
    NotAlike,
}

// The next trace of a pack: nothing where it is equal, and the pack goes on.
fn play_next<F: Read>(pack: &mut Streams<F, F, Sink>) -> Option<End> {
    let (left, due) = match (front_of(&mut pack.input), front_of(&mut pack.expected)) {
        (Front::Part { len: left }, Front::Part { len: due }) => (left, due),
        (Front::End, Front::End) => return Some(End::AllEqual),
        _ => return Some(End::NotAlike),
    };
    let r = serve_new(pack, Mode::Part { left, due });
    match r.why {
        Why::Ended => None,
        Why::Differs => Some(End::Differs { at: r.place }),
        _ => Some(End::NotPlayed),
    }
}

// The traces found equal, and how the pack ends. They are counted, since nothing says that a file ends.
fn play_parts<F: Read>(pack: &mut Streams<F, F, Sink>) -> (u32, End) {
    for equal in 0..u32::MAX {
        if let Some(end) = play_next(pack) {
            return (equal, end);
        }
    }
    (u32::MAX, End::NotPlayed)
}

fn tell(rt: &impl Print, equal: u32, end: End) {
    let _ = match end {
        End::AllEqual => print!(rt; ": {equal} traces equal"),
        End::Differs { at } => {
            print!(rt; ": after {equal} equal traces the next differs at byte {at}")
        }
        End::NotAlike => {
            print!(rt; ": after {equal} equal traces its two files do not go on alike")
        }
        End::NotPlayed => {
            print!(rt; ": after {equal} equal traces the next was not played to its end")
        }
    };
}

// Whether every trace of a pack is answered with what is expected.
pub(crate) fn play_pack<R: Files + Print>(rt: &R, name: &[u8]) -> bool {
    let Some(mut pack) = open_both(rt, name, ".traces", ".answers") else {
        return false;
    };
    let (equal, end) = play_parts(&mut pack);
    tell(rt, equal, end);
    say_sum(rt, name, &[".traces", ".answers"]);
    matches!(end, End::AllEqual)
}
