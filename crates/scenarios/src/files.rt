// Files by name, their sums, and what is written to standard output.
ghost use Rattle.std.specs.Prelude.{◌≤◌, length, IfSome};

use buffers::streams::{large_buffer, read_full};
use buffers::{copy, sum_of};
use serving::streams::Streams;
use std::fs::File;
use std::io::{Read, Sink, sink};
use std::rt::Files;
use std::str::from_utf8;

// The bytes of the longest path.
const PATH_ROOM: usize = 4096;

pub(crate) fn say(rt: &impl Print, text: &[u8]) {
    let _ = rt.write_all(text);
}

// Puts a name and its ending into path, and answers how long both are, where they fit.
fn join(name: &[u8], ending: &[u8], path: &mut [u8]) -> Option<usize>
    ensures { IfSome result (λ n. n ≤ length path.old) }
{
    let (n, m) = (name.len(), ending.len());
    if path.len() < n || path.len() - n < m {
        return None;
    }
    copy(name, path, 0, n);
    copy(ending, path, n, m);
    Some(n + m)
}

// The file, where it can be opened. A path is text: there is no file at other bytes.
pub(crate) fn open<R: Files>(rt: &R, name: &[u8], ending: &str) -> Option<R::File> {
    let mut path = [0u8; PATH_ROOM];
    let n = join(name, ending.as_bytes(), &mut path)?;
    let text = from_utf8(&path[..n]).ok()?;
    File::open(rt, text).ok()
}

// Two files of a name, to read and to compare with. The name is said, and so is which of them is
// missing.
pub(crate) fn open_both<R: Files + Print>(
    rt: &R,
    name: &[u8],
    one: &str,
    other: &str,
) -> Option<Streams<R::File, R::File, Sink>> {
    let first = open(rt, name, one);
    let second = open(rt, name, other);
    say(rt, name);
    let Some(input) = first else {
        let _ = println!(rt; "{one}: missing");
        return None;
    };
    let Some(expected) = second else {
        let _ = println!(rt; "{other}: missing");
        return None;
    };
    Some(Streams {
        input,
        expected,
        output: sink(),
    })
}

// Reads are counted, since nothing says that a file ends: they are enough for 2^47 bytes.
fn sum_open<F: Read>(from: &mut F, sum: u32) -> u32 {
    let mut all = sum;
    let mut buf = large_buffer();
    for _ in 0..u32::MAX {
        let n = read_full(from, &mut buf);
        if n == 0 {
            break;
        }
        all = sum_of(&buf[..n], all);
    }
    all
}

// The sum of a file, begun at `sum`; that of a file that is missing leaves it as it is.
fn sum_file<R: Files>(rt: &R, name: &[u8], ending: &str, sum: u32) -> u32 {
    match open(rt, name, ending) {
        None => sum,
        Some(mut from) => sum_open(&mut from, sum),
    }
}

// Says the sum of the files of a name, one after another, in eight hexadecimal digits.
pub(crate) fn say_sum<R: Files + Print>(rt: &R, name: &[u8], endings: &[&str]) {
    let mut sum = 0;
    for ending in endings {
        sum = sum_file(rt, name, ending, sum);
    }
    let _ = println!(rt; ", sum {sum:08x}");
}
