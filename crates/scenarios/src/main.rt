// Replays the traces of data/ through the replica and compares every byte that it writes with what
// is expected, a line for each:
//
//     traces.list     a name to a line: NAME.trace against NAME.expect
//     packs.list      a name to a line: NAME.traces against NAME.answers. Both are a row of parts, each
//                     a length of 4 bytes, low byte first, and that many bytes: the traces, and what is
//                     expected for each
//
// A line ends with the sum of the files, with that of the script NAME.txt where there is one, so that
// what this program must write (its file `stdout`) also says from which script the bytes were made.
//
// What a trace is answered with is in `serving`. What is here opens files and says what was found.
#![tactic(auto)]

mod files;
mod list;
mod packs;

use buffers::streams::{large_buffer, read_full};
use files::{open, open_both, say, say_sum};
use list::Tally;
use packs::play_pack;
use serving::serve::serve_new;
use serving::state::{Mode, Served, Why};
use std::rt::Files;

// What became of a trace.
fn tell(rt: &impl Print, r: Served) {
    let _ = match r.why {
        Why::Ended => print!(rt; ": equal"),
        Why::Differs => print!(rt; ": differs at byte {}", r.place),
        _ => print!(rt; ": not played to its end"),
    };
}

// Whether what the replica writes for a trace is what is expected.
fn play_trace<R: Files + Print>(rt: &R, name: &[u8]) -> bool {
    let Some(mut streams) = open_both(rt, name, ".trace", ".expect") else {
        return false;
    };
    let r = serve_new(&mut streams, Mode::File);
    tell(rt, r);
    say_sum(rt, name, &[".txt", ".trace", ".expect"]);
    r.why == Why::Ended
}

// Each line of a list names a trace, or a pack.
fn play_all<R: Files + Print, P: Fn(&R, &[u8]) -> bool>(
    rt: &R,
    names: &[u8],
    play: &P,
    before: Tally,
) -> Tally
    requires { P.IsAlwaysCallable play.now }
{
    let mut tally = before;
    for line in names.split_inclusive(|byte| *byte == b'\n') {
        let name = line.strip_suffix(b"\n").unwrap_or(line);
        tally = tally.counted(play(rt, name));
    }
    tally
}

// A list of names, of one file.
fn play_list<R: Files + Print, P: Fn(&R, &[u8]) -> bool>(
    rt: &R,
    file: &[u8],
    play: &P,
    before: Tally,
) -> Tally
    requires { P.IsAlwaysCallable play.now }
{
    let mut names = large_buffer();
    let Some(mut input) = open(rt, file, ".list") else {
        say(rt, file);
        let _ = println!(rt; ".list: missing");
        return before.counted(false);
    };
    let n = read_full(&mut input, &mut names);
    play_all(rt, &names[..n], play, before)
}

fn main(rt: HostRuntime) {
    let none = Tally { all: 0, equal: 0 };
    let traces = play_list(&rt, b"traces", &play_trace, none);
    let both = play_list(&rt, b"packs", &play_pack, traces);
    let _ = println!(rt; "{} of {} equal", both.equal, both.all);
}
