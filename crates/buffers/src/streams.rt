// Bytes from a reader to a buffer.
ghost use Rattle.std.specs.Prelude.{◌≡◌, ◌≤◌, length, take, replicate};
ghost use Rattle.std.specs.Io.KnownBytes.{Consumes};
ghost use Rattle.buffers.specs.Buffers.{large};

use std::io::Read;

// The bytes of a buffer for a loop that moves many.
pub const LARGE: usize = 65536;

// So many zeros.
pub fn large_buffer() -> [u8; LARGE]
    ensures { result ≡ replicate large 0 }
{
    [0; LARGE]
}

// One read: how many bytes it took off the reader and put to the front of room. 0 at the end of the
// input, without room, or where the read fails.
pub fn read_some<R: Read>(from: &mut R, room: &mut [u8]) -> usize
    ensures bound { result ≤ length room.old }
    ensures bytes { Consumes (R.remaining from.old) (R.remaining from.new) (take result room.new) }
{
    from.read(room).unwrap_or(0)
}

// Reads until buf is full, the input ends or a read fails. The bytes taken off the reader stand at the
// front of buf, in their order, and it answers how many they are.
pub fn read_full<R: Read>(from: &mut R, buf: &mut [u8]) -> usize
    ensures bound { result ≤ length buf.old }
    ensures bytes { Consumes (R.remaining from.old) (R.remaining from.new) (take result buf.new) }
{
    let mut done = 0;
    while done < buf.len() {
        let n = read_some(from, &mut buf[done..]);
        if n == 0 {
            return done;
        }
        done += n;
    }
    done
}
