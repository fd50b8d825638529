// Parts of a slice, handed on as they lie, and single bytes.
ghost use Rattle.std.specs.Prelude.{◌≡◌, take, drop, get_or};
ghost use Rattle.trace.specs.Part.{between};

// The byte at a place: 0 past the end.
pub fn byte_at(s: &[u8], at: usize) -> u8
    ensures { result ≡ get_or s.now at 0 }
{
    s.get(at).copied().unwrap_or(0)
}

// What is left of s after n bytes: nothing where it has no more.
pub fn after(s: &[u8], n: usize) -> &[u8]
    ensures { result.now ≡ drop n s.now }
{
    s.get(n..).unwrap_or(&[])
}

// The first n bytes of s: all of it where it has no more.
pub fn first(s: &[u8], n: usize) -> &[u8]
    ensures { result.now ≡ take n s.now }
{
    s.get(..n).unwrap_or(s)
}

// The bytes of s from a up to e.
pub fn middle(s: &[u8], a: usize, e: usize) -> &[u8]
    ensures { result.now ≡ between a e s.now }
{
    first(after(s, a), e.saturating_sub(a))
}
