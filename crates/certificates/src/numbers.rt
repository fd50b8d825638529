// The kinds of number. A round, a stake and a place may not be mixed, so each is a type of its own.
#[repr(C)]
#[derive(Clone, Copy, Debug, PartialEq, Eq, PartialOrd, Ord)]
pub struct Round(pub u64);

// The highest round that a record may name.
pub const ROUND_MAX: u64 = 4611686018427387904;

#[derive(Clone, Copy, Debug, PartialEq, Eq, PartialOrd, Ord)]
pub struct Stake(pub u32);

#[derive(Clone, Copy, Debug, PartialEq, Eq, PartialOrd, Ord)]
pub struct Place(pub u16);

// A set of places: bit p is for place p.
#[derive(Clone, Copy, Debug, PartialEq, Eq)]
pub struct Signers(pub u64);

// A hash of 32 bytes, as four little-endian numbers.
#[repr(C)]
#[derive(Clone, Copy, Debug, Default, PartialEq, Eq)]
pub struct Hash {
    pub a: u64,
    pub b: u64,
    pub c: u64,
    pub d: u64,
}

impl Hash {
    pub const ZERO: Hash = Hash {
        a: 0,
        b: 0,
        c: 0,
        d: 0,
    };
}
