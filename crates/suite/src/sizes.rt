// The numbers of a suite, and which way a message goes.

// The longest piece that is sealed.
pub const LONGEST_PIECE: usize = 2312;

// The five numbers of a suite: how many octets stand before a sealed piece, after it, after a message (its code), how
// many a key has, and the highest counter.
#[derive(Clone, Copy, Debug)]
pub struct Sizes {
    pub head: usize,
    pub tail: usize,
    pub code: usize,
    pub key: usize,
    pub top: u64,
}

// Which way a message goes: a suite may use another part of its key for each.
#[derive(Clone, Copy, PartialEq, Eq, Debug)]
pub enum Direction {
    FromBase,
    FromLogger,
}
