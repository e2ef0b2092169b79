//! The lines of a certificate behind its first.
use nf_base::hash_key::HashKey;
use nf_base::seq::Seq;

/// What a sum adds up: a listed row, by number, or a fixed bit, by number. Bit `i` of the key of
/// port `p` has the number `319 * p + i`.
#[derive(Clone, Copy, Debug, PartialEq, Eq)]
pub enum Term {
    Row(u32),
    Bit(u32),
}

/// Which of two inputs a bit is of.
#[derive(Clone, Copy, Debug, PartialEq, Eq)]
pub enum Side {
    First,
    Second,
}

/// A row of two sites: of the class of a bit of one of their inputs, and of a bit of the hash.
#[derive(Clone, Copy, Debug, PartialEq, Eq)]
pub struct Named {
    /// Two sites, by number.
    pub first: u32,
    pub second: u32,
    pub side: Side,
    /// A bit of that side's input: bit 0 is the highest one of its first byte.
    pub input: u32,
    /// A bit of the hash, 0 the highest of 32.
    pub result: u32,
}

/// Bits that follow one another, of which one is to be 1.
#[derive(Clone, Copy, Debug, PartialEq, Eq)]
pub struct Span {
    pub first: u32,
    pub count: u32,
}

/// A line of a certificate.
#[derive(Drop)]
pub enum Line {
    /// A row is listed.
    Row(Named),
    /// The key of a port.
    Key { port: u32, key: HashKey },
    /// A tree follows, for the bit of this number, which isn't the default key's.
    Not(u32),
    /// Two trees follow: for the bit of this number 0, then 1.
    Split(u32),
    /// One sum follows, which shows that 0 is 1.
    Clash,
    /// The sums of the bits of this span follow, each of which is 0.
    Zero(Span),
    Sum(Seq<Term>),
}
