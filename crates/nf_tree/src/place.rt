//! Names and numbers of a text, with where they stand.

use nf_base::seq::Seq;
use nf_tokens::Place;

/// A name, in ASCII bytes, and the place of its first byte.
#[derive(Drop)]
pub struct Name {
    pub bytes: Seq<u8>,
    pub place: Place,
}

/// A number below 2^64, and the place of its first byte.
#[derive(Clone, Copy, Debug, PartialEq, Eq)]
pub struct Literal {
    pub value: u64,
    pub place: Place,
}
