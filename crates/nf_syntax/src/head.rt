//! The fronts of statements and declarations, as they are read.

use nf_base::packet::Field;
use nf_tokens::Place;
use nf_tree::{Literal, Name};

/// What a `get` binds, and where it looks.
#[derive(Drop)]
pub struct GetHead {
    pub variable: Name,
    pub chain: Name,
    pub map: Name,
}

/// What a `find` or a `new` binds, and in which chain.
#[derive(Drop)]
pub struct EntryHead {
    pub variable: Name,
    pub chain: Name,
}

/// The field that a `set` writes, and where it stands.
#[derive(Clone, Copy, Debug, PartialEq, Eq)]
pub struct SetHead {
    pub field: Field,
    pub place: Place,
}

/// A chain's name, size and lifetime in nanoseconds.
#[derive(Drop)]
pub struct ChainHead {
    pub name: Name,
    pub size: Literal,
    pub lifetime: Literal,
}

/// An array's name, size and width in bits.
#[derive(Drop)]
pub struct ArrayHead {
    pub name: Name,
    pub size: Literal,
    pub width: Literal,
}

/// A function's name and number of ports.
#[derive(Drop)]
pub struct TextHead {
    pub name: Name,
    pub ports: Literal,
}
