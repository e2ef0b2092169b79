//! Values, declarations and the whole text.

use crate::handler::HandlerTree;
use crate::place::{Literal, Name};
use nf_base::packet::Field;
use nf_base::seq::Seq;
use nf_tokens::Place;

/// An operator between the terms of a sum.
#[derive(Clone, Copy, Debug, PartialEq, Eq)]
pub enum SumOperator {
    Plus,
    Minus,
}

/// An operator between the factors of a product.
#[derive(Clone, Copy, Debug, PartialEq, Eq)]
pub enum ProductOperator {
    Times,
    Over,
    Modulo,
    And,
}

/// A value of a handler's text.
#[derive(Drop)]
pub enum Expr {
    Number(Literal),
    Field {
        field: Field,
        place: Place,
    },
    /// A label or a column of a variable's entry.
    Column {
        variable: Name,
        column: Name,
    },
    /// The index of a variable's entry.
    Index {
        variable: Name,
    },
    /// A cell of an array.
    Cell {
        array: Name,
        index: Box<Expr>,
    },
    /// Parentheses; `close` is where the `)` stands.
    Group {
        inner: Box<Expr>,
        close: Place,
    },
    /// Terms are grouped from the left.
    Sum {
        operator: SumOperator,
        left: Box<Expr>,
        right: Box<Expr>,
    },
    /// Factors are grouped from the left.
    Product {
        operator: ProductOperator,
        left: Box<Expr>,
        right: Box<Expr>,
    },
}

/// A value that is given to a name.
#[derive(Drop)]
pub struct Given {
    pub name: Name,
    pub value: Expr,
}

/// The values that a `find` asks of labels.
#[derive(Drop)]
pub enum Guards {
    /// No `where` is written.
    Missing,
    /// `close` is where the `)` behind the values stands.
    Where { given: Seq<Given>, close: Place },
}

/// A label of a map, with its width in bits.
#[derive(Drop)]
pub struct Label {
    pub name: Name,
    pub width: Literal,
}

/// A map of a chain, from the values of its labels to an index.
#[derive(Drop)]
pub struct MapTree {
    /// Where the word `map` stands.
    pub place: Place,
    pub name: Name,
    pub labels: Seq<Label>,
    /// Where the `)` behind the labels stands.
    pub close: Place,
}

/// Whether a column of a chain may be written.
#[derive(Clone, Copy, Debug, PartialEq, Eq)]
pub enum ColumnKind {
    /// A column that a `new` gives its value.
    Fixed,
    /// A column that is written.
    Free,
}

/// A column of a chain, with its width in bits.
#[derive(Drop)]
pub struct ColumnTree {
    pub kind: ColumnKind,
    /// Where the word `fixed` or `free` stands.
    pub place: Place,
    pub name: Name,
    pub width: Literal,
}

/// What a chain has in its braces.
#[derive(Drop)]
pub enum Part {
    Map(MapTree),
    Column(ColumnTree),
}

/// A chain of `size` indices; entries are given up by age, the lifetime in nanoseconds.
#[derive(Drop)]
pub struct ChainTree {
    /// Where the word `chain` stands.
    pub place: Place,
    pub name: Name,
    pub size: Literal,
    pub lifetime: Literal,
    pub parts: Seq<Part>,
}

/// An array of `size` cells, with their width in bits and what the first of them hold at the start.
#[derive(Drop)]
pub struct ArrayTree {
    /// Where the word `array` stands.
    pub place: Place,
    pub name: Name,
    pub size: Literal,
    pub width: Literal,
    pub contents: Seq<Literal>,
}

/// A chain or an array.
#[derive(Drop)]
pub enum Declaration {
    Chain(ChainTree),
    Array(ArrayTree),
}

/// A network function's text: its chains and arrays, then its handlers, each in text order.
#[derive(Drop)]
pub struct Tree {
    pub name: Name,
    pub ports: Literal,
    pub declarations: Seq<Declaration>,
    pub handlers: Seq<HandlerTree>,
    /// Where the last `}` stands.
    pub end: Place,
}
