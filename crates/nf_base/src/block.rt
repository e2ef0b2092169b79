use crate::expr::{Comparison, Expr, Given, Guard};
use crate::packet::Field;
use crate::seq::Seq;

/// How a block ends.
#[derive(Drop)]
pub enum Ending {
    /// Nothing follows: what stands behind the block goes on.
    FallsOff,
    Forward(Expr),
    /// Sends to every port but the one that the packet came in at.
    Flood,
    Discard,
}

/// A statement with no block of its own. A place is a statement's number in the function's text.
#[derive(Drop)]
pub enum Operation {
    Touch {
        var: u32,
    },
    Free {
        var: u32,
    },
    /// Gives a field of the outgoing frame a value.
    Set {
        field: Field,
        given: Given,
    },
    /// Gives a column of a variable's entry a value.
    Write {
        var: u32,
        column: u32,
        given: Given,
    },
    /// Gives a cell of an array a value.
    Store {
        place: u32,
        array: u32,
        at: Expr,
        given: Given,
    },
}

/// What a statement with two blocks asks: one is for where it hits or holds, one for where it
/// doesn't.
///
/// A variable's number is how many are in scope where it is bound.
#[derive(Drop)]
pub enum Question {
    /// Looks a key up in a map of a chain.
    Get {
        place: u32,
        chain: u32,
        map: u32,
        key: Seq<Given>,
        var: u32,
    },
    /// Looks at an index of a chain, and at labels of the entry there.
    Find {
        place: u32,
        chain: u32,
        at: Expr,
        guards: Seq<Guard>,
        var: u32,
    },
    Test {
        place: u32,
        comparison: Comparison,
        left: Expr,
        right: Expr,
    },
}

/// The entry that a `new` makes: a value for each label of its chain.
#[derive(Drop)]
pub struct Creation {
    pub place: u32,
    pub chain: u32,
    pub labels: Seq<Given>,
    pub var: u32,
}

/// Statements, each with the blocks in it, and an end.
///
/// Code that goes along `next` is a loop and never a recursion, since a block may have 131,072
/// statements.
pub enum Block {
    End(Ending),
    Do {
        operation: Operation,
        next: Box<Block>,
    },
    Ask {
        question: Question,
        hit: Box<Block>,
        miss: Box<Block>,
        next: Box<Block>,
    },
    Make {
        creation: Creation,
        made: Box<Block>,
        taken: Box<Block>,
        full: Box<Block>,
        next: Box<Block>,
    },
}

impl Drop for Block {
    // A loop along the statements: a block may be as long as the text, and the stack is not.
    fn drop(mut self) {
        loop {
            match self {
                Block::End(_) => return,
                Block::Do { operation: _, next } => self = Box::into_inner(next),
                Block::Ask {
                    question: _,
                    hit: _,
                    miss: _,
                    next,
                } => self = Box::into_inner(next),
                Block::Make {
                    creation: _,
                    made: _,
                    taken: _,
                    full: _,
                    next,
                } => self = Box::into_inner(next),
            }
        }
    }
}
