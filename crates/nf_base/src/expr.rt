ghost use Rattle.std.specs.Prelude.{◌≡◌, IfOk, map};
ghost use Rattle.nf_base.specs.View.{expression_of, given_of, guard_of};

use crate::packet::Field;
use crate::seq::Seq;
use crate::width::Width;
use std::alloc::{AllocError, Global};

/// An operator between two values.
#[derive(Clone, Copy, Debug, PartialEq, Eq)]
pub enum Operator {
    Plus,
    Minus,
    Times,
    Over,
    Modulo,
    And,
}

/// How two values are compared.
#[derive(Clone, Copy, Debug, PartialEq, Eq)]
pub enum Comparison {
    Equal,
    NotEqual,
    Less,
    LessOrEqual,
    Greater,
    GreaterOrEqual,
}

/// A value of a handler's text. Variables, labels, columns and arrays go by number.
#[derive(Drop)]
pub enum Expr {
    Number(u64),
    Read(Field),
    /// The index of a variable's entry.
    Index {
        var: u32,
    },
    /// A label of a variable's entry.
    Label {
        var: u32,
        label: u32,
    },
    /// A column of a variable's entry.
    Column {
        var: u32,
        column: u32,
    },
    /// A cell of an array.
    Cell {
        /// The access's place in the function's text.
        place: u32,
        array: u32,
        at: Box<Expr>,
    },
    Both {
        operator: Operator,
        left: Box<Expr>,
        right: Box<Expr>,
    },
}

/// A value with the width of what it is given to: it is taken modulo `2 ^ width`.
#[derive(Drop)]
pub struct Given {
    pub width: Width,
    pub value: Expr,
}

/// One label of a `find`, and the value that it has to have.
#[derive(Drop)]
pub struct Guard {
    pub label: u32,
    pub given: Given,
}

impl Expr {
    pub fn copy(&self, alloc: Global) -> Result<Expr, AllocError>
        ensures { IfOk result (λ copy. expression_of copy ≡ expression_of self.now) }
    {
        match self {
            Expr::Number(n) => Ok(Expr::Number(*n)),
            Expr::Read(field) => Ok(Expr::Read(*field)),
            Expr::Index { var } => Ok(Expr::Index { var: *var }),
            Expr::Label { var, label } => Ok(Expr::Label {
                var: *var,
                label: *label,
            }),
            Expr::Column { var, column } => Ok(Expr::Column {
                var: *var,
                column: *column,
            }),
            Expr::Cell { place, array, at } => Ok(Expr::Cell {
                place: *place,
                array: *array,
                at: Box::new(alloc, at.copy(alloc)?)?,
            }),
            Expr::Both {
                operator,
                left,
                right,
            } => Ok(Expr::Both {
                operator: *operator,
                left: Box::new(alloc, left.copy(alloc)?)?,
                right: Box::new(alloc, right.copy(alloc)?)?,
            }),
        }
    }
}

impl Given {
    pub fn copy(&self, alloc: Global) -> Result<Given, AllocError>
        ensures { IfOk result (λ copy. given_of copy ≡ given_of self.now) }
    {
        Ok(Given {
            width: self.width,
            value: self.value.copy(alloc)?,
        })
    }
}

impl Guard {
    pub fn copy(&self, alloc: Global) -> Result<Guard, AllocError>
        ensures { IfOk result (λ copy. guard_of copy ≡ guard_of self.now) }
    {
        Ok(Guard {
            label: self.label,
            given: self.given.copy(alloc)?,
        })
    }
}

/// A copy of values, each with the width of what it is given to.
pub fn copied_given(alloc: Global, given: &Seq<Given>) -> Result<Seq<Given>, AllocError>
    ensures { IfOk result (λ copy. map given_of copy ≡ map given_of given.now) }
{
    let mut all = Seq::new(alloc);
    for one in given.as_slice() {
        all.push(one.copy(alloc)?)?;
    }
    Ok(all)
}

/// A copy of the labels and values that a `find` asks for.
pub fn copied_guards(alloc: Global, guards: &Seq<Guard>) -> Result<Seq<Guard>, AllocError>
    ensures { IfOk result (λ copy. map guard_of copy ≡ map guard_of guards.now) }
{
    let mut all = Seq::new(alloc);
    for one in guards.as_slice() {
        all.push(one.copy(alloc)?)?;
    }
    Ok(all)
}
