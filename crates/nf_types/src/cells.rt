//! How many cells of arrays values read.

ghost use Rattle.std.specs.Prelude.{◌≡◌, ◌+◌, ◌<◌, ◌^◌, MatchOption, map};
ghost use Rattle.nf_tree.specs.View as syntax;
ghost use Rattle.nf_types.specs.Expressions.{cells};
ghost use Rattle.nf_types.specs.Statements.{key_cells, given_cells};

use nf_tree::{Expr as Value, Given};

/// What is left of so many places behind a value, where it has no more.
pub fn value_left(room: u32, value: &Value) -> Option<u32>
    ensures { MatchOption result (room < cells (syntax.expression_of value.now))
        (λ left. left + cells (syntax.expression_of value.now) ≡ room) }
{
    match value {
        Value::Number(_) => Some(room),
        Value::Field { .. } => Some(room),
        Value::Column { .. } => Some(room),
        Value::Index { .. } => Some(room),
        Value::Cell { index, .. } => value_left(room.checked_sub(1)?, index),
        Value::Group { inner, .. } => value_left(room, inner),
        Value::Sum { left, right, .. } => value_left(value_left(room, left)?, right),
        Value::Product { left, right, .. } => value_left(value_left(room, left)?, right),
    }
}

/// The same, behind a key.
pub fn key_left(room: u32, key: &[Value]) -> Option<u32>
    ensures { MatchOption result (room < key_cells (map syntax.expression_of key.now))
        (λ left. left + key_cells (map syntax.expression_of key.now) ≡ room) }
{
    let mut left = room;
    for one in key {
        left = value_left(left, one)?;
    }
    Some(left)
}

/// The same, behind what a `new` or a `where` gives.
pub fn given_left(room: u32, given: &[Given]) -> Option<u32>
    ensures { MatchOption result (room < given_cells (map syntax.given_of given.now))
        (λ left. left + given_cells (map syntax.given_of given.now) ≡ room) }
{
    let mut left = room;
    for one in given {
        left = value_left(left, &one.value)?;
    }
    Some(left)
}

/// How many cells a value reads.
pub fn cells(value: &Value) -> u32
    requires { cells (syntax.expression_of value.now) < 2 ^ 32 }
    ensures { result ≡ cells (syntax.expression_of value.now) }
{
    match value_left(u32::MAX, value) {
        Some(left) => u32::MAX - left,
        None => unreachable!(),
    }
}
