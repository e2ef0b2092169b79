//! Tests of fields and numbers, and how they are compared with one another.
ghost use Rattle.std.specs.Prelude.{◌≡◌, ◌&&◌};
ghost use Rattle.nf_laws.specs.Paths.{of_packet};
ghost use Rattle.nf_base.specs.View.{expression_of};
ghost use Rattle.path_walk.specs.Tests.{sign_of, is_exchanged};
ghost use Rattle.path_walk.specs.Feasible.{equals_of};
ghost use Rattle.path_walk.specs.Seen.{text_seen};

use nf_base::expr::{Comparison, Expr};
use nf_base::packet::Field;

/// How a test compares its sides, once brought to one of three signs.
#[derive(Clone, Copy, Debug, PartialEq, Eq)]
pub enum Sign {
    Equal,
    Less,
    AtMost,
}

/// A test as it is compared with others.
#[derive(Clone, Copy)]
pub struct Text<'a> {
    pub sign: Sign,
    pub left: &'a Expr,
    pub right: &'a Expr,
}

/// A field with the number that a test says it is.
#[derive(Clone, Copy, Debug, PartialEq, Eq)]
pub struct FieldIs {
    pub field: Field,
    pub number: u64,
}

/// Whether a value is one of fields and numbers alone.
pub fn is_of_packet(value: &Expr) -> bool
    ensures { result ≡ of_packet (expression_of value.now) }
{
    match value {
        Expr::Number(_) => true,
        Expr::Read(_) => true,
        Expr::Index { .. } => false,
        Expr::Label { .. } => false,
        Expr::Column { .. } => false,
        Expr::Cell { .. } => false,
        Expr::Both { left, right, .. } => is_of_packet(left) && is_of_packet(right),
    }
}

/// Whether the sides of a test are of fields and numbers alone.
pub fn are_of_packet(left: &Expr, right: &Expr) -> bool
    ensures { result ≡ (of_packet (expression_of left.now) && of_packet (expression_of right.now)) }
{
    is_of_packet(left) && is_of_packet(right)
}

/// The sign that a comparison is brought to.
pub fn sign_of_comparison(comparison: Comparison) -> Sign
    ensures { result ≡ sign_of comparison }
{
    match comparison {
        Comparison::Equal | Comparison::NotEqual => Sign::Equal,
        Comparison::Less | Comparison::GreaterOrEqual => Sign::Less,
        Comparison::LessOrEqual | Comparison::Greater => Sign::AtMost,
    }
}

/// Whether its outcomes are exchanged then.
pub fn exchanges(comparison: Comparison) -> bool
    ensures { result ≡ is_exchanged comparison }
{
    matches!(
        comparison,
        Comparison::NotEqual | Comparison::GreaterOrEqual | Comparison::Greater
    )
}

/// What `field == number` says, where the test is one.
pub fn equals(text: &Text<'_>) -> Option<FieldIs>
    ensures { result ≡ equals_of (text_seen text.now) }
{
    match (text.sign, text.left, text.right) {
        (Sign::Equal, Expr::Read(field), Expr::Number(number)) => Some(FieldIs {
            field: *field,
            number: *number,
        }),
        _ => None,
    }
}
