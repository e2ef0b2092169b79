//! The tokens of a test, in prefix notation: what tells texts apart.
ghost use Rattle.std.specs.Prelude.{◌≡◌, ◌∷◌, ◌++◌, [], IfOk, OnOk};
ghost use Rattle.nf_base.specs.View.{expression_of};
ghost use Rattle.path_walk.specs.Tests.{tokens, test_tokens, field_number, operator_number, sign_number};
ghost use Rattle.path_walk.specs.Seen.{text_seen};

use crate::test::{Sign, Text};
use nf_base::expr::{Expr, Operator};
use nf_base::packet::Field;
use std::alloc::{AllocError, Global};

/// The number of a field, 0 to 9.
pub fn number_of_field(field: Field) -> u64
    ensures { result ≡ field_number field }
{
    match field {
        Field::Time => 0,
        Field::Length => 1,
        Field::SrcMac => 2,
        Field::DstMac => 3,
        Field::SrcIp => 4,
        Field::DstIp => 5,
        Field::SrcIp6 => 10,
        Field::DstIp6 => 11,
        Field::Proto => 6,
        Field::Ttl => 7,
        Field::SrcPort => 8,
        Field::DstPort => 9,
    }
}

fn number_of_operator(operator: Operator) -> u64
    ensures { result ≡ operator_number operator }
{
    match operator {
        Operator::Plus => 0,
        Operator::Minus => 1,
        Operator::Times => 2,
        Operator::Over => 3,
        Operator::Modulo => 4,
        Operator::And => 5,
    }
}

fn number_of_sign(sign: Sign) -> u64
    ensures { result ≡ sign_number sign }
{
    match sign {
        Sign::Equal => 0,
        Sign::Less => 1,
        Sign::AtMost => 2,
    }
}

/// Two tokens behind others.
fn push_two(all: &mut Vec<u64>, first: u64, second: u64) -> Result<(), AllocError>
    ensures { OnOk result (all.new.items ≡ all.old.items ++ first ∷ second ∷ []) }
{
    all.push(first)?;
    all.push(second)?;
    Ok(())
}

/// Three tokens behind others.
fn push_three(all: &mut Vec<u64>, first: u64, second: u64, third: u64) -> Result<(), AllocError>
    ensures { OnOk result (all.new.items ≡ all.old.items ++ first ∷ second ∷ third ∷ []) }
{
    all.push(first)?;
    all.push(second)?;
    all.push(third)?;
    Ok(())
}

/// The tokens of a value behind others.
fn push_value(value: &Expr, all: &mut Vec<u64>) -> Result<(), AllocError>
    ensures { OnOk result (all.new.items ≡ all.old.items ++ tokens (expression_of value.now)) }
{
    match value {
        Expr::Number(n) => push_two(all, 0, *n),
        Expr::Read(field) => push_two(all, 1, number_of_field(*field)),
        Expr::Index { var } => push_two(all, 2, u64::from(*var)),
        Expr::Label { var, label } => push_three(all, 3, u64::from(*var), u64::from(*label)),
        Expr::Column { var, column } => push_three(all, 4, u64::from(*var), u64::from(*column)),
        Expr::Cell { place, array, at } => {
            push_three(all, 5, u64::from(*place), u64::from(*array))?;
            push_value(at, all)
        }
        Expr::Both {
            operator,
            left,
            right,
        } => {
            push_two(all, 6, number_of_operator(*operator))?;
            push_value(left, all)?;
            push_value(right, all)
        }
    }
}

/// The tokens of a test.
pub fn tokens_of(alloc: Global, text: &Text<'_>) -> Result<Vec<u64>, AllocError>
    ensures { IfOk result (λ all. all.items ≡ test_tokens (text_seen text.now)) }
{
    let mut all = Vec::new(alloc);
    all.push(number_of_sign(text.sign))?;
    push_value(text.left, &mut all)?;
    push_value(text.right, &mut all)?;
    Ok(all)
}
