//! Expressions: sums of products of atoms. An operand is an atom that is no parenthesis; those of an array's
//! index count in the expression round it.
//!
//! Where what stands behind an expression can't be read, a call of `drop` takes the expression: a `?` there would
//! have the proof go through each shape that it may have, at each such place anew.

ghost use Rattle.std.specs.Prelude.{◌≡◌, ◌≤◌, ◌<◌, IfOk};
ghost use Rattle.nf_tree.specs.View.{expression_of};
ghost use Rattle.nf_syntax.specs.Items.{class_of, Plain};
ghost use Rattle.nf_syntax.specs.Machine.{AtomAt, NamedAt, ColumnAt, SignAt, product_at, sum_at, group_at, cell_at, value_at, index_at};
ghost use Rattle.nf_syntax.specs.Reads.{Reads, Counts};

use crate::fault::{TokenFault, stuck};
use crate::single::{close, factor, named, sign, term};
use nf_tokens::{Placed, Sign, Token};
use nf_tree::{Expr, Literal, Name};
use std::alloc::{AllocError, Global};

/// How many signs `(` and `[` may be open in an expression.
const DEEPEST: u32 = 32;

/// How many operands an expression may have.
const MOST: u32 = 64;

/// An expression, and how many operands stand up to its end.
#[derive(Drop)]
struct Counted {
    pub tree: Expr,
    pub operands: u32,
}

/// Two operands in boxes.
fn two(alloc: Global, left: Expr, right: Expr) -> Result<(Box<Expr>, Box<Expr>), AllocError>
    ensures left { IfOk result (λ x. x.0.value ≡ left) }
    ensures right { IfOk result (λ x. x.1.value ≡ right) }
{
    let left = Box::new(alloc, left)?;
    let right = Box::new(alloc, right)?;
    Ok((left, right))
}

/// What stands behind the `.` of a variable.
fn column(
    alloc: Global,
    variable: Name,
    tokens: &[Placed],
    before: u32,
) -> Result<(Counted, &[Placed]), TokenFault>
    requires { before < 64 }
    ensures reads { Reads (λ k. ColumnAt variable k) (λ x. expression_of x.0.tree) (λ x. x.1.now) result tokens.now }
    ensures counts { IfOk result (λ x. Counts before (expression_of x.0.tree) x.0.operands) }
{
    let operands = before + 1;
    match tokens {
        [] => Err(TokenFault::Short),
        [first, rest @ ..] => match &first.token {
            Token::Name(found) => {
                let column = named(alloc, found, first.place)?;
                let tree = Expr::Column { variable, column };
                Ok((Counted { tree, operands }, rest))
            }
            Token::Sign(Sign::Index) => {
                let tree = Expr::Index { variable };
                Ok((Counted { tree, operands }, rest))
            }
            _ => Err(stuck(first)),
        },
    }
}

/// What stands behind the `[` of an array.
#[cycle(expressions)]
fn cell(
    alloc: Global,
    array: Name,
    tokens: &[Placed],
    room: u32,
    before: u32,
) -> Result<(Counted, &[Placed]), TokenFault>
    requires room { 1 ≤ room }
    requires before { before < 64 }
    ensures reads { Reads (λ k. cell_at room before array k) (λ x. expression_of x.0.tree) (λ x. x.1.now) result tokens.now }
    ensures counts { IfOk result (λ x. Counts before (expression_of x.0.tree) x.0.operands) }
{
    let (index, rest) = sum(alloc, tokens, room - 1, before + 1)?;
    let rest = match sign(rest, Sign::CloseBracket) {
        Ok(rest) => rest,
        Err(stop) => {
            drop(index);
            return Err(stop);
        }
    };
    let Counted { tree, operands } = index;
    let tree = Expr::Cell {
        array,
        index: Box::new(alloc, tree)?,
    };
    Ok((Counted { tree, operands }, rest))
}

/// What stands behind a `(`.
#[cycle(expressions)]
fn group(
    alloc: Global,
    tokens: &[Placed],
    room: u32,
    before: u32,
) -> Result<(Counted, &[Placed]), TokenFault>
    requires room { 1 ≤ room }
    requires before { before ≤ 64 }
    ensures reads { Reads (λ k. group_at room before k) (λ x. expression_of x.0.tree) (λ x. x.1.now) result tokens.now }
    ensures counts { IfOk result (λ x. Counts before (expression_of x.0.tree) x.0.operands) }
{
    let (inner, rest) = sum(alloc, tokens, room - 1, before)?;
    let (close, rest) = match close(rest) {
        Ok(read) => read,
        Err(stop) => {
            drop(inner);
            return Err(stop);
        }
    };
    let Counted { tree, operands } = inner;
    let tree = Expr::Group {
        inner: Box::new(alloc, tree)?,
        close,
    };
    Ok((Counted { tree, operands }, rest))
}

/// What stands behind the name of a variable or an array.
#[cycle(expressions)]
fn behind_name(
    alloc: Global,
    name: Name,
    tokens: &[Placed],
    room: u32,
    before: u32,
) -> Result<(Counted, &[Placed]), TokenFault>
    requires { before < 64 }
    ensures reads { Reads (λ k. NamedAt room before name k) (λ x. expression_of x.0.tree) (λ x. x.1.now) result tokens.now }
    ensures counts { IfOk result (λ x. Counts before (expression_of x.0.tree) x.0.operands) }
{
    match tokens {
        [] => Err(TokenFault::Short),
        [first, rest @ ..] => match &first.token {
            Token::Sign(Sign::Dot) => column(alloc, name, rest, before),
            Token::Sign(Sign::OpenBracket) => {
                if room == 0 {
                    return Err(TokenFault::Past(first.place));
                }
                cell(alloc, name, rest, room, before)
            }
            _ => Err(stuck(first)),
        },
    }
}

/// An operand, at whose first token a limit may be passed.
#[cycle(expressions)]
fn atom(
    alloc: Global,
    tokens: &[Placed],
    room: u32,
    before: u32,
) -> Result<(Counted, &[Placed]), TokenFault>
    requires { before ≤ 64 }
    ensures reads { Reads (λ k. AtomAt room before k) (λ x. expression_of x.0.tree) (λ x. x.1.now) result tokens.now }
    ensures counts { IfOk result (λ x. Counts before (expression_of x.0.tree) x.0.operands) }
{
    match tokens {
        [] => Err(TokenFault::Short),
        [first, rest @ ..] => match &first.token {
            Token::Number(found) => {
                if before >= MOST {
                    return Err(TokenFault::Past(first.place));
                }
                let tree = Expr::Number(Literal {
                    value: *found,
                    place: first.place,
                });
                let operands = before + 1;
                Ok((Counted { tree, operands }, rest))
            }
            Token::Field(found) => {
                if before >= MOST {
                    return Err(TokenFault::Past(first.place));
                }
                let tree = Expr::Field {
                    field: *found,
                    place: first.place,
                };
                let operands = before + 1;
                Ok((Counted { tree, operands }, rest))
            }
            Token::Name(found) => {
                if before >= MOST {
                    return Err(TokenFault::Past(first.place));
                }
                let name = named(alloc, found, first.place)?;
                behind_name(alloc, name, rest, room, before)
            }
            Token::Sign(Sign::OpenParenthesis) => {
                if room == 0 {
                    return Err(TokenFault::Past(first.place));
                }
                group(alloc, rest, room, before)
            }
            _ => Err(stuck(first)),
        },
    }
}

#[cycle(expressions)]
fn product(
    alloc: Global,
    tokens: &[Placed],
    room: u32,
    before: u32,
) -> Result<(Counted, &[Placed]), TokenFault>
    requires { before ≤ 64 }
    ensures reads { Reads (λ k. product_at room before k) (λ x. expression_of x.0.tree) (λ x. x.1.now) result tokens.now }
    ensures counts { IfOk result (λ x. Counts before (expression_of x.0.tree) x.0.operands) }
{
    let (first, mut rest) = atom(alloc, tokens, room, before)?;
    let Counted {
        tree: mut left,
        mut operands,
    } = first;
    'factors: while let Some((operator, after)) = factor(rest) {
        let (right, behind) = match atom(alloc, after, room, operands) {
            Ok(read) => read,
            Err(stop) => {
                drop(left);
                return Err(stop);
            }
        };
        operands = right.operands;
        let (one, other) = two(alloc, left, right.tree)?;
        left = Expr::Product {
            operator,
            left: one,
            right: other,
        };
        rest = behind;
    }
    let tree = left;
    Ok((Counted { tree, operands }, rest))
}

#[cycle(expressions)]
fn sum(
    alloc: Global,
    tokens: &[Placed],
    room: u32,
    before: u32,
) -> Result<(Counted, &[Placed]), TokenFault>
    requires { before ≤ 64 }
    ensures reads { Reads (λ k. sum_at room before k) (λ x. expression_of x.0.tree) (λ x. x.1.now) result tokens.now }
    ensures counts { IfOk result (λ x. Counts before (expression_of x.0.tree) x.0.operands) }
{
    let (first, mut rest) = product(alloc, tokens, room, before)?;
    let Counted {
        tree: mut left,
        mut operands,
    } = first;
    'terms: while let Some((operator, after)) = term(rest) {
        let (right, behind) = match product(alloc, after, room, operands) {
            Ok(read) => read,
            Err(stop) => {
                drop(left);
                return Err(stop);
            }
        };
        operands = right.operands;
        let (one, other) = two(alloc, left, right.tree)?;
        left = Expr::Sum {
            operator,
            left: one,
            right: other,
        };
        rest = behind;
    }
    let tree = left;
    Ok((Counted { tree, operands }, rest))
}

/// An outermost expression.
pub fn value(alloc: Global, tokens: &[Placed]) -> Result<(Expr, &[Placed]), TokenFault>
    ensures { Reads value_at (λ x. expression_of x.0) (λ x. x.1.now) result tokens.now }
{
    let (all, rest) = sum(alloc, tokens, DEEPEST, 0)?;
    Ok((all.tree, rest))
}

/// An outermost expression and the sign behind it.
pub fn value_before(
    alloc: Global,
    tokens: &[Placed],
    wanted: Sign,
) -> Result<(Expr, &[Placed]), TokenFault>
    requires { class_of wanted ≡ Plain }
    ensures { Reads (λ k. value_at (λ v. SignAt wanted (k v)))
        (λ x. expression_of x.0) (λ x. x.1.now) result tokens.now }
{
    let (value, rest) = value(alloc, tokens)?;
    match sign(rest, wanted) {
        Ok(rest) => Ok((value, rest)),
        Err(stop) => {
            drop(value);
            Err(stop)
        }
    }
}

/// An outermost expression, up to the `]` behind it.
pub fn index(alloc: Global, tokens: &[Placed]) -> Result<(Expr, &[Placed]), TokenFault>
    ensures { Reads index_at (λ x. expression_of x.0) (λ x. x.1.now) result tokens.now }
{
    value_before(alloc, tokens, Sign::CloseBracket)
}
