//! Statements that hold no block, and actions.

ghost use Rattle.std.specs.Prelude.{◌≡◌};
ghost use Rattle.nf_tree.specs.View.{expression_of};
ghost use Rattle.nf_syntax.specs.Machine.{WrittenAt, assigned_at, end_at, touch_at, free_at, set_at, write_at, store_at, forward_at, flood_at, discard_at};
ghost use Rattle.nf_syntax.specs.Reads.{Reads, Passes};
ghost use Rattle.nf_syntax.specs.Statements.{statement_of};

use crate::expression::{index, value};
use crate::fault::{TokenFault, stuck};
use crate::head::SetHead;
use crate::single::{field, name, name_before, sign};
use crate::statement::Statement;
use nf_tokens::{Place, Placed, Sign, Token};
use nf_tree::{Ending, Expr, Name, Operation};
use std::alloc::Global;

/// A `=`, a value and the `;` behind it.
fn assigned(alloc: Global, tokens: &[Placed]) -> Result<(Expr, &[Placed]), TokenFault>
    ensures { Reads assigned_at (λ x. expression_of x.0) (λ x. x.1.now) result tokens.now }
{
    let rest = sign(tokens, Sign::Assign)?;
    let (value, rest) = value(alloc, rest)?;
    match sign(rest, Sign::Semicolon) {
        Ok(rest) => Ok((value, rest)),
        Err(stop) => {
            // By a call, as in `expression`.
            drop(value);
            Err(stop)
        }
    }
}

/// The `;` of an action and the `}` behind it: an action ends its block.
fn end(tokens: &[Placed]) -> Result<&[Placed], TokenFault>
    ensures { Passes end_at (λ x. x.now) result tokens.now }
{
    let rest = sign(tokens, Sign::Semicolon)?;
    sign(rest, Sign::CloseBrace)
}

/// A `touch`.
pub fn touch(alloc: Global, tokens: &[Placed]) -> Result<(Statement, &[Placed]), TokenFault>
    ensures { Reads (λ k. touch_at k) (λ x. statement_of x.0) (λ x. x.1.now) result tokens.now }
{
    let (variable, rest) = name_before(alloc, tokens, Sign::Semicolon)?;
    Ok((Statement::Does(Operation::Touch { variable }), rest))
}

/// A `free`, whose word stands at `place`.
pub fn free(
    alloc: Global,
    place: Place,
    tokens: &[Placed],
) -> Result<(Statement, &[Placed]), TokenFault>
    ensures { Reads (λ k. free_at place k)
        (λ x. statement_of x.0) (λ x. x.1.now) result tokens.now }
{
    let (variable, rest) = name_before(alloc, tokens, Sign::Semicolon)?;
    Ok((Statement::Does(Operation::Free { place, variable }), rest))
}

/// A `set`.
pub fn set(alloc: Global, tokens: &[Placed]) -> Result<(Statement, &[Placed]), TokenFault>
    ensures { Reads (λ k. set_at k) (λ x. statement_of x.0) (λ x. x.1.now) result tokens.now }
{
    let (head, rest) = field(tokens)?;
    let (value, rest) = assigned(alloc, rest)?;
    let SetHead { field, place } = head;
    let operation = Operation::Set {
        field,
        place,
        value,
    };
    Ok((Statement::Does(operation), rest))
}

/// A written column, from what stands behind the variable's `.`.
fn write(
    alloc: Global,
    variable: Name,
    tokens: &[Placed],
) -> Result<(Statement, &[Placed]), TokenFault>
    ensures { Reads (λ k. write_at variable k)
        (λ x. statement_of x.0) (λ x. x.1.now) result tokens.now }
{
    let (column, rest) = name(alloc, tokens)?;
    let (value, rest) = assigned(alloc, rest)?;
    let operation = Operation::Write {
        variable,
        column,
        value,
    };
    Ok((Statement::Does(operation), rest))
}

/// A written cell, from what stands behind the array's `[`.
fn store(
    alloc: Global,
    array: Name,
    tokens: &[Placed],
) -> Result<(Statement, &[Placed]), TokenFault>
    ensures { Reads (λ k. store_at array k)
        (λ x. statement_of x.0) (λ x. x.1.now) result tokens.now }
{
    let (index, rest) = index(alloc, tokens)?;
    let (value, rest) = match assigned(alloc, rest) {
        Ok(read) => read,
        Err(stop) => {
            // By a call, as in `expression`.
            drop(index);
            return Err(stop);
        }
    };
    let operation = Operation::Store {
        array,
        index,
        value,
    };
    Ok((Statement::Does(operation), rest))
}

/// A written column or cell, from what stands behind its first name.
pub fn written(
    alloc: Global,
    first_name: Name,
    tokens: &[Placed],
) -> Result<(Statement, &[Placed]), TokenFault>
    ensures { Reads (λ k. WrittenAt first_name k)
        (λ x. statement_of x.0) (λ x. x.1.now) result tokens.now }
{
    match tokens {
        [] => Err(TokenFault::Short),
        [first, rest @ ..] => match &first.token {
            Token::Sign(Sign::Dot) => write(alloc, first_name, rest),
            Token::Sign(Sign::OpenBracket) => store(alloc, first_name, rest),
            _ => Err(stuck(first)),
        },
    }
}

/// A `forward`, and the end of its block.
#[tactic(auto, unfolding(crate::specs::Machine::forward_at))]
pub fn forward(alloc: Global, tokens: &[Placed]) -> Result<(Statement, &[Placed]), TokenFault>
    ensures { Reads (λ k. forward_at k) (λ x. statement_of x.0) (λ x. x.1.now) result tokens.now }
{
    let (port, rest) = value(alloc, tokens)?;
    match end(rest) {
        Ok(rest) => Ok((Statement::Ends(Ending::Forward(port)), rest)),
        Err(stop) => {
            // By a call, as in `expression`.
            drop(port);
            Err(stop)
        }
    }
}

/// A `flood`, and the end of its block.
pub fn flood(tokens: &[Placed]) -> Result<(Statement, &[Placed]), TokenFault>
    ensures { Reads (λ k. flood_at k) (λ x. statement_of x.0) (λ x. x.1.now) result tokens.now }
{
    let rest = end(tokens)?;
    Ok((Statement::Ends(Ending::Flood), rest))
}

/// A `drop`, and the end of its block.
pub fn discard(tokens: &[Placed]) -> Result<(Statement, &[Placed]), TokenFault>
    ensures { Reads (λ k. discard_at k) (λ x. statement_of x.0) (λ x. x.1.now) result tokens.now }
{
    let rest = end(tokens)?;
    Ok((Statement::Ends(Ending::Discard), rest))
}
