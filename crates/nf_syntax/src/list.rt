//! Several of one kind with commas between them.

ghost use Rattle.std.specs.Prelude.{◌≡◌, map};
ghost use Rattle.nf_tree.specs.View.{expression_of, given_of, guards_of};
ghost use Rattle.nf_syntax.specs.Machine.{GivenAt, WhereAt, ContentsAt, one_given_at, one_label_at, values_at, some_given_at, labels_at, numbers_at, contents_at, guards_at};
ghost use Rattle.nf_syntax.specs.Reads.{Reads, ReadsOn};

use crate::expression::value;
use crate::fault::{TokenFault, stuck};
use crate::single::{close, comma, name_before, number, sign};
use nf_base::seq::Seq;
use nf_tokens::{Placed, Sign, Token};
use nf_tree::{Expr, Given, Guards, Label, Literal};
use std::alloc::Global;

/// The values of a key.
pub fn key(alloc: Global, tokens: &[Placed]) -> Result<(Seq<Expr>, &[Placed]), TokenFault>
    ensures { Reads values_at (λ x. map expression_of x.0) (λ x. x.1.now) result tokens.now }
{
    let mut all = Seq::new(alloc);
    let (first, mut rest) = value(alloc, tokens)?;
    all.push(first)?;
    'more: while let Some(after) = comma(rest) {
        let (another, behind) = value(alloc, after)?;
        all.push(another)?;
        rest = behind;
    }
    Ok((all, rest))
}

/// A value behind its name.
fn one_given(alloc: Global, tokens: &[Placed]) -> Result<(Given, &[Placed]), TokenFault>
    ensures { Reads one_given_at (λ x. given_of x.0) (λ x. x.1.now) result tokens.now }
{
    let (name, rest) = name_before(alloc, tokens, Sign::Assign)?;
    let (value, rest) = value(alloc, rest)?;
    Ok((Given { name, value }, rest))
}

/// Values behind their names, one at least.
fn some_given(alloc: Global, tokens: &[Placed]) -> Result<(Seq<Given>, &[Placed]), TokenFault>
    ensures { Reads some_given_at (λ x. map given_of x.0) (λ x. x.1.now) result tokens.now }
{
    let mut all = Seq::new(alloc);
    let (first, mut rest) = one_given(alloc, tokens)?;
    all.push(first)?;
    'more: while let Some(after) = comma(rest) {
        let (another, behind) = one_given(alloc, after)?;
        all.push(another)?;
        rest = behind;
    }
    Ok((all, rest))
}

/// What a `new` gives its labels, maybe nothing.
pub fn given(alloc: Global, tokens: &[Placed]) -> Result<(Seq<Given>, &[Placed]), TokenFault>
    ensures { ReadsOn GivenAt (λ x. map given_of x.0) (λ x. x.1.now) result tokens.now }
{
    match tokens {
        [first, ..] => match &first.token {
            Token::Name(_) => some_given(alloc, tokens),
            _ => Ok((Seq::new(alloc), tokens)),
        },
        [] => Ok((Seq::new(alloc), tokens)),
    }
}

/// The guards behind a `where`.
fn some_guards(alloc: Global, tokens: &[Placed]) -> Result<(Guards, &[Placed]), TokenFault>
    ensures { Reads guards_at (λ x. guards_of x.0) (λ x. x.1.now) result tokens.now }
{
    let rest = sign(tokens, Sign::OpenParenthesis)?;
    let (given, rest) = some_given(alloc, rest)?;
    let (close, rest) = close(rest)?;
    Ok((Guards::Where { given, close }, rest))
}

/// The guards of a `find`, where a `where` is written.
pub fn guards(alloc: Global, tokens: &[Placed]) -> Result<(Guards, &[Placed]), TokenFault>
    ensures { ReadsOn WhereAt (λ x. guards_of x.0) (λ x. x.1.now) result tokens.now }
{
    match tokens {
        [first, rest @ ..] => match &first.token {
            Token::Sign(Sign::Where) => some_guards(alloc, rest),
            _ => Ok((Guards::Missing, tokens)),
        },
        [] => Ok((Guards::Missing, tokens)),
    }
}

/// A label with its width.
fn one_label(alloc: Global, tokens: &[Placed]) -> Result<(Label, &[Placed]), TokenFault>
    ensures { Reads one_label_at (λ x. x.0) (λ x. x.1.now) result tokens.now }
{
    let (name, rest) = name_before(alloc, tokens, Sign::Colon)?;
    let (width, rest) = number(rest)?;
    Ok((Label { name, width }, rest))
}

/// The labels of a map.
pub fn labels(alloc: Global, tokens: &[Placed]) -> Result<(Seq<Label>, &[Placed]), TokenFault>
    ensures { Reads labels_at (λ x. x.0) (λ x. x.1.now) result tokens.now }
{
    let mut all = Seq::new(alloc);
    let (first, mut rest) = one_label(alloc, tokens)?;
    all.push(first)?;
    'more: while let Some(after) = comma(rest) {
        let (another, behind) = one_label(alloc, after)?;
        all.push(another)?;
        rest = behind;
    }
    Ok((all, rest))
}

/// Numbers, one at least.
fn numbers(alloc: Global, tokens: &[Placed]) -> Result<(Seq<Literal>, &[Placed]), TokenFault>
    ensures { Reads numbers_at (λ x. x.0) (λ x. x.1.now) result tokens.now }
{
    let mut all = Seq::new(alloc);
    let (first, mut rest) = number(tokens)?;
    all.push(first)?;
    'more: while let Some(after) = comma(rest) {
        let (another, behind) = number(after)?;
        all.push(another)?;
        rest = behind;
    }
    Ok((all, rest))
}

/// The contents of an array behind their `=`, up to the `;`.
fn some_contents(alloc: Global, tokens: &[Placed]) -> Result<(Seq<Literal>, &[Placed]), TokenFault>
    ensures { Reads contents_at (λ x. x.0) (λ x. x.1.now) result tokens.now }
{
    let rest = sign(tokens, Sign::OpenBrace)?;
    let (numbers, rest) = numbers(alloc, rest)?;
    let rest = sign(rest, Sign::CloseBrace)?;
    let rest = sign(rest, Sign::Semicolon)?;
    Ok((numbers, rest))
}

/// The contents of an array, maybe none, up to the `;`.
pub fn contents(alloc: Global, tokens: &[Placed]) -> Result<(Seq<Literal>, &[Placed]), TokenFault>
    ensures { Reads ContentsAt (λ x. x.0) (λ x. x.1.now) result tokens.now }
{
    match tokens {
        [] => Err(TokenFault::Short),
        [first, rest @ ..] => match &first.token {
            Token::Sign(Sign::Assign) => some_contents(alloc, rest),
            Token::Sign(Sign::Semicolon) => Ok((Seq::new(alloc), rest)),
            _ => Err(stuck(first)),
        },
    }
}
