//! One token.

ghost use Rattle.std.specs.Prelude.{◌≡◌, IfOk};
ghost use Rattle.nf_syntax.specs.Items.{class_of, Plain, named};
ghost use Rattle.nf_syntax.specs.Machine.{NameAt, NumberAt, FieldAt, SignAt, CloseAt, ComparisonAt, name_before_at, number_before_at};
ghost use Rattle.nf_syntax.specs.Reads.{Reads, Passes, PassesComma, PassesFactor, PassesTerm};

use crate::fault::{TokenFault, stuck};
use crate::head::SetHead;
use nf_base::expr::Comparison;
use nf_base::seq::Seq;
use nf_tokens::{Place, Placed, Sign, Token};
use nf_tree::{Literal, Name, ProductOperator, SumOperator};
use std::alloc::{AllocError, Global};

fn copied(alloc: Global, name: &Seq<u8>) -> Result<Seq<u8>, AllocError>
    ensures { IfOk result (λ copy. copy ≡ name.now) }
{
    let bytes = name.as_slice().to_vec(alloc)?;
    Ok(Seq::from_vec(bytes))
}

/// A name of these bytes at this place.
pub fn named(alloc: Global, bytes: &Seq<u8>, place: Place) -> Result<Name, AllocError>
    ensures { IfOk result (λ name. name ≡ named bytes.now place) }
{
    let bytes = copied(alloc, bytes)?;
    Ok(Name { bytes, place })
}

pub fn name(alloc: Global, tokens: &[Placed]) -> Result<(Name, &[Placed]), TokenFault>
    ensures { Reads NameAt (λ x. x.0) (λ x. x.1.now) result tokens.now }
{
    match tokens {
        [] => Err(TokenFault::Short),
        [first, rest @ ..] => match &first.token {
            Token::Name(found) => {
                let name = named(alloc, found, first.place)?;
                Ok((name, rest))
            }
            _ => Err(stuck(first)),
        },
    }
}

pub fn number(tokens: &[Placed]) -> Result<(Literal, &[Placed]), TokenFault>
    ensures { Reads NumberAt (λ x. x.0) (λ x. x.1.now) result tokens.now }
{
    match tokens {
        [] => Err(TokenFault::Short),
        [first, rest @ ..] => match &first.token {
            Token::Number(found) => {
                let number = Literal {
                    value: *found,
                    place: first.place,
                };
                Ok((number, rest))
            }
            _ => Err(stuck(first)),
        },
    }
}

/// A field that is written.
pub fn field(tokens: &[Placed]) -> Result<(SetHead, &[Placed]), TokenFault>
    ensures { Reads FieldAt (λ x. x.0) (λ x. x.1.now) result tokens.now }
{
    match tokens {
        [] => Err(TokenFault::Short),
        [first, rest @ ..] => match &first.token {
            Token::Field(found) => {
                let field = SetHead {
                    field: *found,
                    place: first.place,
                };
                Ok((field, rest))
            }
            _ => Err(stuck(first)),
        },
    }
}

/// What stands behind a sign that has no place in the tree.
pub fn sign(tokens: &[Placed], wanted: Sign) -> Result<&[Placed], TokenFault>
    requires { class_of wanted ≡ Plain }
    ensures { Passes (λ k. SignAt wanted k) (λ x. x.now) result tokens.now }
{
    match tokens {
        [] => Err(TokenFault::Short),
        [first, rest @ ..] => match &first.token {
            Token::Sign(found) => {
                if found.number() == wanted.number() {
                    Ok(rest)
                } else {
                    Err(stuck(first))
                }
            }
            _ => Err(stuck(first)),
        },
    }
}

/// A name and the sign behind it.
pub fn name_before(
    alloc: Global,
    tokens: &[Placed],
    wanted: Sign,
) -> Result<(Name, &[Placed]), TokenFault>
    requires { class_of wanted ≡ Plain }
    ensures { Reads (λ k. name_before_at wanted k) (λ x. x.0) (λ x. x.1.now) result tokens.now }
{
    let (name, rest) = name(alloc, tokens)?;
    let rest = sign(rest, wanted)?;
    Ok((name, rest))
}

/// A number and the sign behind it.
pub fn number_before(tokens: &[Placed], wanted: Sign) -> Result<(Literal, &[Placed]), TokenFault>
    requires { class_of wanted ≡ Plain }
    ensures { Reads (λ k. number_before_at wanted k) (λ x. x.0) (λ x. x.1.now) result tokens.now }
{
    let (number, rest) = number(tokens)?;
    let rest = sign(rest, wanted)?;
    Ok((number, rest))
}

/// The place of a `)`.
pub fn close(tokens: &[Placed]) -> Result<(Place, &[Placed]), TokenFault>
    ensures { Reads CloseAt (λ x. x.0) (λ x. x.1.now) result tokens.now }
{
    match tokens {
        [] => Err(TokenFault::Short),
        [first, rest @ ..] => match &first.token {
            Token::Sign(Sign::CloseParenthesis) => Ok((first.place, rest)),
            _ => Err(stuck(first)),
        },
    }
}

/// How two values are compared.
pub fn comparison(tokens: &[Placed]) -> Result<(Comparison, &[Placed]), TokenFault>
    ensures { Reads ComparisonAt (λ x. x.0) (λ x. x.1.now) result tokens.now }
{
    match tokens {
        [] => Err(TokenFault::Short),
        [first, rest @ ..] => match &first.token {
            Token::Sign(Sign::Equal) => Ok((Comparison::Equal, rest)),
            Token::Sign(Sign::NotEqual) => Ok((Comparison::NotEqual, rest)),
            Token::Sign(Sign::Less) => Ok((Comparison::Less, rest)),
            Token::Sign(Sign::LessOrEqual) => Ok((Comparison::LessOrEqual, rest)),
            Token::Sign(Sign::Greater) => Ok((Comparison::Greater, rest)),
            Token::Sign(Sign::GreaterOrEqual) => Ok((Comparison::GreaterOrEqual, rest)),
            _ => Err(stuck(first)),
        },
    }
}

/// What stands behind a comma, if one stands at the front.
pub fn comma(tokens: &[Placed]) -> Option<&[Placed]>
    ensures { PassesComma (λ x. x.now) result tokens.now }
{
    match tokens {
        [first, rest @ ..] => match &first.token {
            Token::Sign(Sign::Comma) => Some(rest),
            _ => None,
        },
        [] => None,
    }
}

/// The operator of a product and what stands behind it, if one stands at the front.
pub fn factor(tokens: &[Placed]) -> Option<(ProductOperator, &[Placed])>
    ensures { PassesFactor (λ x. x.0) (λ x. x.1.now) result tokens.now }
{
    match tokens {
        [first, rest @ ..] => match &first.token {
            Token::Sign(Sign::Times) => Some((ProductOperator::Times, rest)),
            Token::Sign(Sign::Over) => Some((ProductOperator::Over, rest)),
            Token::Sign(Sign::Modulo) => Some((ProductOperator::Modulo, rest)),
            Token::Sign(Sign::And) => Some((ProductOperator::And, rest)),
            _ => None,
        },
        [] => None,
    }
}

/// The operator of a sum and what stands behind it, if one stands at the front.
pub fn term(tokens: &[Placed]) -> Option<(SumOperator, &[Placed])>
    ensures { PassesTerm (λ x. x.0) (λ x. x.1.now) result tokens.now }
{
    match tokens {
        [first, rest @ ..] => match &first.token {
            Token::Sign(Sign::Plus) => Some((SumOperator::Plus, rest)),
            Token::Sign(Sign::Minus) => Some((SumOperator::Minus, rest)),
            _ => None,
        },
        [] => None,
    }
}
