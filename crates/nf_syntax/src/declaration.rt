//! Chains and arrays.

ghost use Rattle.std.specs.Prelude.{◌≡◌};
ghost use Rattle.nf_syntax.specs.Machine.{closed_at, map_at, column_at, chain_head_at, chain_at, array_head_at, array_at, no_parts_yet, no_declarations_yet};
ghost use Rattle.nf_syntax.specs.Reads.{Reads, ReadsOn};

use crate::fault::{TokenFault, stuck};
use crate::head::{ArrayHead, ChainHead};
use crate::list::{contents, labels};
use crate::single::{close, name, name_before, number, number_before, sign};
use nf_base::seq::Seq;
use nf_tokens::{Place, Placed, Sign, Token};
use nf_tree::{ArrayTree, ChainTree, ColumnKind, ColumnTree, Declaration, MapTree, Part};
use std::alloc::Global;

/// The `)` of a map's labels, with a `;` behind it.
fn closed(tokens: &[Placed]) -> Result<(Place, &[Placed]), TokenFault>
    ensures { Reads closed_at (λ x. x.0) (λ x. x.1.now) result tokens.now }
{
    let (close, rest) = close(tokens)?;
    let rest = sign(rest, Sign::Semicolon)?;
    Ok((close, rest))
}

/// A map behind its word, which stands at `place`.
fn map(alloc: Global, place: Place, tokens: &[Placed]) -> Result<(MapTree, &[Placed]), TokenFault>
    ensures { Reads (λ k. map_at place k) (λ x. x.0) (λ x. x.1.now) result tokens.now }
{
    let (name, rest) = name_before(alloc, tokens, Sign::OpenParenthesis)?;
    let (labels, rest) = labels(alloc, rest)?;
    let (close, rest) = closed(rest)?;
    let map = MapTree {
        place,
        name,
        labels,
        close,
    };
    Ok((map, rest))
}

/// A column behind its word, which stands at `place`.
fn column(
    alloc: Global,
    kind: ColumnKind,
    place: Place,
    tokens: &[Placed],
) -> Result<(ColumnTree, &[Placed]), TokenFault>
    ensures { Reads (λ k. column_at kind place k) (λ x. x.0) (λ x. x.1.now) result tokens.now }
{
    let (name, rest) = name_before(alloc, tokens, Sign::Colon)?;
    let (width, rest) = number_before(rest, Sign::Semicolon)?;
    let column = ColumnTree {
        kind,
        place,
        name,
        width,
    };
    Ok((column, rest))
}

/// The maps and columns of a chain, up to its `}`.
fn parts(alloc: Global, tokens: &[Placed]) -> Result<(Seq<Part>, &[Placed]), TokenFault>
    ensures { Reads no_parts_yet (λ x. x.0) (λ x. x.1.now) result tokens.now }
{
    let mut all = Seq::new(alloc);
    let mut rest = tokens;
    'parts: while let [first, after @ ..] = rest {
        match &first.token {
            Token::Sign(Sign::Map) => {
                let (another, behind) = map(alloc, first.place, after)?;
                all.push(Part::Map(another))?;
                rest = behind;
            }
            Token::Sign(Sign::Fixed) => {
                let (another, behind) = column(alloc, ColumnKind::Fixed, first.place, after)?;
                all.push(Part::Column(another))?;
                rest = behind;
            }
            Token::Sign(Sign::Free) => {
                let (another, behind) = column(alloc, ColumnKind::Free, first.place, after)?;
                all.push(Part::Column(another))?;
                rest = behind;
            }
            Token::Sign(Sign::CloseBrace) => return Ok((all, after)),
            _ => return Err(stuck(first)),
        }
    }
    Err(TokenFault::Short)
}

/// The name, the size and the lifetime of a chain, up to its `{`.
fn chain_head(alloc: Global, tokens: &[Placed]) -> Result<(ChainHead, &[Placed]), TokenFault>
    ensures { Reads chain_head_at (λ x. x.0) (λ x. x.1.now) result tokens.now }
{
    let (name, rest) = name(alloc, tokens)?;
    let (size, rest) = number_before(rest, Sign::Lifetime)?;
    let (lifetime, rest) = number_before(rest, Sign::OpenBrace)?;
    Ok((
        ChainHead {
            name,
            size,
            lifetime,
        },
        rest,
    ))
}

/// A chain behind its word, which stands at `place`.
fn chain(
    alloc: Global,
    place: Place,
    tokens: &[Placed],
) -> Result<(ChainTree, &[Placed]), TokenFault>
    ensures { Reads (λ k. chain_at place k) (λ x. x.0) (λ x. x.1.now) result tokens.now }
{
    let (head, rest) = chain_head(alloc, tokens)?;
    let (parts, rest) = parts(alloc, rest)?;
    let ChainHead {
        name,
        size,
        lifetime,
    } = head;
    let chain = ChainTree {
        place,
        name,
        size,
        lifetime,
        parts,
    };
    Ok((chain, rest))
}

/// The name, the size and the width of an array.
fn array_head(alloc: Global, tokens: &[Placed]) -> Result<(ArrayHead, &[Placed]), TokenFault>
    ensures { Reads array_head_at (λ x. x.0) (λ x. x.1.now) result tokens.now }
{
    let (name, rest) = name(alloc, tokens)?;
    let (size, rest) = number_before(rest, Sign::Colon)?;
    let (width, rest) = number(rest)?;
    Ok((ArrayHead { name, size, width }, rest))
}

/// An array behind its word, which stands at `place`.
fn array(
    alloc: Global,
    place: Place,
    tokens: &[Placed],
) -> Result<(ArrayTree, &[Placed]), TokenFault>
    ensures { Reads (λ k. array_at place k) (λ x. x.0) (λ x. x.1.now) result tokens.now }
{
    let (head, rest) = array_head(alloc, tokens)?;
    let (contents, rest) = contents(alloc, rest)?;
    let ArrayHead { name, size, width } = head;
    let array = ArrayTree {
        place,
        name,
        size,
        width,
        contents,
    };
    Ok((array, rest))
}

/// The chains and arrays in front of the handlers.
pub fn declarations(
    alloc: Global,
    tokens: &[Placed],
) -> Result<(Seq<Declaration>, &[Placed]), TokenFault>
    ensures { ReadsOn no_declarations_yet (λ x. x.0) (λ x. x.1.now) result tokens.now }
{
    let mut all = Seq::new(alloc);
    let mut rest = tokens;
    'declarations: while let [first, after @ ..] = rest {
        match &first.token {
            Token::Sign(Sign::Chain) => {
                let (another, behind) = chain(alloc, first.place, after)?;
                all.push(Declaration::Chain(another))?;
                rest = behind;
            }
            Token::Sign(Sign::Array) => {
                let (another, behind) = array(alloc, first.place, after)?;
                all.push(Declaration::Array(another))?;
                rest = behind;
            }
            _ => return Ok((all, rest)),
        }
    }
    Ok((all, rest))
}
