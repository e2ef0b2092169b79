//! Handlers, and a whole text.

ghost use Rattle.std.specs.Prelude.{◌≡◌, map};
ghost use Rattle.nf_tokens.specs.Tokens.{start};
ghost use Rattle.nf_tree.specs.View.{handler_of, tree_of};
ghost use Rattle.nf_syntax.specs.Language.{last_place};
ghost use Rattle.nf_syntax.specs.Machine.{handler_at, text_head_at, no_handlers_yet};
ghost use Rattle.nf_syntax.specs.Reads.{Reads, ReadsFamily, Answers};

use crate::block::block;
use crate::declaration::declarations;
use crate::fault::{TokenFault, stuck};
use crate::head::TextHead;
use crate::single::{name_before, number, number_before, sign};
use nf_base::packet::Family;
use nf_base::seq::Seq;
use nf_tokens::{Place, Placed, Sign, Token};
use nf_tree::{HandlerTree, Tree};
use std::alloc::Global;

/// How many blocks may be open.
const DEEPEST: u32 = 64;

/// The family of a handler, behind its port: IPv6 where `six` is written.
fn family(tokens: &[Placed]) -> (Family, &[Placed])
    ensures { ReadsFamily result.0 result.1.now tokens.now }
{
    match tokens {
        [first, rest @ ..] => match &first.token {
            Token::Sign(Sign::Six) => (Family::Six, rest),
            _ => (Family::Four, tokens),
        },
        [] => (Family::Four, tokens),
    }
}

/// A handler behind its word, which stands at `place`.
fn handler(
    alloc: Global,
    place: Place,
    tokens: &[Placed],
) -> Result<(HandlerTree, &[Placed]), TokenFault>
    ensures { Reads (λ k. handler_at place k) (λ x. handler_of x.0) (λ x. x.1.now) result tokens.now }
{
    let (port, rest) = number(tokens)?;
    let (family, rest) = family(rest);
    let (block, rest) = block(alloc, rest, DEEPEST)?;
    let handler = HandlerTree {
        place,
        port,
        family,
        block: Box::into_inner(block),
    };
    Ok((handler, rest))
}

/// The handlers up to the `}` of the text.
fn handlers(alloc: Global, tokens: &[Placed]) -> Result<(Seq<HandlerTree>, &[Placed]), TokenFault>
    ensures { Reads no_handlers_yet (λ x. map handler_of x.0) (λ x. x.1.now) result tokens.now }
{
    let mut all = Seq::new(alloc);
    let mut rest = tokens;
    'handlers: while let [first, after @ ..] = rest {
        match &first.token {
            Token::Sign(Sign::On) => {
                let (another, behind) = handler(alloc, first.place, after)?;
                all.push(another)?;
                rest = behind;
            }
            Token::Sign(Sign::CloseBrace) => return Ok((all, after)),
            _ => return Err(stuck(first)),
        }
    }
    Err(TokenFault::Short)
}

/// The name and the ports of a function.
fn text_head(alloc: Global, tokens: &[Placed]) -> Result<(TextHead, &[Placed]), TokenFault>
    ensures { Reads text_head_at (λ x. x.0) (λ x. x.1.now) result tokens.now }
{
    let rest = sign(tokens, Sign::Nf)?;
    let (name, rest) = name_before(alloc, rest, Sign::OpenBrace)?;
    let rest = sign(rest, Sign::Ports)?;
    let (ports, rest) = number_before(rest, Sign::Semicolon)?;
    Ok((TextHead { name, ports }, rest))
}

/// Where the last token stands.
fn last_place(tokens: &[Placed]) -> Place
    ensures { result ≡ last_place start tokens.now }
{
    let mut place = Place { line: 1, column: 1 };
    for token in tokens {
        place = token.place;
    }
    place
}

/// The tree that all the tokens spell.
pub fn whole(alloc: Global, tokens: &[Placed]) -> Result<Tree, TokenFault>
    ensures exact { Answers tree_of result tokens.now }
{
    let (head, rest) = text_head(alloc, tokens)?;
    let (declarations, rest) = declarations(alloc, rest)?;
    let (handlers, rest) = handlers(alloc, rest)?;
    let TextHead { name, ports } = head;
    let tree = Tree {
        name,
        ports,
        declarations,
        handlers,
        end: last_place(tokens),
    };
    match rest {
        [] => Ok(tree),
        [first, ..] => Err(stuck(first)),
    }
}
