//! What a statement says, up to its blocks. Expressions are dropped by calls, as in `expression`.

ghost use Rattle.std.specs.Prelude.{◌≡◌};
ghost use Rattle.nf_syntax.specs.Items.{class_of, Plain};
ghost use Rattle.nf_syntax.specs.Machine.{get_head_at, entry_head_at, get_at, find_at, new_at, if_at};
ghost use Rattle.nf_syntax.specs.Reads.{Reads, Begins};
ghost use Rattle.nf_syntax.specs.Statements.{statement_of};

use crate::action::{discard, flood, forward, free, set, touch, written};
use crate::expression::{index, value};
use crate::fault::{TokenFault, stuck};
use crate::head::{EntryHead, GetHead};
use crate::list::{given, guards, key};
use crate::single::{close, comparison, name_before, named};
use nf_tokens::{Place, Placed, Sign, Token};
use nf_tree::{Creation, Ending, Operation, Question};
use std::alloc::Global;

/// A statement without its blocks, or the end of a block.
#[derive(Drop)]
pub enum Statement {
    Does(Operation),
    Asks(Question),
    Makes(Creation),
    Ends(Ending),
}

/// The names and signs of a `get` up to its `(`.
fn get_head(alloc: Global, tokens: &[Placed]) -> Result<(GetHead, &[Placed]), TokenFault>
    ensures { Reads get_head_at (λ x. x.0) (λ x. x.1.now) result tokens.now }
{
    let (variable, rest) = name_before(alloc, tokens, Sign::Assign)?;
    let (chain, rest) = name_before(alloc, rest, Sign::Dot)?;
    let (map, rest) = name_before(alloc, rest, Sign::OpenParenthesis)?;
    Ok((
        GetHead {
            variable,
            chain,
            map,
        },
        rest,
    ))
}

/// The names and signs of a `find` or a `new` up to the sign that opens what follows.
fn entry_head(
    alloc: Global,
    tokens: &[Placed],
    opening: Sign,
) -> Result<(EntryHead, &[Placed]), TokenFault>
    requires { class_of opening ≡ Plain }
    ensures { Reads (λ k. entry_head_at opening k) (λ x. x.0) (λ x. x.1.now) result tokens.now }
{
    let (variable, rest) = name_before(alloc, tokens, Sign::Assign)?;
    let (chain, rest) = name_before(alloc, rest, opening)?;
    Ok((EntryHead { variable, chain }, rest))
}

/// A `get`, whose word stands at `place`.
#[tactic(auto, unfolding(crate::specs::Machine::get_at))]
fn get(alloc: Global, place: Place, tokens: &[Placed]) -> Result<(Statement, &[Placed]), TokenFault>
    ensures { Reads (λ k. get_at place k) (λ x. statement_of x.0) (λ x. x.1.now) result tokens.now }
{
    let (head, rest) = get_head(alloc, tokens)?;
    let (key, rest) = key(alloc, rest)?;
    let (close, rest) = close(rest)?;
    let GetHead {
        variable,
        chain,
        map,
    } = head;
    let question = Question::Get {
        place,
        variable,
        chain,
        map,
        key,
        close,
    };
    Ok((Statement::Asks(question), rest))
}

/// A `find`, whose word stands at `place`.
#[tactic(auto, unfolding(crate::specs::Machine::find_at))]
fn find(
    alloc: Global,
    place: Place,
    tokens: &[Placed],
) -> Result<(Statement, &[Placed]), TokenFault>
    ensures { Reads (λ k. find_at place k)
        (λ x. statement_of x.0) (λ x. x.1.now) result tokens.now }
{
    let (head, rest) = entry_head(alloc, tokens, Sign::OpenBracket)?;
    let (index, rest) = index(alloc, rest)?;
    let (guards, rest) = match guards(alloc, rest) {
        Ok(read) => read,
        Err(stop) => {
            drop(index);
            return Err(stop);
        }
    };
    let EntryHead { variable, chain } = head;
    let question = Question::Find {
        place,
        variable,
        chain,
        index,
        guards,
    };
    Ok((Statement::Asks(question), rest))
}

/// An `if`.
#[tactic(auto, unfolding(crate::specs::Machine::if_at))]
fn test(alloc: Global, tokens: &[Placed]) -> Result<(Statement, &[Placed]), TokenFault>
    ensures { Reads (λ k. if_at k) (λ x. statement_of x.0) (λ x. x.1.now) result tokens.now }
{
    let (left, rest) = value(alloc, tokens)?;
    let (comparison, rest) = match comparison(rest) {
        Ok(read) => read,
        Err(stop) => {
            drop(left);
            return Err(stop);
        }
    };
    let (right, rest) = match value(alloc, rest) {
        Ok(read) => read,
        Err(stop) => {
            drop(left);
            return Err(stop);
        }
    };
    let question = Question::Test {
        left,
        comparison,
        right,
    };
    Ok((Statement::Asks(question), rest))
}

/// A `new`, whose word stands at `place`.
#[tactic(auto, unfolding(crate::specs::Machine::new_at))]
fn new(alloc: Global, place: Place, tokens: &[Placed]) -> Result<(Statement, &[Placed]), TokenFault>
    ensures { Reads (λ k. new_at place k) (λ x. statement_of x.0) (λ x. x.1.now) result tokens.now }
{
    let (head, rest) = entry_head(alloc, tokens, Sign::OpenParenthesis)?;
    let (given, rest) = given(alloc, rest)?;
    let (close, rest) = close(rest)?;
    let EntryHead { variable, chain } = head;
    let creation = Creation {
        place,
        variable,
        chain,
        given,
        close,
    };
    Ok((Statement::Makes(creation), rest))
}

/// The next statement of a body, or its end with its `}`.
pub fn next_statement(
    alloc: Global,
    tokens: &[Placed],
) -> Result<(Statement, &[Placed]), TokenFault>
    ensures { Begins (λ x. statement_of x.0) (λ x. x.1.now) result tokens.now }
{
    match tokens {
        [] => Err(TokenFault::Short),
        [first, rest @ ..] => match &first.token {
            Token::Sign(Sign::Get) => get(alloc, first.place, rest),
            Token::Sign(Sign::Find) => find(alloc, first.place, rest),
            Token::Sign(Sign::New) => new(alloc, first.place, rest),
            Token::Sign(Sign::If) => test(alloc, rest),
            Token::Sign(Sign::Touch) => touch(alloc, rest),
            Token::Sign(Sign::Free) => free(alloc, first.place, rest),
            Token::Sign(Sign::Set) => set(alloc, rest),
            Token::Name(found) => {
                let name = named(alloc, found, first.place)?;
                written(alloc, name, rest)
            }
            Token::Sign(Sign::Forward) => forward(alloc, rest),
            Token::Sign(Sign::Flood) => flood(rest),
            Token::Sign(Sign::Discard) => discard(rest),
            Token::Sign(Sign::CloseBrace) => Ok((Statement::Ends(Ending::FallsOff), rest)),
            _ => Err(stuck(first)),
        },
    }
}
