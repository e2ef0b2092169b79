//! Blocks. The statements of a block are read in a loop and kept last first, each as the `next` of
//! the one behind it, and are turned round at the block's end.

ghost use Rattle.std.specs.Prelude.{◌≡◌, ◌≤◌, suc, max, IfOk};
ghost use Rattle.nf_tree.specs.Tree.{End, Missing};
ghost use Rattle.nf_tree.specs.Depth.{depth};
ghost use Rattle.nf_tree.specs.View.{block_of, question_of, creation_of};
ghost use Rattle.nf_syntax.specs.Items.{class_of, Joins};
ghost use Rattle.nf_syntax.specs.Machine.{BlockAt, BodyAt, OptionalAt};
ghost use Rattle.nf_syntax.specs.Reads.{Reads, ReadsOn, Extends};
ghost use Rattle.nf_syntax.specs.Statements.{Asks, Makes, turned};

use crate::fault::{TokenFault, stuck};
use crate::statement::{Statement, next_statement};
use nf_tokens::{Placed, Sign, Token};
use nf_tree::{Block, Creation, Ending, Question};
use std::alloc::{AllocError, Global};
use std::mem;

/// The statements of `before`, which stand last first, in their order and in front of a block.
fn turned(before: Box<Block>, block: Box<Block>) -> Box<Block>
    ensures { block_of result.value ≡ turned (block_of before.value) (block_of block.value) }
{
    let mut left = before;
    let mut done = block;
    'statements: loop {
        match &mut *left {
            Block::End(_) => return done,
            Block::Do { operation: _, next } => mem::swap(next, &mut done),
            Block::Ask {
                question: _,
                hit: _,
                miss: _,
                next,
            } => mem::swap(next, &mut done),
            Block::Make {
                creation: _,
                made: _,
                taken: _,
                full: _,
                next,
            } => mem::swap(next, &mut done),
        }
        mem::swap(&mut left, &mut done);
    }
}

/// The statements before, and a question with its two blocks. The question is dropped by a call, as expressions
/// are in `expression`.
#[cycle(blocks)]
fn ask(
    alloc: Global,
    before: Box<Block>,
    question: Question,
    tokens: &[Placed],
    room: u32,
) -> Result<(Box<Block>, &[Placed]), TokenFault>
    ensures reads { Extends room (block_of before.value) (Asks (question_of question))
        (λ x. block_of x.0.value) (λ x. x.1.now) result tokens.now }
    ensures shallow { IfOk result
        (λ x. depth (block_of x.0.value) ≤ max (depth (block_of before.value)) (suc room)) }
{
    let (hit, rest) = match block(alloc, tokens, room) {
        Ok(read) => read,
        Err(stop) => {
            drop(question);
            return Err(stop);
        }
    };
    let (miss, rest) = match optional(alloc, rest, Sign::Else, room) {
        Ok(read) => read,
        Err(stop) => {
            drop(question);
            return Err(stop);
        }
    };
    let block = Block::Ask {
        question,
        hit,
        miss,
        next: before,
    };
    Ok((Box::new(alloc, block)?, rest))
}

/// The statements before, and a `new` with its three blocks.
#[cycle(blocks)]
fn make(
    alloc: Global,
    before: Box<Block>,
    creation: Creation,
    tokens: &[Placed],
    room: u32,
) -> Result<(Box<Block>, &[Placed]), TokenFault>
    ensures reads { Extends room (block_of before.value) (Makes (creation_of creation))
        (λ x. block_of x.0.value) (λ x. x.1.now) result tokens.now }
    ensures shallow { IfOk result
        (λ x. depth (block_of x.0.value) ≤ max (depth (block_of before.value)) (suc room)) }
{
    let (made, rest) = block(alloc, tokens, room)?;
    let (taken, rest) = optional(alloc, rest, Sign::Taken, room)?;
    let (full, rest) = optional(alloc, rest, Sign::Full, room)?;
    let block = Block::Make {
        creation,
        made,
        taken,
        full,
        next: before,
    };
    Ok((Box::new(alloc, block)?, rest))
}

/// What stands for a block that is not written.
fn missing(alloc: Global) -> Result<Box<Block>, AllocError>
    ensures { IfOk result (λ block. block_of block.value ≡ End Missing) }
{
    let block = Box::new(alloc, Block::End(Ending::Missing))?;
    Ok(block)
}

/// The block behind a word, where that word is written.
#[cycle(blocks)]
fn optional(
    alloc: Global,
    tokens: &[Placed],
    word: Sign,
    room: u32,
) -> Result<(Box<Block>, &[Placed]), TokenFault>
    requires { class_of word ≡ Joins }
    ensures reads { ReadsOn (λ k. OptionalAt word room k)
        (λ x. block_of x.0.value) (λ x. x.1.now) result tokens.now }
    ensures shallow { IfOk result (λ x. depth (block_of x.0.value) ≤ max 1 room) }
{
    match tokens {
        [first, rest @ ..] => match &first.token {
            Token::Sign(found) => {
                if found.number() == word.number() {
                    block(alloc, rest, room)
                } else {
                    Ok((missing(alloc)?, tokens))
                }
            }
            _ => Ok((missing(alloc)?, tokens)),
        },
        [] => Ok((missing(alloc)?, tokens)),
    }
}

/// A block, where so many more may be open.
#[cycle(blocks)]
pub fn block(
    alloc: Global,
    tokens: &[Placed],
    room: u32,
) -> Result<(Box<Block>, &[Placed]), TokenFault>
    ensures reads { Reads (λ k. BlockAt room k)
        (λ x. block_of x.0.value) (λ x. x.1.now) result tokens.now }
    ensures shallow { IfOk result (λ x. depth (block_of x.0.value) ≤ room) }
    ensures some_room { IfOk result (λ x. 1 ≤ room) }
{
    match tokens {
        [] => Err(TokenFault::Short),
        [first, rest @ ..] => match &first.token {
            Token::Sign(Sign::OpenBrace) => {
                if room == 0 {
                    return Err(TokenFault::Past(first.place));
                }
                body(alloc, rest, room - 1)
            }
            _ => Err(stuck(first)),
        },
    }
}

/// The statements up to a `}`, where so many more blocks may be open.
#[cycle(blocks)]
fn body(alloc: Global, tokens: &[Placed], room: u32) -> Result<(Box<Block>, &[Placed]), TokenFault>
    ensures reads { Reads (λ k. BodyAt room k)
        (λ x. block_of x.0.value) (λ x. x.1.now) result tokens.now }
    ensures shallow { IfOk result (λ x. depth (block_of x.0.value) ≤ suc room) }
{
    let mut before = Box::new(alloc, Block::End(Ending::FallsOff))?;
    let mut rest = tokens;
    'statements: loop {
        let (statement, behind) = next_statement(alloc, rest)?;
        match statement {
            Statement::Does(operation) => {
                let longer = Block::Do {
                    operation,
                    next: before,
                };
                before = Box::new(alloc, longer)?;
                rest = behind;
            }
            Statement::Asks(question) => {
                let (longer, behind) = ask(alloc, before, question, behind, room)?;
                before = longer;
                rest = behind;
            }
            Statement::Makes(creation) => {
                let (longer, behind) = make(alloc, before, creation, behind, room)?;
                before = longer;
                rest = behind;
            }
            Statement::Ends(ending) => {
                let end = Box::new(alloc, Block::End(ending))?;
                return Ok((turned(before, end), behind));
            }
        }
    }
}
