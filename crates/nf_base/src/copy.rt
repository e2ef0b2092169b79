//! Copies of blocks, in loops along the statements.

ghost use Rattle.std.specs.Prelude.{◌≡◌, ◌≤◌, ◌<◌, IfOk, map};
ghost use Rattle.std.specs.List.{All};
ghost use Rattle.nf_base.specs.Text as text;
ghost use Rattle.nf_base.specs.View.{block_of, ending_of, operation_of, question_of, creation_of};
ghost use Rattle.nf_base.specs.Laid.{before, laid, rest_of, rest_size, block_seen};
ghost use Rattle.nf_base.specs.declared.block.Block.{size-Block};

use crate::block::{Block, Creation, Ending, Operation, Question};
use crate::expr::{copied_given, copied_guards};
use std::alloc::{AllocError, Global};

impl Ending {
    pub fn copy(&self, alloc: Global) -> Result<Ending, AllocError>
        ensures { IfOk result (λ copy. ending_of copy ≡ ending_of self.now) }
    {
        match self {
            Ending::FallsOff => Ok(Ending::FallsOff),
            Ending::Forward(port) => Ok(Ending::Forward(port.copy(alloc)?)),
            Ending::Flood => Ok(Ending::Flood),
            Ending::Discard => Ok(Ending::Discard),
        }
    }
}

impl Operation {
    pub fn copy(&self, alloc: Global) -> Result<Operation, AllocError>
        ensures { IfOk result (λ copy. operation_of copy ≡ operation_of self.now) }
    {
        match self {
            Operation::Touch { var } => Ok(Operation::Touch { var: *var }),
            Operation::Free { var } => Ok(Operation::Free { var: *var }),
            Operation::Set { field, given } => Ok(Operation::Set {
                field: *field,
                given: given.copy(alloc)?,
            }),
            Operation::Write { var, column, given } => Ok(Operation::Write {
                var: *var,
                column: *column,
                given: given.copy(alloc)?,
            }),
            Operation::Store {
                place,
                array,
                at,
                given,
            } => Ok(Operation::Store {
                place: *place,
                array: *array,
                at: at.copy(alloc)?,
                given: given.copy(alloc)?,
            }),
        }
    }
}

impl Question {
    pub fn copy(&self, alloc: Global) -> Result<Question, AllocError>
        ensures { IfOk result (λ copy. question_of copy ≡ question_of self.now) }
    {
        match self {
            Question::Get {
                place,
                chain,
                map,
                key,
                var,
            } => Ok(Question::Get {
                place: *place,
                chain: *chain,
                map: *map,
                key: copied_given(alloc, key)?,
                var: *var,
            }),
            Question::Find {
                place,
                chain,
                at,
                guards,
                var,
            } => Ok(Question::Find {
                place: *place,
                chain: *chain,
                at: at.copy(alloc)?,
                guards: copied_guards(alloc, guards)?,
                var: *var,
            }),
            Question::Test {
                place,
                comparison,
                left,
                right,
            } => Ok(Question::Test {
                place: *place,
                comparison: *comparison,
                left: left.copy(alloc)?,
                right: right.copy(alloc)?,
            }),
        }
    }
}

impl Creation {
    pub fn copy(&self, alloc: Global) -> Result<Creation, AllocError>
        ensures { IfOk result (λ copy. creation_of copy ≡ creation_of self.now) }
    {
        Ok(Creation {
            place: self.place,
            chain: self.chain,
            labels: copied_given(alloc, &self.labels)?,
            var: self.var,
        })
    }
}

/// What follows a statement.
fn behind(block: &Block) -> Option<&Block>
    ensures whole { before (block_of block.now) (rest_of result) ≡ block_of block.now }
    ensures smaller { rest_size result ≤ size-Block block.now }
{
    match block {
        Block::End(_) => None,
        Block::Do { next, .. } => Some(next),
        Block::Ask { next, .. } => Some(next),
        Block::Make { next, .. } => Some(next),
    }
}

/// The statements of a block, its end the last.
#[tactic(auto, using(crate::proofs::Laid::one_more))]
fn statements(alloc: Global, block: &Block) -> Result<Vec<&Block>, AllocError>
    ensures whole { IfOk result (λ all.
        laid (map block_seen all.items) (text.End text.FallsOff) ≡ block_of block.now) }
    ensures smaller { IfOk result (λ all.
        All (λ b. size-Block b.now ≤ size-Block block.now) all.items) }
{
    let mut all = Vec::new(alloc);
    let mut rest = Some(block);
    while let Some(one) = rest {
        all.push(one)?;
        rest = behind(one);
    }
    Ok(all)
}

/// A copy of a block in a box.
#[cycle(copies)]
fn boxed(alloc: Global, block: &Block) -> Result<Box<Block>, AllocError>
    ensures { IfOk result (λ copy. block_of copy.value ≡ block_of block.now) }
{
    let copy = copied(alloc, block)?;
    let place = Box::new(alloc, copy)?;
    Ok(place)
}

/// A copy of a statement with something else behind it.
#[cycle(copies)]
fn in_front(alloc: Global, block: &Block, next: Block) -> Result<Block, AllocError>
    ensures { IfOk result (λ copy. block_of copy ≡ before (block_of block.now) (block_of next)) }
{
    match block {
        Block::End(ending) => Ok(Block::End(ending.copy(alloc)?)),
        Block::Do { operation, .. } => Ok(Block::Do {
            operation: operation.copy(alloc)?,
            next: Box::new(alloc, next)?,
        }),
        Block::Ask {
            question,
            hit,
            miss,
            ..
        } => Ok(Block::Ask {
            question: question.copy(alloc)?,
            hit: boxed(alloc, hit)?,
            miss: boxed(alloc, miss)?,
            next: Box::new(alloc, next)?,
        }),
        Block::Make {
            creation,
            made,
            taken,
            full,
            ..
        } => Ok(Block::Make {
            creation: creation.copy(alloc)?,
            made: boxed(alloc, made)?,
            taken: boxed(alloc, taken)?,
            full: boxed(alloc, full)?,
            next: Box::new(alloc, next)?,
        }),
    }
}

/// A copy of a block, made from its end on.
#[cycle(copies)]
#[tactic(auto, using(crate::proofs::Laid::one_more))]
pub fn copied(alloc: Global, block: &Block) -> Result<Block, AllocError>
    ensures { IfOk result (λ copy. block_of copy ≡ block_of block.now) }
{
    let mut left = statements(alloc, block)?;
    let mut copy = Block::End(Ending::FallsOff);
    while let Some(last) = left.pop() {
        copy = in_front(alloc, last, copy)?;
    }
    Ok(copy)
}
