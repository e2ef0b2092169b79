//! Finished statements of a checked block. What a statement holds is dropped by calls, as values are
//! in `value`.

ghost use Rattle.std.specs.Prelude.{◌≡◌, IfOk};
ghost use Rattle.nf_base.specs.Text as text;
ghost use Rattle.nf_base.specs.View.{block_of};
ghost use Rattle.nf_types.specs.Parts.{in_front, laid};

use nf_base::block::{Block, Creation, Ending, Operation, Question};
use std::alloc::{AllocError, Global};

/// A statement with the blocks in it, or an end, without what follows.
#[derive(Drop)]
pub enum Part {
    End(Ending),
    Do(Operation),
    Ask(Question, Box<Block>, Box<Block>),
    Make(Creation, Box<Block>, Box<Block>, Box<Block>),
}

/// A block in a box.
fn boxed(alloc: Global, block: Block) -> Result<Box<Block>, AllocError>
    ensures { IfOk result (λ b. b.value ≡ block) }
{
    let made = Box::new(alloc, block)?;
    Ok(made)
}

/// A statement in front of a block; nothing stands behind an end.
fn in_front(alloc: Global, part: Part, next: Block) -> Result<Block, AllocError>
    ensures { IfOk result (λ b. block_of b ≡ in_front part (block_of next)) }
{
    match part {
        Part::End(ending) => Ok(Block::End(ending)),
        Part::Do(operation) => match boxed(alloc, next) {
            Ok(next) => Ok(Block::Do { operation, next }),
            Err(stop) => {
                drop(operation);
                Err(stop)
            }
        },
        Part::Ask(question, hit, miss) => match boxed(alloc, next) {
            Ok(next) => Ok(Block::Ask {
                question,
                hit,
                miss,
                next,
            }),
            Err(stop) => {
                drop(question);
                Err(stop)
            }
        },
        Part::Make(creation, made, taken, full) => match boxed(alloc, next) {
            Ok(next) => Ok(Block::Make {
                creation,
                made,
                taken,
                full,
                next,
            }),
            Err(stop) => {
                drop(creation);
                Err(stop)
            }
        },
    }
}

/// A block of these statements, made from its end on.
#[tactic(auto, using(crate::proofs::Laid::one_more))]
pub fn joined(alloc: Global, mut parts: Vec<Part>) -> Result<Block, AllocError>
    ensures { IfOk result (λ b. block_of b ≡ laid parts.items (text.End text.FallsOff)) }
{
    let mut block = Block::End(Ending::FallsOff);
    while let Some(last) = parts.pop() {
        block = in_front(alloc, last, block)?;
    }
    Ok(block)
}
