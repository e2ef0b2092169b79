//! The statements of a block at all depths, in text order.
ghost use Rattle.std.specs.Prelude.{◌≡◌, ◌∷◌, ◌++◌, IfOk, OnOk, map};
ghost use Rattle.nf_base.specs.Laid.{block_seen};
ghost use Rattle.nf_base.specs.Statements.{statements};
ghost use Rattle.nf_base.specs.View.{block_of};
ghost use Rattle.path_walk.specs.Order.{head_of, head_seen, waiting};

use nf_base::block::Block;
use std::alloc::{AllocError, Global};

/// Puts the blocks of a statement and what follows it in front of what waits. The last waits
/// first.
fn put_back<'a>(one: &'a Block, left: &mut Vec<&'a Block>) -> Result<(), AllocError>
    ensures { OnOk result (head_of (block_of one.now) ∷ waiting (map block_seen left.new.items)
        ≡ statements (block_of one.now) ++ waiting (map block_seen left.old.items)) }
{
    match one {
        Block::End(_) => {}
        Block::Do { next, .. } => left.push(next)?,
        Block::Ask {
            hit,
            miss,
            next,
            ..
        } => {
            left.push(next)?;
            left.push(miss)?;
            left.push(hit)?;
        }
        Block::Make {
            made,
            taken,
            full,
            next,
            ..
        } => {
            left.push(next)?;
            left.push(full)?;
            left.push(taken)?;
            left.push(made)?;
        }
    }
    Ok(())
}

/// The statements of a block at all depths, each with what follows it, in text order.
pub fn all_statements<'a>(alloc: Global, block: &'a Block) -> Result<Vec<&'a Block>, AllocError>
    ensures { IfOk result (λ all. map head_seen all.items ≡ statements (block_of block.now)) }
{
    let mut all = Vec::new(alloc);
    let mut left = Vec::new(alloc);
    left.push(block)?;
    while let Some(one) = left.pop() {
        all.push(one)?;
        put_back(one, &mut left)?;
    }
    Ok(all)
}
