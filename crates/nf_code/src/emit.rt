//! Blocks into code, in loops along the statements.

ghost use Rattle.std.specs.Prelude.{◌≡◌, ◌≤◌, ◌<◌, IfOk, length, map};
ghost use Rattle.std.specs.List.{All};
ghost use Rattle.nf_base.specs.Text as text;
ghost use Rattle.nf_base.specs.View.{block_of, ending_of};
ghost use Rattle.nf_base.specs.Laid.{rest_of, rest_size, block_seen};
ghost use Rattle.nf_base.specs.declared.block.Block.{size-Block};
ghost use Rattle.nf_code.specs.Code.{Puts, block_at};
ghost use Rattle.nf_code.specs.Followed.{end_followed, first_followed, followed, linked};

use crate::code::{Code, Op};
use nf_base::block::{Block, Ending};
use std::alloc::{AllocError, Global};

/// What follows a statement.
fn behind(block: &Block) -> Option<&Block>
    ensures whole { (next : text.Block)
        → first_followed (block_of block.now) (followed (rest_of result) next)
        ≡ followed (block_of block.now) next }
    ensures smaller { rest_size result ≤ size-Block block.now }
{
    match block {
        Block::End(_) => None,
        Block::Do { next, .. } => Some(next),
        Block::Ask { next, .. } => Some(next),
        Block::Make { next, .. } => Some(next),
    }
}

/// The statements of a block, its end the last.
#[tactic(auto, using(crate::proofs::Linked::one_more))]
fn statements(alloc: Global, block: &Block) -> Result<Vec<&Block>, AllocError>
    ensures whole { IfOk result (λ all. (next : text.Block)
        → linked (map block_seen all.items) next ≡ followed (block_of block.now) next) }
    ensures smaller { IfOk result (λ all.
        All (λ b. size-Block b.now ≤ size-Block block.now) all.items) }
{
    let mut all = Vec::new(alloc);
    let mut rest = Some(block);
    while let Some(one) = rest {
        all.push(one)?;
        rest = behind(one);
    }
    Ok(all)
}

/// Puts an end, and says where it stands: a block that falls off goes on at what is behind it.
fn emit_end<'a>(code: &mut Code<'a>, ending: &'a Ending, behind: usize) -> Result<usize, AllocError>
    requires { behind < length code.old }
    ensures { IfOk result (λ at.
        Puts (end_followed (ending_of ending.now) (block_at code.old behind))
        code.old code.new at) }
{
    match ending {
        Ending::FallsOff => Ok(behind),
        Ending::Forward(port) => code.put(Op::Forward(port)),
        Ending::Flood => code.put(Op::Flood),
        Ending::Discard => code.put(Op::Discard),
    }
}

/// Puts the first statement of a block, with what stands at a place behind it, and says where it
/// stands.
#[cycle(emits)]
fn emit_first<'a>(
    alloc: Global,
    code: &mut Code<'a>,
    block: &'a Block,
    behind: usize,
) -> Result<usize, AllocError>
    requires { behind < length code.old }
    ensures { IfOk result (λ at.
        Puts (first_followed (block_of block.now) (block_at code.old behind))
        code.old code.new at) }
{
    match block {
        Block::End(ending) => emit_end(code, ending, behind),
        Block::Do { operation, .. } => code.put(Op::Do {
            operation,
            next: behind,
        }),
        Block::Ask {
            question,
            hit,
            miss,
            ..
        } => {
            let hit = emit(alloc, code, hit, behind)?;
            let miss = emit(alloc, code, miss, behind)?;
            code.put(Op::Ask {
                question,
                hit,
                miss,
            })
        }
        Block::Make {
            creation,
            made,
            taken,
            full,
            ..
        } => {
            let made = emit(alloc, code, made, behind)?;
            let taken = emit(alloc, code, taken, behind)?;
            let full = emit(alloc, code, full, behind)?;
            code.put(Op::Make {
                creation,
                made,
                taken,
                full,
            })
        }
    }
}

/// Puts a block, from its end on, with what stands at a place behind it, and says where it begins.
#[cycle(emits)]
#[tactic(auto, using(crate::proofs::Linked::one_more))]
pub(crate) fn emit<'a>(
    alloc: Global,
    code: &mut Code<'a>,
    block: &'a Block,
    behind: usize,
) -> Result<usize, AllocError>
    requires { behind < length code.old }
    ensures { IfOk result (λ at.
        Puts (followed (block_of block.now) (block_at code.old behind)) code.old code.new at) }
{
    let mut left = statements(alloc, block)?;
    let mut at = behind;
    while let Some(last) = left.pop() {
        at = emit_first(alloc, code, last, at)?;
    }
    Ok(at)
}
