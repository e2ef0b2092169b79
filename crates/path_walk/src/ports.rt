//! The feasible paths of a port.
ghost use Rattle.std.specs.Prelude.{◌≡◌, ◌≤◌, IfOk, OnOk, IfErr, length};
ghost use Rattle.nf_base.specs.View.{block_of};
ghost use Rattle.nf_base.specs.Functions.{function_of};
ghost use Rattle.path_walk.specs.Once.{EachOnce};
ghost use Rattle.path_walk.specs.Listed.{block_branches, door_branches, IsCause, HasEachTaken};
ghost use Rattle.path_walk.specs.Lines.{IsLaid};
ghost use Rattle.path_walk.specs.Known.{HasEquals};
ghost use Rattle.path_walk.specs.Walks.{paths_from};

use crate::counting::counted;
use crate::fault::WalkFault;
use crate::laying::block_lines;
use crate::line::Line;
use crate::numbering::{Numbered, numbered_lines};
use crate::walk::{Path, listed};
use nf_base::block::Block;
use nf_base::func::Func;
use nf_base::packet::Door;
use std::alloc::{AllocError, Global};

/// A block as numbered lines, and the number of the line that it begins at.
fn laid_out<'a>(alloc: Global, block: &'a Block) -> Result<(Numbered<'a>, usize), AllocError>
    ensures laid { IfOk result (λ x. IsLaid x.0.lines.items) }
    ensures equals { IfOk result (λ x. HasEquals x.0) }
    ensures paths { IfOk result (λ x. paths_from x.0 x.1 ≡ block_branches (block_of block.now)) }
{
    let mut lines = Vec::new(alloc);
    lines.push(Line::Stop)?;
    let at = block_lines(alloc, block, 0, &mut lines)?;
    let numbered = numbered_lines(alloc, lines.as_slice())?;
    Ok((numbered, at))
}

/// The feasible paths of a block that stands alone, in text order.
pub fn block_paths(alloc: Global, block: &Block) -> Result<Vec<Path>, WalkFault>
    ensures all { IfOk result (λ all. all.items ≡ block_branches (block_of block.now)) }
    ensures most { IfOk result (λ all. length all.items ≤ 4096) }
    ensures many { IfErr result (IsCause (block_branches (block_of block.now))) }
{
    let (numbered, at) = laid_out(alloc, block)?;
    listed(alloc, &numbered, at)
}

/// How many feasible paths a block has that stands alone.
pub fn block_path_count(alloc: Global, block: &Block) -> Result<u32, WalkFault>
    ensures count { IfOk result (λ n. n ≡ length (block_branches (block_of block.now))) }
    ensures most { IfOk result (λ n. n ≤ 4096) }
    ensures many { IfErr result (IsCause (block_branches (block_of block.now))) }
{
    let (numbered, at) = laid_out(alloc, block)?;
    counted(alloc, &numbered, at)
}

/// The feasible paths of a port's handler, each once, in text order: hit before miss, and made before
/// taken before full. A port that the function doesn't have has none.
///
/// The work is bounded by the paths times the length of a path, and by the text's length times its
/// logarithm.
pub fn paths(alloc: Global, func: &Func, door: Door) -> Result<Vec<Path>, WalkFault>
    ensures all { IfOk result (λ all. all.items ≡ door_branches (function_of func.now) door) }
    ensures once { IfOk result (λ all. EachOnce all.items) }
    // More than 4,096 are refused, and no fewer.
    ensures most { OnOk result (length (door_branches (function_of func.now) door) ≤ 4096) }
    ensures many { IfErr result (IsCause (door_branches (function_of func.now) door)) }
    // What a packet of this port does, at any state and with any choices, is one of them.
    ensures taken { IfOk result (λ all. HasEachTaken (function_of func.now) door all.items) }
{
    match func.handler_at(door) {
        Some(handler) => block_paths(alloc, &handler.block),
        None => Ok(Vec::new(alloc)),
    }
}

/// How many feasible paths a port's handler has. A port that the function doesn't have has none.
///
/// The work is at most that of listing them: a path is followed until nothing but tests stand ahead of
/// it, each of which can go one way alone, as its text went some way on the path already, or as its
/// field is known to be another number. The memory is that of the text and of the tests of the paths
/// that branch off one path.
pub fn count_paths(alloc: Global, func: &Func, door: Door) -> Result<u32, WalkFault>
    ensures count { IfOk result (λ n. n ≡ length (door_branches (function_of func.now) door)) }
    // More than 4,096 are refused, and no fewer.
    ensures most { IfOk result (λ n. n ≤ 4096) }
    ensures many { IfErr result (IsCause (door_branches (function_of func.now) door)) }
{
    match func.handler_at(door) {
        Some(handler) => block_path_count(alloc, &handler.block),
        None => Ok(0),
    }
}
