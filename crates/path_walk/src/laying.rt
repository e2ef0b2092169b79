//! A handler's block laid out as lines, from its end on, in loops along the statements.
ghost use Rattle.std.specs.Prelude.{◌≡◌, ◌≤◌, ◌<◌, IfOk, map, length};
ghost use Rattle.std.specs.List.{All};
ghost use Rattle.nf_base.specs.Text as text;
ghost use Rattle.nf_base.specs.View.{block_of, question_of, ending_of};
ghost use Rattle.nf_base.specs.Laid.{before, laid, rest_of, rest_size, block_seen};
ghost use Rattle.nf_base.specs.declared.block.Block.{size-Block};
ghost use Rattle.path_walk.specs.Seen.{line_map, text_seen, lines_seen};
ghost use Rattle.path_walk.specs.Layout.{question_line, statement_tree, IsPut, IsLaidOut};
ghost use Rattle.path_walk.specs.Lines.{IsLaid, tree_at};
ghost use Rattle.path_walk.specs.Trees.{ending_tree, unfolded};

use crate::line::Line;
use crate::test::{Text, exchanges, is_of_packet, sign_of_comparison};
use nf_base::block::{Block, Ending, Question};
use std::alloc::{AllocError, Global};

/// How a path goes on at a question.
pub fn asked<'a>(question: &'a Question, hit: usize, miss: usize) -> Line<Text<'a>>
    ensures { line_map text_seen result ≡ question_line (question_of question.now) hit miss }
{
    match question {
        Question::Get { .. } => Line::Free { hit, miss },
        Question::Find { .. } => Line::Free { hit, miss },
        Question::Test {
            comparison,
            left,
            right,
            ..
        } => {
            if is_of_packet(left) && is_of_packet(right) {
                let sign = sign_of_comparison(*comparison);
                let exchanged = exchanges(*comparison);
                Line::Test {
                    test: Text { sign, left, right },
                    exchanged,
                    hit,
                    miss,
                }
            } else {
                Line::Free { hit, miss }
            }
        }
    }
}

/// What follows a statement.
fn behind(block: &Block) -> Option<&Block>
    ensures whole { before (block_of block.now) (rest_of result) ≡ block_of block.now }
    ensures smaller { rest_size result ≤ size-Block block.now }
{
    match block {
        Block::End(_) => None,
        Block::Do { next, .. } => Some(next),
        Block::Ask { next, .. } => Some(next),
        Block::Make { next, .. } => Some(next),
    }
}

/// The statements of a block, its end the last.
#[tactic(auto, using(nf_base::proofs::Laid::one_more))]
fn statements(alloc: Global, block: &Block) -> Result<Vec<&Block>, AllocError>
    ensures whole { IfOk result (λ all. laid (map block_seen all.items) (text.End text.FallsOff) ≡ block_of block.now) }
    ensures smaller { IfOk result (λ all. All (λ b. size-Block b.now ≤ size-Block block.now) all.items) }
{
    let mut all = Vec::new(alloc);
    let mut rest = Some(block);
    while let Some(one) = rest {
        all.push(one)?;
        rest = behind(one);
    }
    Ok(all)
}

/// One line more, and its number.
fn put<'a>(lines: &mut Vec<Line<Text<'a>>>, line: Line<Text<'a>>) -> Result<usize, AllocError>
    ensures { IfOk result (λ at. IsPut (lines_seen lines.old.items) (line_map text_seen line.entry) (lines_seen lines.new.items) at) }
{
    let at = lines.len();
    lines.push(line)?;
    Ok(at)
}

/// The line of the end of a block, and its number.
fn ending_line<'a>(
    ending: &Ending,
    exit: usize,
    lines: &mut Vec<Line<Text<'a>>>,
) -> Result<usize, AllocError>
    requires laid { IsLaid (lines_seen lines.old.items) }
    requires exit { exit < length (lines_seen lines.old.items) }
    ensures { IfOk result (λ at. IsLaidOut (lines_seen lines.old.items) (lines_seen lines.new.items) at (ending_tree (ending_of ending.now) (tree_at (lines_seen lines.old.items) exit))) }
{
    match ending {
        Ending::FallsOff => Ok(exit),
        Ending::Forward(_) => put(lines, Line::Stop),
        Ending::Flood => put(lines, Line::Stop),
        Ending::Discard => put(lines, Line::Stop),
    }
}

/// The lines of one statement, behind those that there are, and the number of its own. The end of a
/// block goes on at `exit`, and each other statement at `next`.
#[cycle(laying)]
fn statement_lines<'a>(
    alloc: Global,
    block: &'a Block,
    exit: usize,
    next: usize,
    lines: &mut Vec<Line<Text<'a>>>,
) -> Result<usize, AllocError>
    requires laid { IsLaid (lines_seen lines.old.items) }
    requires exit { exit < length (lines_seen lines.old.items) }
    requires next { next < length (lines_seen lines.old.items) }
    ensures { IfOk result (λ at. IsLaidOut (lines_seen lines.old.items) (lines_seen lines.new.items) at (statement_tree (block_of block.now) (tree_at (lines_seen lines.old.items) exit) (tree_at (lines_seen lines.old.items) next))) }
{
    match block {
        Block::End(ending) => ending_line(ending, exit, lines),
        Block::Do { .. } => Ok(next),
        Block::Ask {
            question,
            hit,
            miss,
            ..
        } => {
            let hits = block_lines(alloc, hit, next, lines)?;
            let misses = block_lines(alloc, miss, next, lines)?;
            put(lines, asked(question, hits, misses))
        }
        Block::Make {
            made,
            taken,
            full,
            ..
        } => {
            let made = block_lines(alloc, made, next, lines)?;
            let taken = block_lines(alloc, taken, next, lines)?;
            let full = block_lines(alloc, full, next, lines)?;
            put(lines, Line::Make { made, taken, full })
        }
    }
}

/// The lines of a block that goes on at a line where it falls off, behind those that there are. The
/// number of the line that it begins at.
#[cycle(laying)]
pub fn block_lines<'a>(
    alloc: Global,
    block: &'a Block,
    exit: usize,
    lines: &mut Vec<Line<Text<'a>>>,
) -> Result<usize, AllocError>
    requires laid { IsLaid (lines_seen lines.old.items) }
    requires exit { exit < length (lines_seen lines.old.items) }
    ensures { IfOk result (λ at. IsLaidOut (lines_seen lines.old.items) (lines_seen lines.new.items) at (unfolded (block_of block.now) (tree_at (lines_seen lines.old.items) exit))) }
{
    let mut left = statements(alloc, block)?;
    let mut at = exit;
    while let Some(last) = left.pop() {
        at = statement_lines(alloc, last, exit, at, lines)?;
    }
    Ok(at)
}
