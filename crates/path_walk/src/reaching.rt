//! Which statements of a block stand on a feasible path: the paths go side by side through the
//! text, each with what its tests say, so that each statement is come to once.
ghost use Rattle.std.specs.Prelude.{◌≡◌, ◌≤◌, ◌∷◌, ◌++◌, [], List, length, IfOk, OnOk, IfSome, true};
ghost use Rattle.nf_base.specs.View.{block_of, ending_of, question_of};
ghost use Rattle.nf_base.specs.Text.{End, FallsOff};
ghost use Rattle.nf_base.specs.Laid.{rest_size};
ghost use Rattle.nf_base.specs.Statements.{statements};
ghost use Rattle.nf_base.specs.declared.block.Block.{size-Block};
ghost use Rattle.path_walk.specs.Alive.{into_first, into_second, those, is_any, past_ending, past, alive, past_one, alive_one, next_of, rest_seen, AsksInVain, alive_in_vain};
ghost use Rattle.path_walk.specs.Alike.{HaveSame};
ghost use Rattle.path_walk.specs.Numbering.{texts_seen, FindsAll};
ghost use Rattle.path_walk.specs.Trees.{Tree, Tested, asking, ending_tree, unfolded};
ghost use Rattle.path_walk.specs.Tests.{TestText};
ghost use Rattle.path_walk.specs.Layout.{statement_tree};
ghost use Rattle.path_walk.specs.Listed.{block_branches};
ghost use Rattle.path_walk.specs.Known.{nothing_known};
ghost use Rattle.path_walk.specs.Seen.{text_seen};
ghost use Rattle.path_walk.specs.Ahead.{all_known, all_ahead, text_asked, HasText, IsIn, AreIn};

use crate::block_texts::{number_of, texts_of};
use crate::going::{Going, going_both, going_on};
use crate::known::Known;
use crate::listing::all_statements;
use crate::numbering::Texts;
use crate::test::{Text, are_of_packet, equals, exchanges, sign_of_comparison};
use crate::ways::{Asked, Ways, both_ways, tested, three_ways};
use nf_base::block::{Block, Ending, Question};
use std::alloc::{AllocError, Global};

/// The ways of paths that come to a test of the packet alone.
fn ways_of_test(
    alloc: Global,
    text: &Text<'_>,
    exchanged: bool,
    texts: &Texts<'_>,
    live: Vec<Box<Known>>,
) -> Result<Ways, AllocError>
    requires { FindsAll texts.now }
    ensures first { IfOk result (λ ways. (hit miss : Tree TestText) →
        HasText (texts_seen texts.now) (text_seen text.now) →
        all_ahead (texts_seen texts.now) hit (all_known ways.first.items) ≡ those into_first
        (all_ahead (texts_seen texts.now) (Tested (text_seen text.now) exchanged hit miss)
        (all_known live.items))) }
    ensures second { IfOk result (λ ways. (hit miss : Tree TestText) →
        HasText (texts_seen texts.now) (text_seen text.now) →
        all_ahead (texts_seen texts.now) miss (all_known ways.second.items) ≡ those into_second
        (all_ahead (texts_seen texts.now) (Tested (text_seen text.now) exchanged hit miss)
        (all_known live.items))) }
{
    let number = number_of(alloc, texts, text)?;
    let equals = equals(text);
    let test = Asked {
        number,
        equals,
        exchanged,
    };
    tested(alloc, test, live)
}

/// The ways of paths that come to a question.
fn ways_of(
    alloc: Global,
    question: &Question,
    texts: &Texts<'_>,
    live: Vec<Box<Known>>,
) -> Result<Ways, AllocError>
    requires { FindsAll texts.now }
    ensures first { IfOk result (λ ways. (hit miss : Tree TestText) →
        IsIn (texts_seen texts.now) (text_asked (question_of question.now)) →
        all_ahead (texts_seen texts.now) hit (all_known ways.first.items) ≡ those into_first
        (all_ahead (texts_seen texts.now) (asking (question_of question.now) hit miss)
        (all_known live.items))) }
    ensures second { IfOk result (λ ways. (hit miss : Tree TestText) →
        IsIn (texts_seen texts.now) (text_asked (question_of question.now)) →
        all_ahead (texts_seen texts.now) miss (all_known ways.second.items) ≡ those into_second
        (all_ahead (texts_seen texts.now) (asking (question_of question.now) hit miss)
        (all_known live.items))) }
{
    match question {
        Question::Get { .. } => both_ways(alloc, live),
        Question::Find { .. } => both_ways(alloc, live),
        Question::Test {
            comparison,
            left,
            right,
            ..
        } => {
            if are_of_packet(left, right) {
                let sign = sign_of_comparison(*comparison);
                let text = Text { sign, left, right };
                ways_of_test(alloc, &text, exchanges(*comparison), texts, live)
            } else {
                both_ways(alloc, live)
            }
        }
    }
}

/// What follows a statement.
fn next_behind(block: &Block) -> Option<&Block>
    ensures next { rest_seen result ≡ next_of (block_of block.now) }
    ensures smaller { rest_size result ≤ size-Block block.now }
{
    match block {
        Block::End(_) => None,
        Block::Do { next, .. } => Some(next),
        Block::Ask { next, .. } => Some(next),
        Block::Make { next, .. } => Some(next),
    }
}

/// The paths that go on behind the end of a block.
fn past_ending(alloc: Global, ending: &Ending, live: Vec<Box<Known>>) -> Vec<Box<Known>>
    ensures { (texts : List TestText) (exit : Tree TestText) →
        all_ahead texts exit (all_known result.items) ≡ past_ending (ending_of ending.now)
        (all_ahead texts (ending_tree (ending_of ending.now) exit) (all_known live.items)) }
{
    match ending {
        Ending::FallsOff => live,
        Ending::Flood => Vec::new(alloc),
        Ending::Discard => Vec::new(alloc),
        Ending::Forward(_) => Vec::new(alloc),
    }
}

/// The paths of both lists.
fn joined(
    mut some: Vec<Box<Known>>,
    mut others: Vec<Box<Known>>,
) -> Result<Vec<Box<Known>>, AllocError>
    ensures { IfOk result (λ all. all_known all.items
        ≡ all_known some.items ++ all_known others.items) }
{
    some.append(&mut others)?;
    Ok(some)
}

/// Whether an end is where paths fall off.
fn falls_off(ending: &Ending) -> bool
    ensures { result ≡ true → ending_of ending.now ≡ FallsOff }
{
    match ending {
        Ending::FallsOff => true,
        Ending::Flood => false,
        Ending::Discard => false,
        Ending::Forward(_) => false,
    }
}

/// Whether a block does nothing, and falls off its end.
fn does_nothing(block: &Block) -> bool
    ensures { result ≡ true → block_of block.now ≡ End FallsOff }
{
    match block {
        Block::End(ending) => falls_off(ending),
        Block::Do { .. } => false,
        Block::Ask { .. } => false,
        Block::Make { .. } => false,
    }
}

/// Whether some paths go either way at a test of the packet alone.
fn going_at_test(
    alloc: Global,
    text: &Text<'_>,
    exchanged: bool,
    texts: &Texts<'_>,
    live: &[Box<Known>],
) -> Result<Going, AllocError>
    requires { FindsAll texts.now }
    ensures first { IfOk result (λ going. (hit miss : Tree TestText) →
        HasText (texts_seen texts.now) (text_seen text.now) →
        going.hits ≡ is_any (those into_first (all_ahead (texts_seen texts.now)
        (Tested (text_seen text.now) exchanged hit miss) (all_known live.now)))) }
    ensures second { IfOk result (λ going. (hit miss : Tree TestText) →
        HasText (texts_seen texts.now) (text_seen text.now) →
        going.misses ≡ is_any (those into_second (all_ahead (texts_seen texts.now)
        (Tested (text_seen text.now) exchanged hit miss) (all_known live.now)))) }
{
    let number = number_of(alloc, texts, text)?;
    let equals = equals(text);
    let test = Asked {
        number,
        equals,
        exchanged,
    };
    Ok(going_on(test, live))
}

/// Whether some paths go either way at a question.
fn going_at(
    alloc: Global,
    question: &Question,
    texts: &Texts<'_>,
    live: &[Box<Known>],
) -> Result<Going, AllocError>
    requires { FindsAll texts.now }
    ensures first { IfOk result (λ going. (hit miss : Tree TestText) →
        IsIn (texts_seen texts.now) (text_asked (question_of question.now)) →
        going.hits ≡ is_any (those into_first (all_ahead (texts_seen texts.now)
        (asking (question_of question.now) hit miss) (all_known live.now)))) }
    ensures second { IfOk result (λ going. (hit miss : Tree TestText) →
        IsIn (texts_seen texts.now) (text_asked (question_of question.now)) →
        going.misses ≡ is_any (those into_second (all_ahead (texts_seen texts.now)
        (asking (question_of question.now) hit miss) (all_known live.now)))) }
{
    match question {
        Question::Get { .. } => Ok(going_both(live)),
        Question::Find { .. } => Ok(going_both(live)),
        Question::Test {
            comparison,
            left,
            right,
            ..
        } => {
            if are_of_packet(left, right) {
                let sign = sign_of_comparison(*comparison);
                let text = Text { sign, left, right };
                going_at_test(alloc, &text, exchanges(*comparison), texts, live)
            } else {
                Ok(going_both(live))
            }
        }
    }
}

/// The question of a block's first statement, where both its blocks do nothing.
#[tactic(auto, using(crate::proofs::InVain::asks_in_vain))]
fn empty_question(block: &Block) -> Option<&Question>
    ensures { IfSome result (λ question. AsksInVain (block_of block.now) (question_of question.now)) }
{
    match block {
        Block::End(_) => None,
        Block::Do { .. } => None,
        Block::Ask {
            question,
            hit,
            miss,
            ..
        } => {
            if does_nothing(hit) && does_nothing(miss) {
                Some(question)
            } else {
                None
            }
        }
        Block::Make { .. } => None,
    }
}

/// Three marks behind others.
fn push_three(
    marks: &mut Vec<bool>,
    first: bool,
    second: bool,
    third: bool,
) -> Result<(), AllocError>
    ensures { OnOk result (marks.new.items ≡ marks.old.items ++ first ∷ second ∷ third ∷ []) }
{
    marks.push(first)?;
    marks.push(second)?;
    marks.push(third)?;
    Ok(())
}

/// Marks a question whose blocks do nothing, and these.
fn mark_empty(
    alloc: Global,
    question: &Question,
    texts: &Texts<'_>,
    live: &[Box<Known>],
    marks: &mut Vec<bool>,
) -> Result<(), AllocError>
    requires { FindsAll texts.now }
    ensures { OnOk result ((next : Tree TestText) →
        IsIn (texts_seen texts.now) (text_asked (question_of question.now)) →
        marks.new.items ≡ marks.old.items
        ++ alive_in_vain (all_ahead (texts_seen texts.now)
        (asking (question_of question.now) next next) (all_known live.now))) }
{
    let going = going_at(alloc, question, texts, live)?;
    let comes = !live.is_empty();
    push_three(marks, comes, going.hits, going.misses)?;
    Ok(())
}

/// Marks a statement and those in its blocks, in text order, each by whether one of the paths
/// comes to it. The paths that go on behind it.
#[cycle(reaching)]
fn mark_statement(
    alloc: Global,
    block: &Block,
    texts: &Texts<'_>,
    live: Vec<Box<Known>>,
    marks: &mut Vec<bool>,
) -> Result<Vec<Box<Known>>, AllocError>
    requires { FindsAll texts.now }
    // Where each test's text has a number.
    ensures marks { OnOk result ((next : Tree TestText) →
        AreIn (texts_seen texts.now) (statements (block_of block.now)) →
        marks.new.items ≡ marks.old.items ++ alive_one (block_of block.now) (all_ahead (texts_seen texts.now)
        (statement_tree (block_of block.now) next next) (all_known live.items))) }
    ensures past { IfOk result (λ on. (next : Tree TestText) →
        AreIn (texts_seen texts.now) (statements (block_of block.now)) →
        HaveSame (all_ahead (texts_seen texts.now) next (all_known on.items))
        (past_one (block_of block.now) (all_ahead (texts_seen texts.now)
        (statement_tree (block_of block.now) next next) (all_known live.items)))) }
{
    marks.push(!live.is_empty())?;
    match block {
        Block::End(ending) => Ok(past_ending(alloc, ending, live)),
        Block::Do { .. } => Ok(live),
        Block::Ask {
            question,
            hit,
            miss,
            ..
        } => {
            let Ways { first, second, .. } = ways_of(alloc, question, texts, live)?;
            let hits = mark_block(alloc, hit, texts, first, marks)?;
            let misses = mark_block(alloc, miss, texts, second, marks)?;
            joined(hits, misses)
        }
        Block::Make {
            made,
            taken,
            full,
            ..
        } => {
            let Ways {
                first,
                second,
                third,
            } = three_ways(alloc, live)?;
            let makes = mark_block(alloc, made, texts, first, marks)?;
            let takes = mark_block(alloc, taken, texts, second, marks)?;
            let fills = mark_block(alloc, full, texts, third, marks)?;
            joined(makes, joined(takes, fills)?)
        }
    }
}

/// Marks a statement as `mark_statement` does.
///
/// What a test says whose blocks do nothing is told to no path: those behind it go the same ways,
/// and are not made two.
#[cycle(reaching)]
fn mark_one(
    alloc: Global,
    block: &Block,
    texts: &Texts<'_>,
    live: Vec<Box<Known>>,
    marks: &mut Vec<bool>,
) -> Result<Vec<Box<Known>>, AllocError>
    requires { FindsAll texts.now }
    // Where each test's text has a number.
    ensures marks { OnOk result ((next : Tree TestText) →
        AreIn (texts_seen texts.now) (statements (block_of block.now)) →
        marks.new.items ≡ marks.old.items ++ alive_one (block_of block.now) (all_ahead (texts_seen texts.now)
        (statement_tree (block_of block.now) next next) (all_known live.items))) }
    ensures past { IfOk result (λ on. (next : Tree TestText) →
        AreIn (texts_seen texts.now) (statements (block_of block.now)) →
        HaveSame (all_ahead (texts_seen texts.now) next (all_known on.items))
        (past_one (block_of block.now) (all_ahead (texts_seen texts.now)
        (statement_tree (block_of block.now) next next) (all_known live.items)))) }
{
    match empty_question(block) {
        Some(question) => {
            mark_empty(alloc, question, texts, live.as_slice(), marks)?;
            Ok(live)
        }
        None => mark_statement(alloc, block, texts, live, marks),
    }
}

/// Marks the statements of a block, in text order, each by whether one of the paths comes to it.
/// The paths that fall off its end.
#[cycle(reaching)]
fn mark_block(
    alloc: Global,
    block: &Block,
    texts: &Texts<'_>,
    live: Vec<Box<Known>>,
    marks: &mut Vec<bool>,
) -> Result<Vec<Box<Known>>, AllocError>
    requires { FindsAll texts.now }
    // Where each test's text has a number.
    ensures marks { OnOk result ((exit : Tree TestText) →
        AreIn (texts_seen texts.now) (statements (block_of block.now)) →
        marks.new.items ≡ marks.old.items ++ alive (block_of block.now) (all_ahead (texts_seen texts.now)
        (unfolded (block_of block.now) exit) (all_known live.items))) }
    ensures past { IfOk result (λ on. (exit : Tree TestText) →
        AreIn (texts_seen texts.now) (statements (block_of block.now)) →
        HaveSame (all_ahead (texts_seen texts.now) exit (all_known on.items))
        (past (block_of block.now) (all_ahead (texts_seen texts.now)
        (unfolded (block_of block.now) exit) (all_known live.items)))) }
{
    let mut on = live;
    let mut rest = Some(block);
    while let Some(one) = rest {
        on = mark_one(alloc, one, texts, on, marks)?;
        rest = next_behind(one);
    }
    Ok(on)
}

/// One path, of which nothing is known.
fn one_path(alloc: Global, texts: &Texts<'_>) -> Result<Vec<Box<Known>>, AllocError>
    ensures { IfOk result (λ live. all_known live.items
        ≡ nothing_known (length (texts_seen texts.now)) ∷ []) }
{
    let known = Known::new(alloc, texts.list.len())?;
    let first = Box::new(alloc, known)?;
    let mut live = Vec::new(alloc);
    live.push(first)?;
    Ok(live)
}

/// Of each statement of a block at all depths, in text order, whether a feasible path comes to it.
/// Only want of memory is an error.
///
/// The work is bounded by the feasible paths times the length of the text, and no path is kept.
pub fn reached(alloc: Global, block: &Block) -> Result<Vec<bool>, AllocError>
    ensures { IfOk result (λ marks. marks.items
        ≡ alive (block_of block.now) (block_branches (block_of block.now))) }
{
    let statements = all_statements(alloc, block)?;
    let texts = texts_of(alloc, statements.as_slice())?;
    let live = one_path(alloc, &texts)?;
    let mut marks = Vec::new(alloc);
    mark_block(alloc, block, &texts, live, &mut marks)?;
    Ok(marks)
}
