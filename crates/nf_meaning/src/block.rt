// How a block goes.
ghost use Rattle.std.specs.Prelude.{◌≡◌, ◌+◌, ◌≤◌, ◌<◌, max, List, ℕ, length, IfOk, IfSome, false};
ghost use Rattle.nf_base.specs.Text.{Ask, Make};
ghost use Rattle.nf_base.specs.declared.block.Block.{size-Block};
ghost use Rattle.nf_base.specs.Course.{sent, ended};
ghost use Rattle.nf_base.specs.Context as meant;
ghost use Rattle.nf_base.specs.Events.{ended_by};
ghost use Rattle.nf_base.specs.Record.{answers_full};
ghost use Rattle.nf_base.specs.View.{block_of, ending_of, question_of, creation_of};
ghost use Rattle.nf_meaning.specs.Course.{Follows, Went, Enters, Chooses, record_after, behind, is_end, news};
ghost use Rattle.nf_meaning.specs.View.{context_of, input_of, completion_of};

use crate::context::{Context, Flow, Input};
use crate::creation::{NewResult, make};
use crate::fault::StepFault;
use crate::operation::operate;
use crate::question::ask;
use crate::values::value;
use nf_base::block::{Block, Creation, Ending, Question};
use nf_base::done::Action;
use std::alloc::{AllocError, Global};

/// A packet goes out at a port that there is.
fn sent(ports: u32, port: u128) -> Action
    ensures { result ≡ sent ports port }
{
    if port < u128::from(ports) {
        Action::To(port as u32)
    } else {
        Action::Drop
    }
}

#[tactic(auto, using(crate::proofs::Refusals::reads_is))]
fn end(context: &Context, p: &Input, ending: &Ending) -> Flow
    ensures goes { (left : List ℕ) →
        ended (input_of p.now) (context_of left context.now) (ending_of ending.now)
        ≡ completion_of result (context_of left context.now) }
    ensures told { (c : meant.Context) (k : Follows) →
        answers_full (ended_by (input_of p.now) c (ending_of ending.now) k)
        ≡ answers_full (record_after result (k c)) }
{
    match ending {
        Ending::FallsOff => Flow::Falls,
        Ending::Forward(port) => Flow::Ends(sent(p.ports, value(context, p, port))),
        Ending::Flood => Flow::Ends(Action::Flood),
        Ending::Discard => Flow::Ends(Action::Drop),
    }
}

/// Asks a question: the block to be gone into.
fn ask_into<'a>(
    alloc: Global,
    context: &mut Context,
    p: &Input,
    question: &Question,
    hit: &'a Block,
    miss: &'a Block,
) -> Result<&'a Block, AllocError>
    ensures enters { IfOk result (λ inner. Enters p.now
        (Ask (question_of question.now) (block_of hit.now) (block_of miss.now))
        (block_of inner.now) context.old context.new) }
    ensures smaller { IfOk result (λ inner.
        size-Block inner.now ≤ max (size-Block hit.now) (size-Block miss.now)) }
    ensures room { IfOk result (λ inner.
        length context.new.picks + news (block_of inner.now)
        ≤ length context.old.picks + (news (block_of hit.now) + news (block_of miss.now))) }
{
    if ask(alloc, context, p, question)? {
        Ok(hit)
    } else {
        Ok(miss)
    }
}

/// Makes an entry, if one can be made: the block to be gone into, or None where the choice is not
/// legal.
fn make_into<'a>(
    alloc: Global,
    context: &mut Context,
    p: &Input,
    creation: &Creation,
    made: &'a Block,
    taken: &'a Block,
    full: &'a Block,
) -> Result<Option<&'a Block>, AllocError>
    requires room { length context.old.picks < 16 }
    ensures chooses { IfOk result (λ chosen. Chooses chosen p.now
        (Make (creation_of creation.now)
        (block_of made.now) (block_of taken.now) (block_of full.now))
        context.old context.new) }
    ensures smaller { IfOk result (λ chosen. IfSome chosen (λ inner.
        size-Block inner.now
        ≤ max (size-Block made.now) (max (size-Block taken.now) (size-Block full.now)))) }
    ensures room { IfOk result (λ chosen. IfSome chosen (λ inner.
        length context.new.picks + news (block_of inner.now)
        ≤ length context.old.picks
        + (1 + news (block_of made.now) + news (block_of taken.now) + news (block_of full.now)))) }
{
    match make(alloc, context, p, creation)? {
        NewResult::Made(_) => Ok(Some(made)),
        NewResult::Taken => Ok(Some(taken)),
        NewResult::Full => Ok(Some(full)),
        NewResult::Illegal => Ok(None),
    }
}

/// What stands behind a statement.
fn behind(block: &Block) -> &Block
    ensures value { block_of result.now ≡ behind (block_of block.now) }
    ensures smaller { is_end (block_of block.now) ≡ false
        → size-Block result.now < size-Block block.now }
{
    match block {
        Block::End(_) => block,
        Block::Do { next, .. } => next,
        Block::Ask { next, .. } => next,
        Block::Make { next, .. } => next,
    }
}

/// Runs a block in its context, in a loop along its statements, calling itself for nested blocks
/// alone.
///
/// `BadChoice` comes only where choices are given, and then exactly where a `new` that is to make
/// an entry has no next choice, or one that is not vacant.
pub fn exec(
    alloc: Global,
    context: &mut Context,
    p: &Input,
    block: &Block,
) -> Result<Flow, StepFault>
    requires room { length context.old.picks + news (block_of block.now) ≤ 16 }
    ensures goes { Went result p.now (block_of block.now) context.old context.new }
    ensures room { IfOk result (λ _.
        length context.new.picks ≤ length context.old.picks + news (block_of block.now)) }
{
    let mut rest = block;
    loop {
        match rest {
            Block::End(ending) => return Ok(end(context, p, ending)),
            Block::Do { operation, .. } => {
                operate(alloc, context, p, operation)?;
                rest = behind(rest);
            }
            Block::Ask {
                question,
                hit,
                miss,
                ..
            } => {
                let inner = ask_into(alloc, context, p, question, hit, miss)?;
                match exec(alloc, context, p, inner)? {
                    Flow::Ends(action) => return Ok(Flow::Ends(action)),
                    Flow::Falls => rest = behind(rest),
                }
            }
            Block::Make {
                creation,
                made,
                taken,
                full,
                ..
            } => {
                let Some(inner) = make_into(alloc, context, p, creation, made, taken, full)? else {
                    return Err(StepFault::BadChoice);
                };
                match exec(alloc, context, p, inner)? {
                    Flow::Ends(action) => return Ok(Flow::Ends(action)),
                    Flow::Falls => rest = behind(rest),
                }
            }
        }
    }
}
