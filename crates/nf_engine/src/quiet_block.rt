// How a block goes where nothing may be written.
ghost use Rattle.std.specs.Prelude.{◌≡◌, ◌+◌, ◌≤◌, length, IfSome, IfNone};
ghost use Rattle.std.specs.Bool.{OnTrue, OnFalse};
ghost use Rattle.nf_base.specs.Context.{entry_in};
ghost use Rattle.nf_base.specs.Events.{restamps_at, rewrites, differs};
ghost use Rattle.nf_base.specs.Limits.{QuestionFits, CreationFits};
ghost use Rattle.nf_base.specs.Operations.{answer};
ghost use Rattle.nf_base.specs.View.{block_of, creation_of, operation_of, question_of};
ghost use Rattle.nf_engine.specs.Course.{Answers, BlockFits, bound_by, lookups};
ghost use Rattle.nf_engine.specs.Quiet.{DoesQuietly, Writes, IsToldAsked, IsRefused, IsToldRefused, MakesSome, GoesQuietly, IsToldQuiet, WritesSome};
ghost use Rattle.nf_engine.specs.View.{input_of, fixed_of, fixed_in};

use crate::block::end;
use crate::context::{Context, Flow};
use crate::entry_ref::EntryRef;
use crate::input::Input;
use crate::question::ask;
use crate::reads::Reads;
use crate::values::{given, labels_of, value};
use nf_base::block::{Block, Creation, Operation, Question};
use nf_base::value::narrowed;
use nf_base::width::Width;
use vig_tables::Tables;

/// Why a `new` makes no entry.
#[derive(Clone, Copy)]
pub enum Refusal {
    /// One of its keys is bound.
    Taken,
    /// No index is vacant.
    Full,
}

/// Whether a touch would change the stamp of a variable's entry, or the greatest of its chain.
fn restamps(tables: &Tables, time: u64, var: Option<EntryRef>) -> bool
    ensures { result ≡ restamps_at time tables.now.state.chains var }
{
    let Some(at) = var else {
        return false;
    };
    let Some(stamp) = tables.stamp(at.chain(), at.index()) else {
        return false;
    };
    let greatest = tables.greatest(at.chain());
    let next = time.max(greatest);
    !(stamp == next && greatest == next)
}

/// Whether a write would change a column of a variable's entry.
fn rewrites(tables: &Tables, var: Option<EntryRef>, column: u32, v: u128) -> bool
    ensures { result ≡ rewrites column v (entry_in tables.now.state.chains var) }
{
    match var {
        None => false,
        Some(at) => differs(v, tables.free_column(at.chain(), at.index(), column)),
    }
}

/// Whether a value is another than the one that stands in a cell, if one does.
fn differs(v: u128, cell: Option<u128>) -> bool
    ensures { result ≡ differs v cell }
{
    match cell {
        None => false,
        Some(before) => before != v,
    }
}

/// Does an operation that changes no table: false where it would change one.
#[tactic(auto, using(crate::proofs::QuietReads::reads_quiet))]
pub fn operate_quietly<R: Reads>(
    tables: &Tables,
    context: &mut Context,
    p: &Input<R>,
    operation: &Operation,
) -> bool
    ensures done { OnTrue result (DoesQuietly p.now (operation_of operation.now)
        tables.now context.old context.new) }
    ensures writes { OnFalse result (Writes p.now (operation_of operation.now)
        tables.now context.old) }
    ensures room { length context.new.vars ≡ length context.old.vars }
{
    match operation {
        Operation::Touch { var } => {
            let at = context.vars.at(*var);
            !restamps(tables, p.time(), at)
        }
        Operation::Free { var } => context.vars.at(*var).is_none(),
        Operation::Set { field, given: g } => {
            let v = given(tables, context, p, g);
            context.edits.set(*field, v);
            true
        }
        Operation::Write {
            var,
            column,
            given: g,
        } => {
            let v = given(tables, context, p, g);
            let at = context.vars.at(*var);
            !rewrites(tables, at, *column, v)
        }
        Operation::Store {
            array,
            at,
            given: g,
            ..
        } => {
            let i = narrowed(Width::W16, value(tables, context, p, at));
            let v = given(tables, context, p, g);
            !differs(v, tables.array_cell(*array, i))
        }
    }
}

/// Whether a question hits: nothing that it reads is changed.
#[tactic(auto, using(crate::proofs::QuietReads::asked_quiet))]
pub fn ask_quietly<R: Reads>(
    tables: &Tables,
    context: &mut Context,
    p: &Input<R>,
    question: &Question,
) -> bool
    requires over { fixed_of tables.now ≡ fixed_in p.now }
    requires fits { QuestionFits (question_of question.now) }
    requires room { length context.old.vars + bound_by (question_of question.now) ≤ 32 }
    ensures answers { Answers result tables.now context.old context.new
        (λ c. answer (input_of p.now) c (question_of question.now)) }
    ensures told { IsToldAsked p.now (question_of question.now) tables.now context.old }
    ensures room { let more = bound_by (question_of question.now) in
        length context.new.vars ≤ length context.old.vars + more }
{
    ask(tables, context, p, question)
}

/// Why a `new` makes no entry: None where it would make one.
pub fn make_quietly<R: Reads>(
    tables: &Tables,
    context: &Context,
    p: &Input<R>,
    creation: &Creation,
) -> Option<Refusal>
    requires over { fixed_of tables.now ≡ fixed_in p.now }
    requires whole { tables.now.share.of ≡ 1 }
    requires fits { CreationFits p.now.decls (creation_of creation.now) }
    ensures result { IfSome result (λ r.
        IsRefused r p.now (creation_of creation.now) tables.now context.now) }
    ensures told { IfSome result (λ _.
        IsToldRefused p.now (creation_of creation.now) tables.now context.now) }
    ensures makes { IfNone result (
        MakesSome p.now (creation_of creation.now) tables.now context.now) }
{
    let labels = labels_of(tables, context, p, creation.labels.as_slice());
    if tables.is_taken(creation.chain, labels.as_slice()) {
        Some(Refusal::Taken)
    } else if tables.is_full(creation.chain) {
        Some(Refusal::Full)
    } else {
        None
    }
}

/// Runs a block in its context until it would write: None where it would.
///
/// It goes along the statements in a loop, and calls itself for nested blocks alone.
pub fn exec_quietly<R: Reads>(
    tables: &Tables,
    context: &mut Context,
    p: &Input<R>,
    block: &Block,
) -> Option<Flow>
    requires over { fixed_of tables.now ≡ fixed_in p.now }
    requires whole { tables.now.share.of ≡ 1 }
    requires fits { BlockFits p.now.decls (block_of block.now) }
    requires room { length context.old.vars + lookups (block_of block.now) ≤ 32 }
    ensures goes { IfSome result (λ flow. GoesQuietly flow p.now (block_of block.now)
        tables.now context.old context.new) }
    ensures told { IfSome result (λ flow. IsToldQuiet flow p.now (block_of block.now)
        tables.now context.old context.new) }
    ensures writes { IfNone result (WritesSome p.now (block_of block.now)
        tables.now context.old) }
    ensures room { IfSome result (λ _.
        length context.new.vars ≤ length context.old.vars + lookups (block_of block.now)) }
{
    let mut rest = block;
    loop {
        match rest {
            Block::End(ending) => return Some(end(tables, context, p, ending)),
            Block::Do { operation, next } => {
                if !operate_quietly(tables, context, p, operation) {
                    return None;
                }
                rest = next;
            }
            Block::Ask {
                question,
                hit,
                miss,
                next,
            } => {
                let inner: &Block = if ask_quietly(tables, context, p, question) {
                    hit
                } else {
                    miss
                };
                match exec_quietly(tables, context, p, inner)? {
                    Flow::Falls => rest = next,
                    ended => return Some(ended),
                }
            }
            Block::Make {
                creation,
                taken,
                full,
                next,
                ..
            } => {
                let inner: &Block = match make_quietly(tables, context, p, creation)? {
                    Refusal::Taken => taken,
                    Refusal::Full => full,
                };
                match exec_quietly(tables, context, p, inner)? {
                    Flow::Falls => rest = next,
                    ended => return Some(ended),
                }
            }
        }
    }
}
