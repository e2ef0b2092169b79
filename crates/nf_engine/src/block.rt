// How a block goes.
ghost use Rattle.std.specs.Prelude.{◌≡◌, List, [], ℕ};
ghost use Rattle.nf_base.specs.Context as meant;
ghost use Rattle.nf_base.specs.Course.{Ended, sent, ended};
ghost use Rattle.nf_base.specs.Events.{Event, ended_by};
ghost use Rattle.nf_base.specs.Record.{is_quiet};
ghost use Rattle.nf_base.specs.View.{block_of, ending_of, expression_of};
ghost use Rattle.nf_base.specs.Text.{Forward};
ghost use Rattle.nf_engine.specs.Course.{BlockFits, HasRoom, UsesRoom, Goes, IfFalls};
ghost use Rattle.nf_engine.specs.Quiet.{record_after};
ghost use Rattle.nf_engine.specs.View.{context_of, input_of, completion_of, went_of, fixed_of, fixed_in};

use crate::context::{BlockResult, Context, Flow};
use crate::creation::{NewResult, make};
use crate::input::Input;
use crate::operation::operate;
use crate::question::ask;
use crate::reads::Reads;
use crate::values::value;
use nf_base::block::{Block, Ending};
use nf_base::expr::Expr;
use vig_tables::Tables;

/// A packet goes out at a port that there is.
#[inline]
fn sent(ports: u32, port: u128) -> Flow
    ensures goes { (c : meant.Context) → completion_of result c ≡ Ended (sent ports port) c }
    ensures ends { (es : List Event) → record_after result es ≡ [] }
{
    if port < u128::from(ports) {
        Flow::To(port as u32)
    } else {
        Flow::Drop
    }
}

/// Where a packet goes that is sent to a port.
#[tactic(auto, using(crate::proofs::QuietReads::reads_quiet))]
pub fn forward<R: Reads>(tables: &Tables, context: &Context, p: &Input<R>, port: &Expr) -> Flow
    ensures goes { (left : List ℕ)
        → ended (input_of p.now) (context_of tables.now left context.now)
        (Forward (expression_of port.now))
        ≡ completion_of result (context_of tables.now left context.now) }
    ensures quiet { (c : meant.Context) (k : meant.Context → List Event)
        → is_quiet (ended_by (input_of p.now) c (Forward (expression_of port.now)) k)
        ≡ is_quiet (record_after result (k c)) }
{
    sent(p.ports(), value(tables, context, p, port))
}

#[tactic(auto, using(crate::proofs::QuietReads::reads_quiet))]
pub fn end<R: Reads>(tables: &Tables, context: &Context, p: &Input<R>, ending: &Ending) -> Flow
    ensures goes { (left : List ℕ)
        → ended (input_of p.now) (context_of tables.now left context.now) (ending_of ending.now)
        ≡ completion_of result (context_of tables.now left context.now) }
    ensures quiet { (c : meant.Context) (k : meant.Context → List Event)
        → is_quiet (ended_by (input_of p.now) c (ending_of ending.now) k)
        ≡ is_quiet (record_after result (k c)) }
{
    match ending {
        Ending::FallsOff => Flow::Falls,
        Ending::Forward(port) => forward(tables, context, p, port),
        Ending::Flood => Flow::Flood,
        Ending::Discard => Flow::Drop,
    }
}

/// A block that came to its end.
#[inline]
pub fn went(flow: Flow) -> BlockResult
    ensures { result ≡ went_of flow }
{
    match flow {
        Flow::Falls => BlockResult::Falls,
        Flow::Drop => BlockResult::Drop,
        Flow::Flood => BlockResult::Flood,
        Flow::To(port) => BlockResult::To(port),
    }
}

/// Runs a block in its context, in a loop along its statements, calling itself for nested blocks
/// alone.
#[tactic(auto, using(crate::proofs::Ending::goes_to_end))]
pub fn exec<R: Reads>(
    tables: &mut Tables,
    context: &mut Context,
    p: &Input<R>,
    block: &Block,
) -> BlockResult
    requires over { fixed_of tables.old ≡ fixed_in p.now }
    requires fits { BlockFits p.now.decls (block_of block.now) }
    requires room { HasRoom context.old (block_of block.now) }
    ensures goes { Goes result p.now (block_of block.now)
        tables.old context.old tables.new context.new }
    ensures room { IfFalls result (UsesRoom (block_of block.now) context.old context.new) }
    ensures stays { fixed_of tables.new ≡ fixed_of tables.old }
{
    let mut rest = block;
    loop {
        match rest {
            Block::End(ending) => return went(end(tables, context, p, ending)),
            Block::Do { operation, next } => {
                operate(tables, context, p, operation);
                rest = next;
            }
            Block::Ask {
                question,
                hit,
                miss,
                next,
            } => {
                let inner: &Block = if ask(tables, context, p, question) {
                    hit
                } else {
                    miss
                };
                match exec(tables, context, p, inner) {
                    BlockResult::Falls => rest = next,
                    ended => return ended,
                }
            }
            Block::Make {
                creation,
                made,
                taken,
                full,
                next,
            } => {
                let inner: &Block = match make(tables, context, p, creation) {
                    NewResult::Made(_) => made,
                    NewResult::Taken => taken,
                    NewResult::Full => full,
                    NewResult::Illegal => return BlockResult::BadChoice,
                    NewResult::Stopped => return BlockResult::ShareFull(creation.chain),
                };
                match exec(tables, context, p, inner) {
                    BlockResult::Falls => rest = next,
                    ended => return ended,
                }
            }
        }
    }
}
