// How a handler's code goes.
ghost use Rattle.std.specs.Prelude.{◌≡◌, ◌<◌, length};
ghost use Rattle.nf_code.specs.Code.{block_at};
ghost use Rattle.nf_engine.specs.Course.{BlockFits, Goes};
ghost use Rattle.nf_engine.specs.View.{fixed_of, fixed_in};
ghost use Rattle.nf_engine.specs.Ways.{HasWay};

use crate::block::{forward, went};
use crate::context::{BlockResult, Context};
use crate::creation::{NewResult, make};
use crate::input::Input;
use crate::operation::operate;
use crate::question::ask;
use crate::reads::Reads;
use nf_code::code::{Code, Op};
use vig_tables::Tables;

/// Runs code in its context, from a place on to the end of the handler.
#[tactic(auto, using(crate::proofs::Branches::falls, crate::proofs::Ending::goes_to_end))]
pub fn run_code<R: Reads>(
    tables: &mut Tables,
    context: &mut Context,
    p: &Input<R>,
    code: &Code,
    start: usize,
) -> BlockResult
    requires over { fixed_of tables.old ≡ fixed_in p.now }
    requires within { start < length code.now }
    requires fits { BlockFits p.now.decls (block_at code.now start) }
    requires room { HasWay context.old (block_at code.now start) }
    ensures goes { Goes result p.now (block_at code.now start)
        tables.old context.old tables.new context.new }
    ensures stays { fixed_of tables.new ≡ fixed_of tables.old }
{
    let mut at = start;
    'steps: loop {
        match code.op(at) {
            Op::Falls => return BlockResult::Falls,
            Op::Forward(port) => return went(forward(tables, context, p, port)),
            Op::Flood => return BlockResult::Flood,
            Op::Discard => return BlockResult::Drop,
            Op::Do { operation, next } => {
                operate(tables, context, p, operation);
                at = next;
            }
            Op::Ask {
                question,
                hit,
                miss,
            } => {
                at = if ask(tables, context, p, question) {
                    hit
                } else {
                    miss
                };
            }
            Op::Make {
                creation,
                made,
                taken,
                full,
            } => {
                at = match make(tables, context, p, creation) {
                    NewResult::Made(_) => made,
                    NewResult::Taken => taken,
                    NewResult::Full => full,
                    NewResult::Illegal => return BlockResult::BadChoice,
                    NewResult::Stopped => return BlockResult::ShareFull(creation.chain),
                };
            }
        }
    }
}
