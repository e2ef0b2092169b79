// How a handler's code goes where nothing may be written.
ghost use Rattle.std.specs.Prelude.{◌≡◌, ◌+◌, ◌<◌, ◌≤◌, [], length, true, IfSome, IfNone};
ghost use Rattle.nf_base.specs.Chains.{all_none_due, lifetime_of};
ghost use Rattle.nf_base.specs.Doors.{IsServed};
ghost use Rattle.nf_base.specs.Functions.{function_of};
ghost use Rattle.nf_code.specs.Code.{block_at};
ghost use Rattle.nf_engine.specs.Course.{BlockFits};
ghost use Rattle.nf_engine.specs.Input.{packet_of};
ghost use Rattle.nf_engine.specs.Looks.{IsQuietStep, AlwaysWrites};
ghost use Rattle.nf_engine.specs.Quiet.{GoesQuietly, IsToldQuiet, WritesSome};
ghost use Rattle.nf_engine.specs.View.{fixed_of, fixed_in};
ghost use Rattle.nf_engine.specs.Ways.{most_bound};

use crate::block::forward;
use crate::code_step::start_of;
use crate::context::{Context, Flow};
use crate::handling::action_of;
use crate::input::Input;
use crate::quiet_block::{Refusal, ask_quietly, make_quietly, operate_quietly};
use crate::reads::Reads;
use nf_base::done::Action;
use nf_base::packet::Door;
use nf_code::code::{Code, Op};
use nf_code::ready::Ready;
use vig_tables::Tables;

/// Runs code in its context, from a place on, until it would write: None where it would.
#[tactic(auto, using(crate::proofs::Branches::falls))]
pub fn look_code<R: Reads>(
    tables: &Tables,
    context: &mut Context,
    p: &Input<R>,
    code: &Code,
    start: usize,
) -> Option<Flow>
    requires over { fixed_of tables.now ≡ fixed_in p.now }
    requires whole { tables.now.share.of ≡ 1 }
    requires within { start < length code.now }
    requires fits { BlockFits p.now.decls (block_at code.now start) }
    requires room { length context.old.vars + most_bound (block_at code.now start) ≤ 32 }
    ensures goes { IfSome result (λ flow. GoesQuietly flow p.now (block_at code.now start)
        tables.now context.old context.new) }
    ensures told { IfSome result (λ flow. IsToldQuiet flow p.now (block_at code.now start)
        tables.now context.old context.new) }
    ensures writes { IfNone result (WritesSome p.now (block_at code.now start)
        tables.now context.old) }
{
    let mut at = start;
    'steps: loop {
        match code.op(at) {
            Op::Falls => return Some(Flow::Falls),
            Op::Forward(port) => return Some(forward(tables, context, p, port)),
            Op::Flood => return Some(Flow::Flood),
            Op::Discard => return Some(Flow::Drop),
            Op::Do { operation, next } => {
                if !operate_quietly(tables, context, p, operation) {
                    return None;
                }
                at = next;
            }
            Op::Ask {
                question,
                hit,
                miss,
            } => {
                at = if ask_quietly(tables, context, p, question) {
                    hit
                } else {
                    miss
                };
            }
            Op::Make {
                creation,
                taken,
                full,
                ..
            } => {
                at = match make_quietly(tables, context, p, creation)? {
                    Refusal::Taken => taken,
                    Refusal::Full => full,
                };
            }
        }
    }
}

/// Handles a packet without a write as `look` does, by a function made ready, in a context that is
/// kept from packet to packet: None where `look` answers `NeedsWrite`.
///
/// The context's edits are those of the packet where it comes to an action.
pub fn look_ready<R: Reads>(
    tables: &Tables,
    func: &Ready,
    packet: &R,
    context: &mut Context,
) -> Option<Action>
    requires of_func { tables.now.decls ≡ func.now.chains }
    requires whole { tables.now.share.of ≡ 1 }
    requires port { (R.seen packet.now).id.port < length func.now.handlers }
    requires served { IsServed (function_of func.now) (packet_of (R.seen packet.now)) }
    // The step makes no entry, and leaves this very state.
    ensures done { let p = packet_of (R.seen packet.now) in IfSome result (λ action.
        IsQuietStep (function_of func.now) tables.now.state p
        (record { action = action; edits = context.new.edits; picks = [] })) }
    ensures needs { let p = packet_of (R.seen packet.now) in IfNone result
        (AlwaysWrites (function_of func.now) tables.now.state p) }
{
    if tables.any_due(packet.time()) {
        return None;
    }
    look_by(tables, func, packet, context)
}

/// Runs the code of a packet's port until it would write: None where it would.
fn look_by<'x, R: Reads>(
    tables: &Tables,
    ready: &'x Ready,
    packet: &'x R,
    context: &mut Context,
) -> Option<Action>
    requires of_func { tables.now.decls ≡ ready.now.chains }
    requires whole { tables.now.share.of ≡ 1 }
    requires port { (R.seen packet.now).id.port < length ready.now.handlers }
    requires served { IsServed (function_of ready.now) (packet_of (R.seen packet.now)) }
    requires none_due { let lifetimes = lifetime_of tables.now.decls in
        all_none_due (R.seen packet.now).time lifetimes tables.now.state.chains ≡ true }
    ensures done { let p = packet_of (R.seen packet.now) in IfSome result (λ action.
        IsQuietStep (function_of ready.now) tables.now.state p
        (record { action = action; edits = context.new.edits; picks = [] })) }
    ensures needs { let p = packet_of (R.seen packet.now) in IfNone result
        (AlwaysWrites (function_of ready.now) tables.now.state p) }
{
    let door = Door {
        port: packet.port(),
        family: packet.family(),
    };
    let (code, start) = start_of(ready, door);
    let func = ready.func();
    let p = Input {
        decls: func.chains.as_slice(),
        ports: func.handlers.len(),
        packet,
        share: tables.share(),
        strict: false,
        choices: None,
    };
    context.clear();
    let Some(flow) = look_code(tables, context, &p, code, start) else {
        return None;
    };
    Some(action_of(flow))
}
