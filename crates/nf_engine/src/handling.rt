// The steps of packets, in place on tables.
ghost use Rattle.std.specs.Prelude.{◌≡◌, ◌<◌, ◌≤◌, [], length, Some, None, IsSome, IfSome, IfNone};
ghost use Rattle.nf_base.specs.Doors.{IsServed, handler_at};
ghost use Rattle.nf_base.specs.View.{block_of};
ghost use Rattle.nf_base.specs.Functions.{function_of};
ghost use Rattle.nf_base.specs.Shares.{AreOwn, share_stops};
ghost use Rattle.nf_base.specs.Step.{step, step_by, no_edits};
ghost use Rattle.nf_base.specs.declared.done.Action.TheVariants.{Skip};
ghost use Rattle.nf_engine.specs.Stops.{full_stops, halts};
ghost use Rattle.nf_engine.specs.Handlings.{IfDone, IfShareFull, StopsAt, Runs, completes_for, done_of, end_of, IsChosen, outcome_of, IfEnds, IfStops, handled_of};
ghost use Rattle.nf_engine.specs.Input.{packet_of};
ghost use Rattle.nf_engine.specs.View.{action_of, fixed_of};

use crate::block::exec;
use crate::context::{BlockResult, Context, Flow, Outcome};
use crate::input::Input;
use crate::reads::{PacketFields, Reads};
use nf_base::done::{Action, Done, Edits};
use nf_base::func::Func;
use nf_base::handler::Handler;
use nf_base::packet::{Door, Packet};
use nf_base::picks::Picks;
use vig_tables::Tables;

/// What the handling of a packet came to.
#[derive(Debug, Drop)]
pub enum Handled {
    /// It is done, and the tables hold what it left.
    Done(Done),
    /// It came to a `new` of the chain of this number, no key is taken, and no index of the share
    /// is vacant: the tables are given up.
    ShareFull(u32),
}

/// Handles a packet in place: what is past its lifetime is given up, and the handler of the
/// packet's port runs.
///
/// Each entry that it makes gets an index of the tables' share. It takes no memory. A share that is
/// the whole never stops: where no index is vacant the handler goes on in its `full` block.
pub fn handle(tables: &mut Tables, func: &Func, packet: &Packet) -> Handled
    requires of_func { tables.old.decls ≡ func.now.chains }
    requires port { packet.now.id.port < length func.now.handlers }
    requires served { IsServed (function_of func.now) packet.now }
    // It is the undivided step with the indices that were taken, and the share's own step too.
    ensures done { IfDone result (λ done.
        step (function_of func.now) tables.old.state packet.now done.picks
        ≡ Some (record { state = tables.new.state; done = done })) }
    ensures by_share { let stops = share_stops tables.old.share in IfDone result (λ done.
        step_by stops (function_of func.now) tables.old.state packet.now done.picks
        ≡ Some (record { state = tables.new.state; done = done })) }
    ensures own { IfDone result (λ done. AreOwn tables.old.share done.picks) }
    ensures stop { IfShareFull result (λ chain.
        StopsAt tables.old.share (function_of func.now) tables.old.state packet.now chain) }
    ensures shared { IfShareFull result (λ _. 2 ≤ tables.old.share.of) }
    ensures stays { fixed_of tables.new ≡ fixed_of tables.old }
{
    let Some(fields) = &packet.fields else {
        return Handled::Done(skipped());
    };
    let seen = PacketFields {
        id: packet.id,
        time: packet.time,
        fields,
    };
    let mut context = Context::new();
    let outcome = handle_in(tables, func, &seen, &mut context);
    told(outcome, context)
}

/// Handles a packet in place as `handle` does, in a context that is kept from packet to packet.
///
/// The context's edits and indices are those of the packet where it comes to an action.
pub fn handle_in<R: Reads>(
    tables: &mut Tables,
    func: &Func,
    packet: &R,
    context: &mut Context,
) -> Outcome
    requires of_func { tables.old.decls ≡ func.now.chains }
    requires port { (R.seen packet.now).id.port < length func.now.handlers }
    requires served { IsServed (function_of func.now) (packet_of (R.seen packet.now)) }
    // It is the undivided step with the indices that were taken, and the share's own step too.
    ensures done { let p = packet_of (R.seen packet.now) in IfEnds result (λ action.
        step (function_of func.now) tables.old.state p context.new.picks
        ≡ Some (record { state = tables.new.state; done = done_of action context.new })) }
    ensures by_share { let p = packet_of (R.seen packet.now) in IfEnds result (λ action.
        step_by (share_stops tables.old.share) (function_of func.now)
        tables.old.state p context.new.picks
        ≡ Some (record { state = tables.new.state; done = done_of action context.new })) }
    ensures own { IfEnds result (λ _. AreOwn tables.old.share context.new.picks) }
    ensures stop { let p = packet_of (R.seen packet.now) in IfStops result (λ chain.
        StopsAt tables.old.share (function_of func.now) tables.old.state p chain) }
    ensures shared { IfStops result (λ _. 2 ≤ tables.old.share.of) }
    ensures stays { fixed_of tables.new ≡ fixed_of tables.old }
{
    let went = run(tables, func, packet, false, None, context);
    outcome(went)
}

/// Handles a packet with given choices: None exactly where the share has no step with them, or one
/// of them is not the share's own, and the tables are given up then. It takes no memory.
///
/// Tables with the whole share give None exactly where the choices are not legal.
pub fn replay(tables: &mut Tables, func: &Func, packet: &Packet, picks: &Picks) -> Option<Done>
    requires of_func { tables.old.decls ≡ func.now.chains }
    requires port { packet.now.id.port < length func.now.handlers }
    requires served { IsServed (function_of func.now) packet.now }
    // It is the undivided step, and the share's own step too.
    ensures done { IfSome result (λ done.
        step (function_of func.now) tables.old.state packet.now picks.now
        ≡ Some (record { state = tables.new.state; done = done })) }
    ensures by_share { let stops = share_stops tables.old.share in IfSome result (λ done.
        step_by stops (function_of func.now) tables.old.state packet.now picks.now
        ≡ Some (record { state = tables.new.state; done = done })) }
    ensures own { IfSome result (λ _. AreOwn tables.old.share picks.now) }
    ensures bad { let stops = share_stops tables.old.share in IfNone result (
        AreOwn tables.old.share picks.now
        → step_by stops (function_of func.now) tables.old.state packet.now picks.now ≡ None) }
    ensures whole { IfNone result (
        tables.old.share.of ≡ 1
        → step (function_of func.now) tables.old.state packet.now picks.now ≡ None) }
    ensures stays { fixed_of tables.new ≡ fixed_of tables.old }
{
    replay_by(tables, func, packet, picks, false)
}

/// Handles a packet with given choices on tables with the whole share: None exactly where the
/// choices are not legal, or some `new` with no key taken finds its chain full, and the tables are
/// given up then. It takes no memory.
pub fn replay_granted(
    tables: &mut Tables,
    func: &Func,
    packet: &Packet,
    picks: &Picks,
) -> Option<Done>
    requires of_func { tables.old.decls ≡ func.now.chains }
    requires whole { tables.old.share.of ≡ 1 }
    requires port { packet.now.id.port < length func.now.handlers }
    requires served { IsServed (function_of func.now) packet.now }
    ensures done { IfSome result (λ done.
        step (function_of func.now) tables.old.state packet.now picks.now
        ≡ Some (record { state = tables.new.state; done = done })) }
    // So it is where each `new` of a full chain stops.
    ensures granted { IfSome result (λ done.
        step_by full_stops (function_of func.now) tables.old.state packet.now picks.now
        ≡ Some (record { state = tables.new.state; done = done })) }
    ensures none { IfNone result (
        step_by full_stops (function_of func.now) tables.old.state packet.now picks.now ≡ None) }
    ensures stays { fixed_of tables.new ≡ fixed_of tables.old }
{
    replay_by(tables, func, packet, picks, true)
}

/// Handles a packet with given choices, where a `new` may stop also for the whole share.
fn replay_by(
    tables: &mut Tables,
    func: &Func,
    packet: &Packet,
    picks: &Picks,
    strict: bool,
) -> Option<Done>
    requires of_func { tables.old.decls ≡ func.now.chains }
    requires port { packet.now.id.port < length func.now.handlers }
    requires served { IsServed (function_of func.now) packet.now }
    ensures done { IfSome result (λ done.
        step (function_of func.now) tables.old.state packet.now picks.now
        ≡ Some (record { state = tables.new.state; done = done })) }
    ensures by { let stops = halts strict tables.old.share in IfSome result (λ done.
        step_by stops (function_of func.now) tables.old.state packet.now picks.now
        ≡ Some (record { state = tables.new.state; done = done })) }
    ensures own { IfSome result (λ _. AreOwn tables.old.share picks.now) }
    ensures bad { let stops = halts strict tables.old.share in IfNone result (
        AreOwn tables.old.share picks.now
        → step_by stops (function_of func.now) tables.old.state packet.now picks.now ≡ None) }
    ensures stays { fixed_of tables.new ≡ fixed_of tables.old }
{
    let Some(fields) = &packet.fields else {
        return if picks.len() == 0 {
            Some(skipped())
        } else {
            None
        };
    };
    let seen = PacketFields {
        id: packet.id,
        time: packet.time,
        fields,
    };
    let mut context = Context::new();
    match rerun(tables, func, &seen, picks, strict, &mut context) {
        Some(action) => Some(Done {
            action,
            edits: *context.edits(),
            picks: picks.again(),
        }),
        None => None,
    }
}

/// Handles a packet with given choices, in a context that is kept.
fn rerun<R: Reads>(
    tables: &mut Tables,
    func: &Func,
    packet: &R,
    picks: &Picks,
    strict: bool,
    context: &mut Context,
) -> Option<Action>
    requires of_func { tables.old.decls ≡ func.now.chains }
    requires port { (R.seen packet.now).id.port < length func.now.handlers }
    requires served { IsServed (function_of func.now) (packet_of (R.seen packet.now)) }
    ensures by { let stops = halts strict tables.old.share in
        let p = packet_of (R.seen packet.now) in IfSome result (λ action.
        step_by stops (function_of func.now) tables.old.state p picks.now
        ≡ Some (record { state = tables.new.state; done = record (done_of action context.new) { picks = picks.now } })) }
    ensures own { IfSome result (λ _. AreOwn tables.old.share picks.now) }
    ensures bad { let stops = halts strict tables.old.share in
        let p = packet_of (R.seen packet.now) in IfNone result (
        AreOwn tables.old.share picks.now
        → step_by stops (function_of func.now) tables.old.state p picks.now ≡ None) }
    ensures stays { fixed_of tables.new ≡ fixed_of tables.old }
{
    let went = run(tables, func, packet, strict, Some(picks), context);
    match end_of(went) {
        Some(action) => if context.picks.len() < picks.len() {
            None
        } else {
            Some(action)
        },
        None => None,
    }
}

/// The handler behind a door, where there is one.
pub fn handler_of(func: &Func, door: Door) -> &Handler
    requires { IsSome (handler_at (function_of func.now) door) }
    ensures { handler_at (function_of func.now) door ≡ Some (block_of result.now.block) }
{
    match func.handler_at(door) {
        Some(handler) => handler,
        // There is one.
        None => unreachable!(),
    }
}

/// Runs the handler of a packet's port, after expiry.
fn run<'x, R: Reads>(
    tables: &mut Tables,
    func: &'x Func,
    packet: &'x R,
    strict: bool,
    choices: Option<&'x Picks>,
    context: &mut Context,
) -> BlockResult
    requires of_func { tables.old.decls ≡ func.now.chains }
    requires port { (R.seen packet.now).id.port < length func.now.handlers }
    requires served { IsServed (function_of func.now) (packet_of (R.seen packet.now)) }
    ensures runs { let old = tables.old in let seen = R.seen packet.now in
        let meant = completes_for strict old.share (function_of func.now) old.state
        (packet_of seen) seen.fields in
        Runs result context.new strict old.share choices.entry meant tables.new.state }
    ensures stays { fixed_of tables.new ≡ fixed_of tables.old }
{
    let door = Door {
        port: packet.port(),
        family: packet.family(),
    };
    let handler = handler_of(func, door);
    let p = Input {
        decls: func.chains.as_slice(),
        ports: func.handlers.len(),
        packet,
        share: tables.share(),
        strict,
        choices,
    };
    context.clear();
    tables.expire(packet.time());
    exec(tables, context, &p, &handler.block)
}

/// The action of a handler that came to its end.
fn end_of(went: BlockResult) -> Option<Action>
    ensures { result ≡ end_of went }
{
    match went {
        BlockResult::Falls => Some(Action::Drop),
        BlockResult::Drop => Some(Action::Drop),
        BlockResult::Flood => Some(Action::Flood),
        BlockResult::To(port) => Some(Action::To(port)),
        BlockResult::ShareFull(_) => None,
        BlockResult::BadChoice => None,
    }
}

/// What a handler comes to that was not given choices.
pub fn outcome(went: BlockResult) -> Outcome
    requires { IsChosen went }
    ensures { result ≡ outcome_of went }
{
    match went {
        BlockResult::Falls => Outcome::Drop,
        BlockResult::Drop => Outcome::Drop,
        BlockResult::Flood => Outcome::Flood,
        BlockResult::To(port) => Outcome::To(port),
        BlockResult::ShareFull(chain) => Outcome::ShareFull(chain),
        // No choices are given.
        BlockResult::BadChoice => unreachable!(),
    }
}

/// The same with all that its context holds.
fn told(outcome: Outcome, context: Context) -> Handled
    ensures { result ≡ handled_of outcome context }
{
    match outcome {
        Outcome::Drop => Handled::Done(context.done(Action::Drop)),
        Outcome::Flood => Handled::Done(context.done(Action::Flood)),
        Outcome::To(port) => Handled::Done(context.done(Action::To(port))),
        Outcome::ShareFull(chain) => Handled::ShareFull(chain),
    }
}

/// A handler that falls off its end drops its packet.
pub fn action_of(flow: Flow) -> Action
    ensures { result ≡ action_of flow }
{
    match flow {
        Flow::Falls => Action::Drop,
        Flow::Drop => Action::Drop,
        Flow::Flood => Action::Flood,
        Flow::To(port) => Action::To(port),
    }
}

/// What a packet comes to that no handler sees.
pub fn skipped() -> Done
    ensures { result ≡ record { action = Skip; edits = no_edits; picks = [] } }
{
    Done {
        action: Action::Skip,
        edits: Edits::none(),
        picks: Picks::new(),
    }
}
