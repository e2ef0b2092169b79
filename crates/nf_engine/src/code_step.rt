// The steps of packets by a function made ready, in place on tables.
ghost use Rattle.std.specs.Prelude.{◌≡◌, ◌<◌, ◌≤◌, length, Some, None, IsSome, false};
ghost use Rattle.nf_base.specs.Doors.{IsServed, handler_at};
ghost use Rattle.nf_base.specs.Functions.{function_of};
ghost use Rattle.nf_base.specs.Shares.{AreOwn, share_stops};
ghost use Rattle.nf_base.specs.Step.{step, step_by};
ghost use Rattle.nf_code.specs.Ready.{Begins};
ghost use Rattle.nf_engine.specs.Handlings.{StopsAt, Runs, completes_for, done_of, IfEnds, IfStops};
ghost use Rattle.nf_engine.specs.Input.{packet_of};
ghost use Rattle.nf_engine.specs.View.{fixed_of};

use crate::code_run::run_code;
use crate::context::{BlockResult, Context, Outcome};
use crate::handling::outcome;
use crate::input::Input;
use crate::reads::Reads;
use nf_base::packet::Door;
use nf_code::code::Code;
use nf_code::ready::Ready;
use vig_tables::Tables;

/// Handles a packet in place as `handle_in` does, by a function made ready.
pub fn handle_ready<R: Reads>(
    tables: &mut Tables,
    func: &Ready,
    packet: &R,
    context: &mut Context,
) -> Outcome
    requires of_func { tables.old.decls ≡ func.now.chains }
    requires port { (R.seen packet.now).id.port < length func.now.handlers }
    requires served { IsServed (function_of func.now) (packet_of (R.seen packet.now)) }
    // It is the undivided step with the indices that were taken, and the share's own step too.
    ensures done { let p = packet_of (R.seen packet.now) in IfEnds result (λ action.
        step (function_of func.now) tables.old.state p context.new.picks
        ≡ Some (record { state = tables.new.state; done = done_of action context.new })) }
    ensures by_share { let p = packet_of (R.seen packet.now) in IfEnds result (λ action.
        step_by (share_stops tables.old.share) (function_of func.now)
        tables.old.state p context.new.picks
        ≡ Some (record { state = tables.new.state; done = done_of action context.new })) }
    ensures own { IfEnds result (λ _. AreOwn tables.old.share context.new.picks) }
    ensures stop { let p = packet_of (R.seen packet.now) in IfStops result (λ chain.
        StopsAt tables.old.share (function_of func.now) tables.old.state p chain) }
    ensures shared { IfStops result (λ _. 2 ≤ tables.old.share.of) }
    ensures stays { fixed_of tables.new ≡ fixed_of tables.old }
{
    let went = run_ready(tables, func, packet, context);
    outcome(went)
}

/// The code of a function, and the place where the handler behind a door begins, where there is
/// one.
pub fn start_of<'x>(func: &'x Ready, door: Door) -> (&'x Code<'x>, usize)
    requires { IsSome (handler_at (function_of func.now) door) }
    ensures { Begins func.now door result.0.now result.1 }
{
    match func.start(door) {
        Some(start) => start,
        // There is one.
        None => unreachable!(),
    }
}

/// Runs the code of a packet's port, after expiry.
fn run_ready<'x, R: Reads>(
    tables: &mut Tables,
    ready: &'x Ready,
    packet: &'x R,
    context: &mut Context,
) -> BlockResult
    requires of_func { tables.old.decls ≡ ready.now.chains }
    requires port { (R.seen packet.now).id.port < length ready.now.handlers }
    requires served { IsServed (function_of ready.now) (packet_of (R.seen packet.now)) }
    ensures runs { let old = tables.old in let seen = R.seen packet.now in
        let meant = completes_for false old.share (function_of ready.now) old.state
        (packet_of seen) seen.fields in
        Runs result context.new false old.share None meant tables.new.state }
    ensures stays { fixed_of tables.new ≡ fixed_of tables.old }
{
    let door = Door {
        port: packet.port(),
        family: packet.family(),
    };
    let (code, start) = start_of(ready, door);
    let func = ready.func();
    let p = Input {
        decls: func.chains.as_slice(),
        ports: func.handlers.len(),
        packet,
        share: tables.share(),
        strict: false,
        choices: None,
    };
    context.clear();
    tables.expire(packet.time());
    run_code(tables, context, &p, code, start)
}
