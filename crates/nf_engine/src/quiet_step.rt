// Packets that are handled without a write.
ghost use Rattle.std.specs.Prelude.{◌≡◌, ◌<◌, length, Some, true, IfSome, IfNone};
ghost use Rattle.nf_base.specs.Chains.{all_none_due, lifetime_of};
ghost use Rattle.nf_base.specs.Doors.{IsServed};
ghost use Rattle.nf_base.specs.Functions.{function_of};
ghost use Rattle.nf_engine.specs.Input.{packet_of};
ghost use Rattle.nf_engine.specs.Looks.{IfDone, IfNeedsWrite, IsQuietStep, AlwaysWrites};

use crate::context::{Context, Look};
use crate::handling::{action_of, handler_of, skipped};
use crate::input::Input;
use crate::quiet_block::exec_quietly;
use crate::reads::{PacketFields, Reads};
use nf_base::done::Done;
use nf_base::func::Func;
use nf_base::packet::{Door, Packet};
use nf_base::picks::Picks;
use vig_tables::Tables;

/// Handles a packet without a write, in tables with the whole share: `NeedsWrite` exactly where
/// something is past its lifetime, or where with any legal choices an operation of the packet's
/// handler changes something.
///
/// It takes no memory.
pub fn look(tables: &Tables, func: &Func, packet: &Packet) -> Look
    requires of_func { tables.now.decls ≡ func.now.chains }
    requires whole { tables.now.share.of ≡ 1 }
    requires port { packet.now.id.port < length func.now.handlers }
    requires served { IsServed (function_of func.now) packet.now }
    // The step makes no entry, and leaves this very state.
    ensures done { IfDone result (λ done.
        IsQuietStep (function_of func.now) tables.now.state packet.now done) }
    ensures needs { IfNeedsWrite result
        (AlwaysWrites (function_of func.now) tables.now.state packet.now) }
{
    let Some(fields) = &packet.fields else {
        return Look::Done(skipped());
    };
    if tables.any_due(packet.time) {
        return Look::NeedsWrite;
    }
    let seen = PacketFields {
        id: packet.id,
        time: packet.time,
        fields,
    };
    match run(tables, func, &seen) {
        Some(done) => Look::Done(done),
        None => Look::NeedsWrite,
    }
}

/// Runs the handler of a packet's port until it would write: None where it would.
fn run<'x, R: Reads>(tables: &Tables, func: &'x Func, packet: &'x R) -> Option<Done>
    requires of_func { tables.now.decls ≡ func.now.chains }
    requires whole { tables.now.share.of ≡ 1 }
    requires port { (R.seen packet.now).id.port < length func.now.handlers }
    requires served { IsServed (function_of func.now) (packet_of (R.seen packet.now)) }
    requires none_due { let lifetimes = lifetime_of tables.now.decls in
        all_none_due (R.seen packet.now).time lifetimes tables.now.state.chains ≡ true }
    ensures done { let p = packet_of (R.seen packet.now) in IfSome result (λ done.
        IsQuietStep (function_of func.now) tables.now.state p done) }
    ensures needs { let p = packet_of (R.seen packet.now) in IfNone result
        (AlwaysWrites (function_of func.now) tables.now.state p) }
{
    let door = Door {
        port: packet.port(),
        family: packet.family(),
    };
    let handler = handler_of(func, door);
    let p = Input {
        decls: func.chains.as_slice(),
        ports: func.handlers.len(),
        packet,
        share: tables.share(),
        strict: false,
        choices: None,
    };
    let mut context = Context::new();
    let Some(flow) = exec_quietly(tables, &mut context, &p, &handler.block) else {
        return None;
    };
    Some(Done {
        action: action_of(flow),
        edits: *context.edits(),
        picks: Picks::new(),
    })
}
