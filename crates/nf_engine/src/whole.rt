// The steps of packets in tables with the whole share, which is never full.
ghost use Rattle.std.specs.Prelude.{◌≡◌, ◌<◌, length, Some};
ghost use Rattle.nf_base.specs.Doors.{IsServed};
ghost use Rattle.nf_base.specs.Functions.{function_of};
ghost use Rattle.nf_base.specs.Step.{step};
ghost use Rattle.nf_engine.specs.Handlings.{done_of};
ghost use Rattle.nf_engine.specs.Input.{packet_of};
ghost use Rattle.nf_engine.specs.View.{fixed_of};

use crate::code_step::handle_ready;
use crate::context::{Context, Outcome};
use crate::handling::{Handled, handle, handle_in};
use crate::reads::Reads;
use nf_base::done::{Action, Done};
use nf_base::func::Func;
use nf_base::packet::Packet;
use nf_code::ready::Ready;
use vig_tables::Tables;

/// Handles a packet as `handle` does, in tables with the whole share, which is never full: a
/// handler goes on in its `full` block there.
pub fn handle_whole(tables: &mut Tables, func: &Func, packet: &Packet) -> Done
    requires of_func { tables.old.decls ≡ func.now.chains }
    requires whole { tables.old.share.of ≡ 1 }
    requires port { packet.now.id.port < length func.now.handlers }
    requires served { IsServed (function_of func.now) packet.now }
    ensures steps { step (function_of func.now) tables.old.state packet.now result.picks
        ≡ Some (record { state = tables.new.state; done = result }) }
    ensures same { fixed_of tables.new ≡ fixed_of tables.old }
{
    match handle(tables, func, packet) {
        Handled::Done(done) => done,
        // The whole share stops nowhere.
        Handled::ShareFull(_) => unreachable!(),
    }
}

/// Handles a packet as `handle_in` does, in tables with the whole share.
pub fn handle_whole_in<R: Reads>(
    tables: &mut Tables,
    func: &Func,
    packet: &R,
    context: &mut Context,
) -> Action
    requires of_func { tables.old.decls ≡ func.now.chains }
    requires whole { tables.old.share.of ≡ 1 }
    requires port { (R.seen packet.now).id.port < length func.now.handlers }
    requires served { IsServed (function_of func.now) (packet_of (R.seen packet.now)) }
    ensures steps { let p = packet_of (R.seen packet.now) in
        step (function_of func.now) tables.old.state p context.new.picks
        ≡ Some (record { state = tables.new.state; done = done_of result context.new }) }
    ensures same { fixed_of tables.new ≡ fixed_of tables.old }
{
    match handle_in(tables, func, packet, context) {
        Outcome::Drop => Action::Drop,
        Outcome::Flood => Action::Flood,
        Outcome::To(port) => Action::To(port),
        // The whole share stops nowhere.
        Outcome::ShareFull(_) => unreachable!(),
    }
}

/// Handles a packet as `handle_ready` does, in tables with the whole share.
pub fn handle_whole_ready<R: Reads>(
    tables: &mut Tables,
    func: &Ready,
    packet: &R,
    context: &mut Context,
) -> Action
    requires of_func { tables.old.decls ≡ func.now.chains }
    requires whole { tables.old.share.of ≡ 1 }
    requires port { (R.seen packet.now).id.port < length func.now.handlers }
    requires served { IsServed (function_of func.now) (packet_of (R.seen packet.now)) }
    ensures steps { let p = packet_of (R.seen packet.now) in
        step (function_of func.now) tables.old.state p context.new.picks
        ≡ Some (record { state = tables.new.state; done = done_of result context.new }) }
    ensures same { fixed_of tables.new ≡ fixed_of tables.old }
{
    match handle_ready(tables, func, packet, context) {
        Outcome::Drop => Action::Drop,
        Outcome::Flood => Action::Flood,
        Outcome::To(port) => Action::To(port),
        // The whole share stops nowhere.
        Outcome::ShareFull(_) => unreachable!(),
    }
}
