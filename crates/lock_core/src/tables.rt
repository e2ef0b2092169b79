// Tables, made anew along an order.
ghost use Rattle.std.specs.Prelude.{◌≡◌, ◌<◌, ◌↔◌, length, take, Some, IfOk, IsTrue};
ghost use Rattle.nf_base.specs.declared.state.State.{State};
ghost use Rattle.nf_base.specs.Doors.{IsServed};
ghost use Rattle.nf_base.specs.Functions.{function_of};
ghost use Rattle.nf_engine.specs.View.{fixed_of};
ghost use Rattle.nf_engine.specs.Looks.{IfDone, IfNeedsWrite};
ghost use Rattle.lock_core.specs.Calls.{history};
ghost use Rattle.lock_core.specs.Events.{ComesTo, IsLook, IsQuietBehind};
ghost use Rattle.lock_core.specs.Steps.{AreIn};
ghost use Rattle.lock_core.specs.Replays.{StepsAlone, GoesAlone, AreBehind};

use crate::call::{Ordered, Way};
use crate::order::place_behind;
use nf_base::func::Func;
use nf_base::packet::Packet;
use nf_base::share::Share;
use nf_base::value::door_of;
use nf_engine::{Look, look, replay};
use std::alloc::{AllocError, Global};
use vig_tables::Tables;

/// The share of one queue that has all indices.
pub(crate) const WHOLE: Share = Share { queue: 0, of: 1 };

/// Whether a packet is skipped, or its port has a handler for it.
pub fn is_served(func: &Func, packet: &Packet) -> bool
    ensures { IsTrue result ↔ IsServed (function_of func.now) packet.now }
{
    match &packet.fields {
        None => true,
        Some(fields) => func.handler_at(door_of(packet.id.port, fields)).is_some(),
    }
}

// What one packet of an order leaves in tables where the history before it ends.
fn go_on(tables: &mut Tables, func: &Func, x: &Ordered)
    requires of_func { tables.old.decls ≡ func.now.chains }
    requires whole { tables.old.share.of ≡ 1 }
    requires port { x.now.packet.id.port < length func.now.handlers }
    requires served { IsServed (function_of func.now) x.now.packet }
    requires steps { StepsAlone (function_of func.now) tables.old.state x.now.way x.now }
    ensures goes { GoesAlone (function_of func.now) tables.old.state x.now.way x.now tables.new.state }
    ensures same { fixed_of tables.new ≡ fixed_of tables.old }
{
    match x.way {
        Way::Look => {}
        Way::Alone => {
            let done = replay(tables, func, &x.packet, &x.done.picks);
            drop(done);
        }
    }
}

/// The tables where the history of an order ends.
pub(crate) fn replayed(alloc: Global, func: &Func, order: &[Ordered]) -> Result<Tables, AllocError>
    requires comes { (t : State) × ComesTo (function_of func.now) (history order.now) t }
    requires packets { AreIn (function_of func.now) order.now }
    ensures { let f = function_of func.now in
        IfOk result (λ tables. AreBehind f (history order.now) tables) }
{
    let mut tables = Tables::new(alloc, func, WHOLE)?;
    for x in order {
        go_on(&mut tables, func, x);
    }
    Ok(tables)
}

/// A look at a packet in the tables behind so many entries of an order's history.
pub(crate) fn sight(
    alloc: Global,
    func: &Func,
    order: &[Ordered],
    prefix: u64,
    packet: &Packet,
) -> Result<Look, AllocError>
    requires comes { (t : State) × ComesTo (function_of func.now) (history order.now) t }
    requires packets { AreIn (function_of func.now) order.now }
    requires port { packet.now.id.port < length func.now.handlers }
    requires served { IsServed (function_of func.now) packet.now }
    ensures done { let f = function_of func.now in IfOk result (λ seen. IfDone seen (λ done.
        IsLook f (take prefix (history order.now)) packet.now done)) }
    ensures needs { let f = function_of func.now in IfOk result (λ seen. IfNeedsWrite seen (
        IsQuietBehind f (take prefix (history order.now)) packet.now → ⊥)) }
{
    let place = place_behind(order, prefix);
    let tables = replayed(alloc, func, &order[..place])?;
    Ok(look(&tables, func, packet))
}
