// The tables and the plain interpreter, side by side.
ghost use Rattle.std.specs.Prelude.{◌≡◌, ◌<◌, length};
ghost use Rattle.nf_base.specs.Doors.{IsServed};
ghost use Rattle.nf_base.specs.Functions.{function_of};
ghost use Rattle.nf_engine.specs.View.{fixed_of};

use crate::engines::traffic::Traffic;
use nf_base::done::Done;
use nf_base::func::Func;
use nf_base::packet::Packet;
use nf_base::picks::Picks;
use nf_base::share::Share;
use nf_base::state::State;
use nf_engine::{Handled, Look, handle, look, replay};
use nf_meaning::fault::StepFault;
use nf_meaning::undivided::Undivided;
use run_history::state_text::state_text;
use std::alloc::{AllocError, Global};
use vig_tables::Tables;

/// Whether both came to the same.
fn is_same(one: &Done, other: &Done) -> bool {
    one.action == other.action
        && one.edits == other.edits
        && one.picks.as_slice() == other.picks.as_slice()
}

/// Whether both states have one text.
fn are_same(alloc: Global, func: &Func, one: &State, other: &State) -> Result<bool, AllocError> {
    let text = state_text(alloc, func, one)?;
    Ok(text.as_slice() == state_text(alloc, func, other)?.as_slice())
}

/// Whether what was seen without a write, if anything, is what a packet came to.
fn was_seen(seen: &Look, done: &Done) -> bool {
    match seen {
        Look::Done(before) => is_same(before, done),
        Look::NeedsWrite => true,
    }
}

/// Looks at a packet and handles it on the tables, and on the other side with the choices that were taken there.
fn handle_both(
    alloc: Global,
    func: &Func,
    tables: &mut Tables,
    plain: &mut Undivided,
    packet: &Packet,
) -> Result<bool, StepFault>
    requires decls { tables.old.decls ≡ func.now.chains }
    requires whole { tables.old.share.of ≡ 1 }
    requires port { packet.now.id.port < length func.now.handlers }
    requires served { IsServed (function_of func.now) packet.now }
    ensures same { fixed_of tables.new ≡ fixed_of tables.old }
{
    let seen = look(tables, func, packet);
    let Handled::Done(done) = handle(tables, func, packet) else {
        return Ok(false);
    };
    if !was_seen(&seen, &done) {
        return Ok(false);
    }
    match plain.packet(alloc, func, packet, &done.picks) {
        Ok(other) => Ok(is_same(&done, &other.done)),
        Err(StepFault::BadChoice) => Ok(false),
        Err(fault) => Err(fault),
    }
}

/// Whether all packets come to the same, with the choices of the tables, and the last states are the same.
pub fn compare(alloc: Global, func: &Func, count: u32) -> Result<bool, StepFault> {
    let mut tables = Tables::new(alloc, func, Share { queue: 0, of: 1 })?;
    let mut plain = Undivided::new(alloc, func)?;
    let mut traffic = Traffic::new();
    for seq in 0..count {
        let packet = traffic.next(func, seq);
        if !handle_both(alloc, func, &mut tables, &mut plain, &packet)? {
            return Ok(false);
        }
    }
    Ok(are_same(alloc, func, &tables.state(alloc)?, &plain.finish())?)
}

/// Replays a packet on the tables with the choices of the other side, and before with one more, which is refused.
fn replay_both(
    alloc: Global,
    func: &Func,
    tables: &mut Tables,
    plain: &mut Undivided,
    packet: &Packet,
) -> Result<bool, StepFault>
    requires decls { tables.old.decls ≡ func.now.chains }
    requires whole { tables.old.share.of ≡ 1 }
    requires port { packet.now.id.port < length func.now.handlers }
    requires served { IsServed (function_of func.now) packet.now }
    ensures same { fixed_of tables.new ≡ fixed_of tables.old }
{
    let picks = plain.pick(alloc, func, packet)?;
    let mut spare = tables.copy(alloc)?;
    if replay(&mut spare, func, packet, &one_more(&picks)).is_some() {
        return Ok(false);
    }
    let Some(done) = replay(tables, func, packet, &picks) else {
        return Ok(false);
    };
    match plain.packet(alloc, func, packet, &picks) {
        Ok(other) => Ok(is_same(&done, &other.done)),
        Err(StepFault::BadChoice) => Ok(false),
        Err(fault) => Err(fault),
    }
}

/// The choices and one that is left over, where there is room for it.
fn one_more(picks: &Picks) -> Picks {
    let mut more = picks.again();
    if more.len() < 16 {
        more.push(0);
    }
    more
}

/// The same with the choices of the other side.
pub fn replay_all(alloc: Global, func: &Func, count: u32) -> Result<bool, StepFault> {
    let mut tables = Tables::new(alloc, func, Share { queue: 0, of: 1 })?;
    let mut plain = Undivided::new(alloc, func)?;
    let mut traffic = Traffic::new();
    for seq in 0..count {
        let packet = traffic.next(func, seq);
        if !replay_both(alloc, func, &mut tables, &mut plain, &packet)? {
            return Ok(false);
        }
    }
    Ok(are_same(alloc, func, &tables.state(alloc)?, &plain.finish())?)
}
