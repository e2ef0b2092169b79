// One worker handles all packets, in their order.
ghost use Rattle.std.specs.Prelude.{◌≡◌, ◌<◌, ◌≤◌, [], length, map, All, Some, IfOk};
ghost use Rattle.nf_base.specs.Doors.{IsServed};
ghost use Rattle.nf_base.specs.Functions.{function_of};
ghost use Rattle.nf_base.specs.Step.{step, opening};
ghost use Rattle.nf_engine.specs.View.{fixed_of};
ghost use Rattle.lock_core.specs.Histories.{Runs};
ghost use Rattle.lock_log.specs.Turns.{ordered_by};
ghost use Rattle.lock_workers.specs.RunResult.{AreInOrder};

use lock_core::Way;
use lock_log::{CallLog, Order};
use nf_base::done::Done;
use nf_base::func::Func;
use nf_base::packet::Packet;
use nf_engine::{Handled, handle};
use std::alloc::{AllocError, Global};
use vig_tables::Tables;

// Handles a packet in tables with the whole share, which is never full: a handler goes on in its
// `full` block there.
fn handle_whole(tables: &mut Tables, func: &Func, packet: &Packet) -> Done
    requires of_func { tables.old.decls ≡ func.now.chains }
    requires whole { tables.old.share.of ≡ 1 }
    requires port { packet.now.id.port < length func.now.handlers }
    requires served { IsServed (function_of func.now) packet.now }
    ensures steps { step (function_of func.now) tables.old.state packet.now result.picks
        ≡ Some (record { state = tables.new.state; done = result }) }
    ensures same { fixed_of tables.new ≡ fixed_of tables.old }
{
    match handle(tables, func, packet) {
        Handled::Done(done) => done,
        Handled::ShareFull(_) => unreachable!(),
    }
}

// Handles packets in their order, and puts what they came to into a log of calls.
fn handle_each(log: &mut CallLog, func: &Func, tables: &mut Tables, packets: &[Packet])
    requires none { log.old.calls ≡ [] }
    requires room { length packets.now ≤ log.old.room }
    requires of_func { tables.old.decls ≡ func.now.chains }
    requires whole { tables.old.share.of ≡ 1 }
    requires opens { tables.old.state ≡ opening (function_of func.now) }
    requires ports { All (λ p. p.id.port < length func.now.handlers) packets.now }
    requires served { All (IsServed (function_of func.now)) packets.now }
    ensures runs { let order = map (ordered_by 0) log.new.calls in
        Runs (function_of func.now) order tables.new.state }
    ensures all { AreInOrder packets.now (map (ordered_by 0) log.new.calls) }
{
    for i in 0..packets.len() {
        let packet = &packets[i];
        let done = handle_whole(tables, func, packet);
        log.push(Way::Alone, i as u64, packet, &done);
    }
}

/// All packets as one worker handles them, in their order.
///
/// `Err` is for want of memory.
pub(crate) fn handle_all(
    alloc: Global,
    func: &Func,
    tables: &mut Tables,
    packets: &[Packet],
) -> Result<Order, AllocError>
    requires of_func { tables.old.decls ≡ func.now.chains }
    requires whole { tables.old.share.of ≡ 1 }
    requires opens { tables.old.state ≡ opening (function_of func.now) }
    requires ports { All (λ p. p.id.port < length func.now.handlers) packets.now }
    requires served { All (IsServed (function_of func.now)) packets.now }
    ensures runs { IfOk result (λ order.
        Runs (function_of func.now) order tables.new.state) }
    ensures all { IfOk result (λ order. AreInOrder packets.now order) }
{
    let mut log = CallLog::new(alloc);
    match log.reserve(packets.len()) {
        Ok(()) => {}
        Err(refused) => return Err(refused),
    }
    handle_each(&mut log, func, tables, packets);
    Order::of_one(alloc, log)
}
