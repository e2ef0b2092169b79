//! What one seat has seen, and its reader, which sees no less.
ghost use Rattle.std.specs.Prelude.{◌≡◌, ◌<◌, ◌≤◌, [], length};
ghost use mathlib.Core.List.{IsPrefix};
ghost use Rattle.left_right.specs.Sides.{view};
ghost use Rattle.nf_base.specs.Doors.{IsServed};
ghost use Rattle.lock_core.specs.Events.{IsLook, IsQuietBehind};
ghost use Rattle.lock_mode.specs.Gates.{Rose};
ghost use Rattle.lock_mode.specs.Looks.{IfDone, IfNeedsWrite, IfRefused};

use crate::gate::Gate;
use crate::history_counter::{Naming, SeenHistory};
use crate::look_result::{LookResult, let_in};
use crate::rule::{Seeing, TableReader};
use nf_base::packet::Packet;
use std::sync::Wait;
use std::thread;

/// A beginning of the history that was seen, and a reader that sees no less.
#[derive(Drop)]
pub struct SeatReader<J: Naming> {
    pub(crate) prefix: SeenHistory<J>,
    pub(crate) reader: TableReader<J>,
    ghost behind: { length prefix ≤ view reader.place },
}

impl<J: Naming> SeatReader<J> {
    /// A reader that has seen nothing.
    pub(crate) fn new(prefix: SeenHistory<J>, reader: TableReader<J>) -> SeatReader<J>
        requires { prefix ≡ [] }
        ensures { result.prefix ≡ [] }
    {
        SeatReader { prefix, reader }
    }
}

/// What was published, if it is no less than was seen: it begins with that.
pub(crate) fn until<J: Naming>(prefix: &SeenHistory<J>, seen: SeenHistory<J>) -> SeenHistory<J>
    requires { length prefix.now ≤ length seen }
    ensures same { result ≡ seen }
    ensures begins { IsPrefix prefix.now seen }
{
    let both = prefix.longer(&seen);
    if both.len() > seen.len() {
        return both;
    }
    seen
}

/// Looks at a packet in the published tables.
pub fn look_by<J: Naming, G: Gate>(
    gate: &mut G,
    seat_reader: SeatReader<J>,
    packet: &Packet,
) -> (SeatReader<J>, LookResult)
    requires port { packet.now.id.port < length J.function.handlers }
    requires served { IsServed J.function packet.now }
    ensures seen { IsPrefix seat_reader.prefix result.0.prefix }
    ensures done { IfDone result.1 (λ done.
        IsLook J.function result.0.prefix packet.now done) }
    ensures needs { IfNeedsWrite result.1 (
        IsQuietBehind J.function result.0.prefix packet.now → ⊥) }
    ensures same { IfRefused result.1 (result.0.prefix ≡ seat_reader.prefix) }
    ensures rises { G.refused gate.old ≤ G.refused gate.new }
    ensures refused { IfRefused result.1 (Rose (G.refused gate.old) (G.refused gate.new)) }
{
    let SeatReader { prefix, reader } = seat_reader;
    match gate.enter(reader) {
        Ok(entry) => {
            let table_copy = entry.get();
            let seen = table_copy.look(packet);
            let prefix = until(&prefix, table_copy.seen());
            let reader = entry.leave();
            (SeatReader { prefix, reader }, let_in(seen))
        }
        Err(reader) => (SeatReader { prefix, reader }, LookResult::Refused),
    }
}

/// A reader of a history that was published. It waits until the reader sees no less.
///
/// It takes no memory. The history was published by this very thread, so that the first look sees
/// it; a reader that has looked is of the writer's table, which no call of `left_right` says.
pub(crate) fn catch_up<J: Naming, R: Wait>(
    rt: &R,
    reader: TableReader<J>,
    prefix: SeenHistory<J>,
) -> SeatReader<J>
    ensures { result.prefix ≡ prefix }
{
    let mut reader = reader;
    for _ in rt.forever() {
        match reader.enter_as::<Seeing>() {
            Ok(entry) => {
                let entries = entry.get().seen().len();
                reader = entry.leave();
                if prefix.len() <= entries {
                    return SeatReader { prefix, reader };
                }
            }
            Err(back) => reader = back,
        }
        thread::yield_now();
    }
    unreachable!()
}
