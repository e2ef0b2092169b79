//! With what a worker handles its packets.
ghost use Rattle.std.specs.Prelude.{◌≡◌, ◌<◌, [], length, IfSome};
ghost use Rattle.nf_base.specs.Doors.{IsServed};
ghost use Rattle.nf_base.specs.Functions.{function_of};
ghost use Rattle.nf_base.specs.Step.{no_edits};
ghost use Rattle.nf_engine.specs.View.{fixed_of};
ghost use Rattle.ring_line.specs.Handled.{HandledBy};
ghost use Rattle.ring_line.specs.FunctionRunners.{IsFunctionRunnerOf, told, come_to};

use nf_base::done::{Action, Edits};
use nf_base::func::Func;
use nf_base::packet::Packet;
use nf_base::picks::Picks;
use nf_code::ready::Ready;
use nf_engine::{Context, Outcome, PacketFields, handle_in, handle_ready};
use std::alloc::Global;
use vig_tables::Tables;

/// A function made ready, where there was memory for that, and a context that is kept from packet to
/// packet.
#[derive(Drop)]
pub struct FunctionRunner<'x> {
    ready: Option<Ready<'x>>,
    context: Context,
}

// What a packet came to that is not skipped.
#[inline]
fn told(outcome: Outcome) -> Result<Action, u32>
    ensures { result ≡ told outcome }
{
    match outcome {
        Outcome::Drop => Ok(Action::Drop),
        Outcome::Flood => Ok(Action::Flood),
        Outcome::To(port) => Ok(Action::To(port)),
        Outcome::ShareFull(chain) => Err(chain),
    }
}

impl<'x> FunctionRunner<'x> {
    /// One that handles by a function's text.
    pub fn by_text() -> FunctionRunner<'x>
        ensures { result.ready ≡ None }
    {
        FunctionRunner {
            ready: None,
            context: Context::new(),
        }
    }

    /// One that handles by a function made ready: where there is no memory for that, by its text.
    pub fn of(alloc: Global, func: &'x Func) -> FunctionRunner<'x>
        ensures { IsFunctionRunnerOf result func.now }
    {
        match Ready::of(alloc, func) {
            Ok(ready) => FunctionRunner {
                ready: Some(ready),
                context: Context::new(),
            },
            Err(_) => FunctionRunner::by_text(),
        }
    }

    /// Handles a packet for which the function has a handler, in place.
    pub fn handle(
        &mut self,
        tables: &mut Tables,
        func: &Func,
        packet: &Packet,
    ) -> Result<Action, u32>
        requires runner { IsFunctionRunnerOf self.old func.now }
        requires of_func { tables.old.decls ≡ func.now.chains }
        requires port { packet.now.id.port < length func.now.handlers }
        requires served { IsServed (function_of func.now) packet.now }
        ensures handles { let share = tables.old.share in let state = tables.old.state in
            HandledBy (function_of func.now) share state packet.now
            (come_to self.new.context result) tables.new.state }
        ensures same { self.new.ready ≡ self.old.ready }
        ensures fixed { fixed_of tables.new ≡ fixed_of tables.old }
    {
        let Some(fields) = &packet.fields else {
            self.skip();
            return Ok(Action::Skip);
        };
        let seen = PacketFields {
            id: packet.id,
            time: packet.time,
            fields,
        };
        match &self.ready {
            Some(ready) => told(handle_ready(tables, ready, &seen, &mut self.context)),
            None => told(handle_in(tables, func, &seen, &mut self.context)),
        }
    }

    /// A packet is skipped: it comes to an action alone.
    pub fn skip(&mut self)
        ensures edits { self.new.context.edits ≡ no_edits }
        ensures picks { self.new.context.picks ≡ [] }
        ensures same { self.new.ready ≡ self.old.ready }
    {
        self.context = Context::new();
    }

    /// The values that the last packet's handler gave to fields of the outgoing frame.
    #[inline]
    pub fn edits(&self) -> &Edits
        ensures { result.now ≡ self.now.context.edits }
    {
        self.context.edits()
    }

    /// The indices of the entries that it made, in order.
    #[inline]
    pub fn picks(&self) -> &Picks
        ensures { result.now ≡ self.now.context.picks }
    {
        self.context.picks()
    }
}
