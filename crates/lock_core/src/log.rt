//! The machine.
ghost use Rattle.std.specs.Prelude.{◌≡◌, ◌<◌, ◌++◌, ◌∷◌, [], ◌↔◌, IsTrue, IfOk, OnErr, length};
ghost use Rattle.std.specs.Vec.{vec_len, vec_capacity};
ghost use Rattle.std.proofs.Props.{props};
ghost use Rattle.nf_base.specs.Functions.{function_of};
ghost use Rattle.lock_core.specs.declared.call.Event.TheVariants as event;
ghost use Rattle.lock_core.specs.Calls.{history, seen_by};
ghost use Rattle.lock_core.specs.Events.{ComesTo, IsValid, IsValidLook, IsValidAlone, Answers, with_event, AreValid, PlaysAll, PlaysFirst};
ghost use Rattle.lock_core.specs.Steps.{AreIn, AreIn-prop};

use crate::call::{Event, Ordered, Placed, Way};
use crate::done::again;
use crate::order::{place_behind, seen_by};
use crate::tables::{WHOLE, is_served, sight};
use nf_base::func::Func;
use nf_base::packet::Packet;
use nf_engine::{Look, handle_whole};
use std::alloc::{AllocError, Global};
use vig_tables::Tables;

/// What the seats of one function have done, as one order.
#[derive(Drop)]
pub struct Log {
    func: Func,
    seats: u32,
    /// Where the history ends.
    tables: Tables,
    /// How many entries the history has.
    entries: u64,
    order: Vec<Ordered>,
    ghost decls: { tables.decls ≡ func.chains },
    ghost whole: { tables.share.of ≡ 1 },
    ghost comes: { ComesTo (function_of func) (history order.items) tables.state } by { Prim.hlevel props },
    ghost long: { entries ≡ length (history order.items) },
    ghost packets: { AreIn (function_of func) order.items } by { AreIn-prop (function_of func) order.items },
}

impl Log {
    ghost use Rattle.lock_core.specs.Logs.{state_in, with_order, GoesOn};

    /// Seats that have done nothing yet.
    pub fn new(alloc: Global, func: &Func, seats: u32) -> Result<Log, AllocError>
        ensures { let f = function_of func.now in IfOk result (λ log.
            state_in log ≡ record { function = f; seats = seats; order = [] }) }
    {
        let tables = Tables::new(alloc, func, WHOLE)?;
        let func = func.copy(alloc)?;
        Ok(Log {
            func,
            seats,
            tables,
            entries: 0,
            order: Vec::new(alloc),
        })
    }

    /// What was done, in one order, in which each look stands behind as many entries as it saw.
    pub fn order(&self) -> &[Ordered]
        ensures { result.now ≡ (state_in self.now).order }
    {
        self.order.as_slice()
    }

    /// How many entries of the history a seat has seen.
    pub fn seen(&self, seat: u32) -> u64
        ensures { result ≡ seen_by seat (state_in self.now).order }
    {
        seen_by(self.order.as_slice(), seat)
    }

    /// Whether an event may come now.
    pub fn is_valid(&self, alloc: Global, event: &Event) -> Result<bool, AllocError>
        ensures { let log = state_in self.now in IfOk result (λ valid.
            IsTrue valid ↔ IsValid log.function log.seats log.order event.now) }
    {
        match event {
            Event::Look {
                seat,
                prefix,
                packet,
            } => self.may_look(alloc, *seat, *prefix, packet),
            Event::Alone { seat, packet } => Ok(self.may_alone(*seat, packet)),
        }
    }

    fn may_alone(&self, seat: u32, packet: &Packet) -> bool
        ensures { let log = state_in self.now in
            IsTrue result ↔ IsValidAlone log.function log.seats seat packet.now }
    {
        seat < self.seats
            && packet.id.port < self.func.handlers.len()
            && is_served(&self.func, packet)
    }

    fn may_look(
        &self,
        alloc: Global,
        seat: u32,
        prefix: u64,
        packet: &Packet,
    ) -> Result<bool, AllocError>
        ensures { let log = state_in self.now in IfOk result (λ valid.
            IsTrue valid ↔ IsValidLook log.function log.seats log.order seat prefix packet.now) }
    {
        if !self.may_alone(seat, packet) || prefix < self.seen(seat) || self.entries < prefix {
            return Ok(false);
        }
        let seen = sight(alloc, &self.func, self.order.as_slice(), prefix, packet)?;
        Ok(matches!(seen, Look::Done(_)))
    }

    /// Plays events, each of which may come when it comes.
    ///
    /// Where memory runs out, the events before the one that is refused are played.
    pub fn play(&mut self, alloc: Global, events: &[Event]) -> Result<Vec<Placed>, AllocError>
        requires valid { let old = state_in self.old in
            AreValid old.function old.seats old.order events.now }
        ensures ok { let old = state_in self.old in let new = state_in self.new in
            IfOk result (λ placed.
            PlaysAll old.function old.seats old.order events.now placed.items new.order) }
        ensures one_history { let old = state_in self.old in let new = state_in self.new in
            IfOk result (λ placed. GoesOn old events.now placed.items new) }
        ensures err { let old = state_in self.old in let new = state_in self.new in OnErr result (
            PlaysFirst old.function old.seats old.order events.now new.order) }
        ensures same { let old = state_in self.old in let new = state_in self.new in
            new ≡ with_order new.order old }
    {
        let mut all = Vec::new(alloc);
        for event in events {
            all.reserve(1)?;
            let placed = self.play_one(alloc, event)?;
            put(&mut all, placed);
        }
        Ok(all)
    }

    fn play_one(&mut self, alloc: Global, event: &Event) -> Result<Placed, AllocError>
        requires valid { let old = state_in self.old in
            IsValid old.function old.seats old.order event.now }
        ensures answers { let old = state_in self.old in IfOk result (λ placed.
            Answers old.function old.order event.now placed) }
        ensures order { let old = state_in self.old in IfOk result (λ placed.
            state_in self.new ≡ with_order (with_event event.now placed.done old.order) old) }
        ensures same { OnErr result (state_in self.new ≡ state_in self.old) }
    {
        match event {
            Event::Look {
                seat,
                prefix,
                packet,
            } => self.play_look(alloc, *seat, *prefix, packet),
            Event::Alone { seat, packet } => self.play_alone(*seat, packet),
        }
    }

    fn play_look(
        &mut self,
        alloc: Global,
        seat: u32,
        prefix: u64,
        packet: &Packet,
    ) -> Result<Placed, AllocError>
        requires valid { let old = state_in self.old in
            IsValidLook old.function old.seats old.order seat prefix packet.now }
        ensures answers { let old = state_in self.old in IfOk result (λ placed.
            Answers old.function old.order (event.Look seat prefix packet.now) placed) }
        ensures order { let old = state_in self.old in
            let event = event.Look seat prefix packet.now in IfOk result (λ placed.
            state_in self.new ≡ with_order (with_event event placed.done old.order) old) }
        ensures same { OnErr result (state_in self.new ≡ state_in self.old) }
    {
        let seen = sight(alloc, &self.func, self.order.as_slice(), prefix, packet)?;
        let done = match seen {
            Look::Done(done) => done,
            Look::NeedsWrite => unreachable!(),
        };
        let place = place_behind(self.order.as_slice(), prefix);
        let looked = Ordered {
            seat,
            way: Way::Look,
            packet: *packet,
            done: again(&done),
        };
        self.order.insert(place, looked)?;
        Ok(Placed {
            place: prefix,
            done,
        })
    }

    fn play_alone(&mut self, seat: u32, packet: &Packet) -> Result<Placed, AllocError>
        requires valid { let old = state_in self.old in
            IsValidAlone old.function old.seats seat packet.now }
        ensures answers { let old = state_in self.old in IfOk result (λ placed.
            Answers old.function old.order (event.Alone seat packet.now) placed) }
        ensures order { let old = state_in self.old in
            let event = event.Alone seat packet.now in IfOk result (λ placed.
            state_in self.new ≡ with_order (with_event event placed.done old.order) old) }
        ensures same { OnErr result (state_in self.new ≡ state_in self.old) }
    {
        self.order.reserve(1)?;
        let done = handle_whole(&mut self.tables, &self.func, packet);
        let place = self.entries;
        self.entries += 1;
        let handled = Ordered {
            seat,
            way: Way::Alone,
            packet: *packet,
            done: again(&done),
        };
        put(&mut self.order, handled);
        Ok(Placed { place, done })
    }
}

/// Appends to a list that has room.
fn put<T: Drop>(items: &mut Vec<T>, x: T)
    requires room { vec_len items.old < vec_capacity items.old }
    ensures { items.new.items ≡ items.old.items ++ x ∷ [] }
{
    match items.push(x) {
        Ok(()) => {}
        Err(_) => unreachable!(),
    }
}
