//! One order of the calls of all seats.
ghost use Rattle.std.specs.Prelude.{◌≡◌, ◌<◌, ◌≤◌, ◌^◌, ◌∷◌, [], List, length, map, slice_get, Some, IfOk};
ghost use Rattle.lock_core.specs.declared.call.Call.{Call};
ghost use Rattle.lock_core.specs.declared.call.Ordered.{Ordered};
ghost use Rattle.short_answers.specs.Answers.{done_told};
ghost use Rattle.lock_log.specs.Notes.{LogState};
ghost use Rattle.lock_log.specs.Turns.{in_turn, ordered_by, calls_of_each, AreThere};

use crate::log::CallLog;
use lock_core::Way;
use short_answers::Told;
use std::alloc::{AllocError, Global};
use std::marker::Model;

/// Whose call is next, and which of its calls.
#[derive(Clone, Copy, Debug, PartialEq, Eq)]
pub struct Turn {
    pub seat: u32,
    /// How many calls of the seat come before it in the seat's order.
    pub number: u32,
}

/// The calls of all seats, and the order in which they stand. Contracts see it as the packets of
/// that order.
#[derive(Drop)]
pub struct Order {
    logs: Vec<CallLog>,
    turns: Vec<Turn>,
}

impl Model for Order {
    ghost use Rattle.std.specs.Prelude.{List};
    ghost use Rattle.lock_core.specs.declared.call.Ordered.{Ordered};
    ghost use Rattle.lock_log.specs.Turns.{in_turn, calls_of_each, AreThere};

    ghost Value = { List Ordered };

    ghost view = { λ o. in_turn (calls_of_each o.logs.items) o.turns.items };

    ghost invariant = { λ o. AreThere (calls_of_each o.logs.items) o.turns.items };
}

// The turns of so many calls of one seat.
fn turns_of_one(alloc: Global, count: usize) -> Result<Vec<Turn>, AllocError>
    requires { count ≤ 2 ^ 32 }
    ensures there { IfOk result (λ turns. (calls : List Call) → length calls ≡ count →
        AreThere (calls ∷ []) turns.items) }
    ensures each { IfOk result (λ turns. (calls : List Call) → length calls ≡ count →
        in_turn (calls ∷ []) turns.items ≡ map (ordered_by 0) calls) }
{
    let mut turns = Vec::with_capacity(alloc, count)?;
    for number in 0..count {
        turns.push(Turn {
            seat: 0,
            number: number as u32,
        })?;
    }
    Ok(turns)
}

impl Order {
    /// The calls of seats in an order, in which each stands there.
    pub fn of(logs: Vec<CallLog>, turns: Vec<Turn>) -> Order
        requires { AreThere (calls_of_each logs.items) turns.items }
        ensures { result ≡ in_turn (calls_of_each logs.items) turns.items }
    {
        Order { logs, turns }
    }

    /// The calls of seat 0 alone, in its order.
    ///
    /// `Err` is for want of memory.
    pub fn of_one(alloc: Global, log: CallLog) -> Result<Order, AllocError>
        ensures { IfOk result (λ order. order ≡ map (ordered_by 0) log.calls) }
    {
        let Ok(turns) = turns_of_one(alloc, log.len()) else {
            return Err(AllocError);
        };
        let mut logs = Vec::new(alloc);
        match logs.push(log) {
            Ok(()) => Ok(Order { logs, turns }),
            Err(_) => Err(AllocError),
        }
    }

    /// How many packets there are.
    pub fn len(&self) -> usize
        ensures { result ≡ length self.now }
    {
        self.turns.len()
    }

    /// The seat that handled the packet at a place.
    pub fn seat(&self, at: usize) -> u32
        requires { at < length self.now }
        ensures { (x : Ordered) → slice_get self.now at ≡ Some x → result ≡ x.seat }
    {
        self.turns[at].seat
    }

    /// How it handled it.
    pub fn way(&self, at: usize) -> Way
        requires { at < length self.now }
        ensures { (x : Ordered) → slice_get self.now at ≡ Some x → result ≡ x.way }
    {
        let turn = self.turns[at];
        let log = &self.logs[turn.seat as usize];
        match log.head(turn.number as usize) {
            Some(head) => head.way,
            None => unreachable!(),
        }
    }

    /// What the packet came to.
    pub fn told(&self, at: usize) -> Told<'_>
        requires { at < length self.now }
        ensures { (x : Ordered) → slice_get self.now at ≡ Some x → done_told result ≡ x.done }
    {
        let turn = self.turns[at];
        let log = &self.logs[turn.seat as usize];
        log.told(turn.number as usize)
    }
}
