//! One order, put together of the calls of all seats.
ghost use Rattle.std.specs.Prelude.{◌≡◌, ◌<◌, ◌≤◌, length, replicate, IfOk, IfSome};
ghost use Rattle.std.specs.Bool.{OnTrue};
ghost use Rattle.lock_log.specs.Turns.{in_turn, AreThere};
ghost use Rattle.lock_mode.specs.Seats.{AreAll};
ghost use Rattle.lock_mode.specs.Merging.{HaveSeen, AreTurns, AreTaken, IsBehind, AreMerged, calls_each};

use crate::gate::Gate;
use crate::history_counter::{Naming, SeenHistory};
use crate::seat::Seat;
use lock_core::Way;
use lock_log::{CallLog, Turn};
use std::alloc::{AllocError, Global};

/// The turns of an order, how many calls of each seat stand in it, and how many entries of the history.
#[derive(Drop)]
struct Merge {
    turns: Vec<Turn>,
    taken: Vec<usize>,
    entries: u64,
}

/// How many calls seats have.
fn count_calls<J: Naming, G: Gate + Drop>(seats: &[Seat<J, G>]) -> usize {
    let mut count: usize = 0;
    for seat in seats {
        count = count.saturating_add(seat.calls().len());
    }
    count
}

/// So many zeros.
fn zeros(alloc: Global, count: usize) -> Result<Vec<usize>, AllocError>
    ensures { IfOk result (λ zeros. zeros.items ≡ replicate count 0) }
{
    Ok(vec![in alloc; 0; count]?)
}

/// How many entries stand behind a call, of which there are no more than the last.
fn behind(entries: u64, last: u64, way: Way) -> u64
    requires { entries ≤ last }
    ensures within { result ≤ last }
    ensures behind { IsBehind way entries last result }
{
    match way {
        Way::Look => entries,
        Way::Alone => { if entries < last { entries + 1 } else { last } }
    }
}

impl Merge {
    /// An order in which no call stands yet, with room for all.
    fn new<J: Naming, G: Gate + Drop>(
        alloc: Global,
        seats: &[Seat<J, G>],
        all: &SeenHistory<J>,
    ) -> Result<Merge, AllocError>
        ensures { IfOk result (λ merge. AreTurns J.function all.now seats.now
            merge.turns.items merge.taken.items merge.entries) }
    {
        let turns = Vec::with_capacity(alloc, count_calls(seats))?;
        let taken = zeros(alloc, seats.len())?;
        Ok(Merge {
            turns,
            taken,
            entries: 0,
        })
    }

    /// How the next call of a seat was made, where it stands behind so many entries.
    fn due(&self, calls: &CallLog, at: usize) -> Option<Way> {
        let next = *self.taken.get(at)?;
        let head = calls.head(next)?;
        if head.place == self.entries {
            Some(head.way)
        } else {
            None
        }
    }

    /// A seat whose next call stands behind so many entries, a look before what was handled alone.
    fn next<J: Naming, G: Gate + Drop>(&self, seats: &[Seat<J, G>]) -> Option<usize>
        ensures { IfSome result (λ at. at < length seats.now) }
    {
        let mut found = None;
        for at in 0..seats.len() {
            let seat = &seats[at];
            match self.due(seat.calls(), at) {
                Some(Way::Look) => return Some(at),
                Some(Way::Alone) => found = Some(at),
                None => {}
            }
        }
        found
    }

    /// Puts the next call of a seat behind the order, where it stands behind so many entries. It says
    /// whether it did.
    fn put<J: Naming, G: Gate + Drop>(
        &mut self,
        seats: &[Seat<J, G>],
        all: &SeenHistory<J>,
        at: usize,
    ) -> Result<bool, AllocError>
        requires within { at < length seats.now }
        requires numbered { AreAll J.seats seats.now }
        requires seen { HaveSeen seats.now all.now (length seats.now) }
        requires merged { AreTurns J.function all.now seats.now
            self.old.turns.items self.old.taken.items self.old.entries }
        ensures merged { AreTurns J.function all.now seats.now
            self.new.turns.items self.new.taken.items self.new.entries }
    {
        let seat = &seats[at];
        let next = self.taken[at];
        let Some(head) = seat.calls().head(next) else {
            return Ok(false);
        };
        if head.place != self.entries {
            return Ok(false);
        }
        self.turns.reserve(1)?;
        self.turns.push_reserved(Turn {
            seat: seat.number(),
            number: next as u32,
        });
        self.taken[at] = next + 1;
        self.entries = behind(self.entries, all.len(), head.way);
        Ok(true)
    }

    /// Puts calls behind the order as long as one stands behind so many entries.
    fn put_all<J: Naming, G: Gate + Drop>(
        &mut self,
        seats: &[Seat<J, G>],
        all: &SeenHistory<J>,
    ) -> Result<(), AllocError>
        requires numbered { AreAll J.seats seats.now }
        requires seen { HaveSeen seats.now all.now (length seats.now) }
        requires merged { AreTurns J.function all.now seats.now
            self.old.turns.items self.old.taken.items self.old.entries }
        ensures merged { AreTurns J.function all.now seats.now
            self.new.turns.items self.new.taken.items self.new.entries }
    {
        for _ in 0..u64::MAX {
            let Some(at) = self.next(seats) else {
                return Ok(());
            };
            if !self.put(seats, all, at)? {
                return Ok(());
            }
        }
        Ok(())
    }

    /// Whether all calls of all seats stand in the order.
    fn has_all<J: Naming, G: Gate + Drop>(&self, seats: &[Seat<J, G>]) -> bool
        requires { length self.now.taken.items ≡ length seats.now }
        ensures { OnTrue result (
            AreTaken seats.now self.now.taken.items (length seats.now)) }
    {
        for at in 0..seats.len() {
            let seat = &seats[at];
            if self.taken[at] < seat.calls().len() {
                return false;
            }
        }
        true
    }

    /// Whether all calls of all seats and all entries of the history stand in the order.
    fn is_whole<J: Naming, G: Gate + Drop>(
        &self,
        seats: &[Seat<J, G>],
        all: &SeenHistory<J>,
    ) -> bool
        requires { length self.now.taken.items ≡ length seats.now }
        ensures { OnTrue result ((self.now.entries ≡ length all.now)
            × AreTaken seats.now self.now.taken.items (length seats.now)) }
    {
        self.entries == all.len() && self.has_all(seats)
    }

    /// The turns, where all calls and all entries stand in their order.
    fn into_turns<J: Naming, G: Gate + Drop>(
        self,
        seats: &[Seat<J, G>],
        all: &SeenHistory<J>,
    ) -> Result<Vec<Turn>, AllocError>
        requires seen { HaveSeen seats.now all.now (length seats.now) }
        requires merged { AreTurns J.function all.now seats.now
            self.turns.items self.taken.items self.entries }
        ensures there { IfOk result (λ turns. AreThere (calls_each seats.now) turns.items) }
        ensures merged { IfOk result (λ turns. AreMerged J.function all.now seats.now
            (in_turn (calls_each seats.now) turns.items)) }
    {
        if !self.is_whole(seats, all) {
            return Err(AllocError);
        }
        let Merge {
            turns,
            taken: _taken,
            entries: _entries,
        } = self;
        Ok(turns)
    }
}

/// The turns of all calls of all seats in one order.
///
/// `Err` is for want of memory, or where they are not the whole history.
pub(crate) fn merged<J: Naming, G: Gate + Drop>(
    alloc: Global,
    seats: &[Seat<J, G>],
    all: &SeenHistory<J>,
) -> Result<Vec<Turn>, AllocError>
    requires numbered { AreAll J.seats seats.now }
    requires seen { HaveSeen seats.now all.now (length seats.now) }
    ensures there { IfOk result (λ turns. AreThere (calls_each seats.now) turns.items) }
    ensures merged { IfOk result (λ turns. AreMerged J.function all.now seats.now
        (in_turn (calls_each seats.now) turns.items)) }
{
    let mut merge = Merge::new(alloc, seats, all)?;
    merge.put_all(seats, all)?;
    merge.into_turns(seats, all)
}
