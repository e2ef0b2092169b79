// Events of shards, one after another.
ghost use Rattle.std.specs.Prelude.{◌≡◌, ◌≤◌, ◌<◌, ◌+◌, ℕ, [], ◌∷◌, ◌++◌, length, IfOk, OnOk, OnErr, All, option_to_list};
ghost use Rattle.std.specs.Vec.{vec_len, vec_capacity};
ghost use Rattle.shard_machine.specs.Machine.{Setup, Machine};
ghost use Rattle.shard_core.specs.Sharded.{StandsFor, IsWhole};
ghost use Rattle.shard_core.specs.Plays.{IsValid, Played, PlayedFront, SameSize};

use crate::collected::Collected;
use crate::shards::Shards;
use shard_machine::Event;
use std::alloc::{AllocError, Global};

impl Shards {
    /// Plays events, one after another, and answers what was collected.
    ///
    /// After an `Err` the events up to the one that was refused were played.
    pub fn play(&mut self, alloc: Global, events: &[Event]) -> Result<Vec<Collected>, AllocError>
        requires whole { IsWhole self.old }
        requires valid { All (IsValid self.old.func (length self.old.workers)) events.now }
        ensures size { SameSize self.old self.new }
        ensures stands { (x : Setup) → (m : Machine) → StandsFor x m self.old →
            IfOk result (λ got. Played x m events.now got.items self.new) }
        ensures front { (x : Setup) → (m : Machine) → StandsFor x m self.old →
            OnErr result (PlayedFront x m events.now self.new) }
    {
        let mut got = Vec::with_capacity(alloc, events.len())?;
        self.play_into(events, &mut got)?;
        Ok(got)
    }

    fn play_into(&mut self, events: &[Event], got: &mut Vec<Collected>) -> Result<(), AllocError>
        requires whole { IsWhole self.old }
        requires valid { All (IsValid self.old.func (length self.old.workers)) events.now }
        requires none { got.old.items ≡ [] }
        requires room { vec_len got.old + length events.now ≤ vec_capacity got.old }
        ensures size { SameSize self.old self.new }
        ensures stands { (x : Setup) → (m : Machine) → StandsFor x m self.old →
            OnOk result (Played x m events.now got.new.items self.new) }
        ensures front { (x : Setup) → (m : Machine) → StandsFor x m self.old →
            OnErr result (PlayedFront x m events.now self.new) }
    {
        for i in 0..events.len() {
            match self.play_one(&events[i]) {
                Ok(one) => keep(got, one),
                Err(fault) => return Err(fault),
            }
        }
        Ok(())
    }

    /// Plays one event, and answers what was collected.
    fn play_one(&mut self, event: &Event) -> Result<Option<Collected>, AllocError>
        requires whole { IsWhole self.old }
        requires valid { IsValid self.old.func (length self.old.workers) event.now }
        ensures stands { (x : Setup) → (m : Machine) → StandsFor x m self.old →
            IfOk result (λ got. Played x m (event.now ∷ []) (option_to_list got) self.new) }
        ensures stays { (x : Setup) → (m : Machine) → StandsFor x m self.old →
            OnErr result (StandsFor x m self.new) }
        ensures same { SameSize self.old self.new }
    {
        match event {
            Event::Dispatch(packet) => match self.dispatch(*packet) {
                Ok(()) => Ok(None),
                Err(fault) => Err(fault),
            },
            Event::Work(w) => {
                self.work(*w);
                Ok(None)
            }
            Event::Collect => Ok(self.collect()),
        }
    }
}

/// Puts what was collected behind the rest, where something was.
fn keep(got: &mut Vec<Collected>, one: Option<Collected>)
    requires { vec_len got.old < vec_capacity got.old }
    ensures items { got.new.items ≡ got.old.items ++ option_to_list one }
    ensures len { vec_len got.new ≤ vec_len got.old + 1 }
    ensures capacity { vec_capacity got.new ≡ vec_capacity got.old }
{
    match one {
        Some(collected) => got.push_reserved(collected),
        None => {}
    }
}
