// The interpreter over whole packets.
ghost use Rattle.std.specs.Prelude.{◌≡◌, ◌<◌, length, IfOk, OnErr, Some, IsSome, false};
ghost use Rattle.nf_base.specs.Step.{step, recorded, skipped, opening};
ghost use Rattle.nf_base.specs.Record.{answers_full};
ghost use Rattle.nf_base.specs.declared.state.State as states;
ghost use Rattle.nf_base.specs.Doors.{IsServed};
ghost use Rattle.nf_base.specs.Functions.{function_of};
ghost use Rattle.nf_meaning.specs.Answers.{Answers};

use crate::fault::StepFault;
use crate::handling::{Step, skipped, step_at_least, step_with};
use crate::opening::{opening_arrays, opening_chains};
use nf_base::done::Done;
use nf_base::func::Func;
use nf_base::packet::Packet;
use nf_base::picks::Picks;
use nf_base::state::State;
use std::alloc::{AllocError, Global};
use std::marker::Model;

/// The plain interpreter: what a function remembers, in one list of indices for each chain.
/// Contracts see it as that state.
#[derive(Drop)]
pub struct Undivided {
    /// What the packets so far left.
    state: State,
}

/// What the handling of a packet with given choices came to.
#[derive(Debug, Drop)]
pub struct Handled {
    pub done: Done,
    /// Whether some `new` found each index of its chain with an entry.
    pub full: bool,
}

impl Model for Undivided {
    ghost use Rattle.nf_base.specs.declared.state.State as states;

    ghost Value = { states.State };

    ghost view = { λ a. a.state };
}

impl Undivided {
    /// The state in which nothing was handled yet.
    pub fn new(alloc: Global, func: &Func) -> Result<Undivided, AllocError>
        ensures { IfOk result (λ u. u ≡ opening (function_of func.now)) }
    {
        let chains = opening_chains(alloc, func.chains.as_slice())?;
        let arrays = opening_arrays(alloc, func.arrays.as_slice())?;
        Ok(Undivided {
            state: State { chains, arrays },
        })
    }

    /// What is remembered.
    pub fn state(&self) -> &State
        ensures { result.now ≡ self.now }
    {
        &self.state
    }

    /// What is remembered, in place of the interpreter.
    pub fn finish(self) -> State
        ensures { result ≡ self }
    {
        let Undivided { state } = self;
        state
    }

    /// Handles one packet with these choices: the indices of the entries that it makes, in order.
    ///
    /// `BadChoice` comes exactly where the packet has no step with them, `Memory` where the
    /// allocator gave none. After an `Err` nothing is changed.
    pub fn packet(
        &mut self,
        alloc: Global,
        func: &Func,
        packet: &Packet,
        picks: &Picks,
    ) -> Result<Handled, StepFault>
        ensures step { Answers result self.new
            (step (function_of func.now) self.old packet.now picks.now) }
        ensures full { IfOk result (λ handled.
            handled.full
            ≡ answers_full (recorded (function_of func.now) self.old packet.now picks.now)) }
        ensures err { OnErr result (self.new ≡ self.old) }
    {
        let Some(fields) = packet.fields else {
            return skip_with(picks);
        };
        let Step { state, done, full } = step_with(
            alloc,
            func,
            &self.state,
            packet,
            fields,
            picks,
        )?;
        self.state = state;
        Ok(Handled { done, full })
    }

    /// Handles one packet with choices that the interpreter takes itself: they stand in the answer.
    ///
    /// After an `Err` nothing is changed.
    pub fn handle(
        &mut self,
        alloc: Global,
        func: &Func,
        packet: &Packet,
    ) -> Result<Done, AllocError>
        requires served { IsServed (function_of func.now) packet.now }
        ensures step { IfOk result (λ done.
            step (function_of func.now) self.old packet.now done.picks
            ≡ Some (record { state = self.new; done = done })) }
        ensures err { OnErr result (self.new ≡ self.old) }
    {
        let Some(fields) = packet.fields else {
            return Ok(skipped());
        };
        let Step {
            state,
            done,
            full: _,
        } = step_at_least(alloc, func, &self.state, packet, fields)?;
        self.state = state;
        Ok(done)
    }

    /// Choices with which the packet has a step.
    pub fn pick(&self, alloc: Global, func: &Func, packet: &Packet) -> Result<Picks, AllocError>
        requires served { IsServed (function_of func.now) packet.now }
        ensures legal { IfOk result (λ picks.
            IsSome (step (function_of func.now) self.now packet.now picks)) }
    {
        let Some(fields) = packet.fields else {
            return Ok(Picks::new());
        };
        let step = step_at_least(alloc, func, &self.state, packet, fields)?;
        Ok(step.done.picks)
    }
}

/// A packet that no handler sees takes no choice.
fn skip_with(picks: &Picks) -> Result<Handled, StepFault>
    ensures answers { (s : states.State) → Answers result s (skipped s picks.now) }
    ensures full { IfOk result (λ handled. handled.full ≡ false) }
{
    if picks.len() == 0 {
        Ok(Handled {
            done: skipped(),
            full: false,
        })
    } else {
        Err(StepFault::BadChoice)
    }
}
