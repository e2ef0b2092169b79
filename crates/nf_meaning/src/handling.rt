// The steps of packets, from one state to another.
ghost use Rattle.std.specs.Prelude.{◌≡◌, ℕ, ◌≤◌, ◌<◌, [], List, length, drop, IfOk, IsSome, Some};
ghost use Rattle.nf_base.specs.Doors.{handler_at};
ghost use Rattle.nf_base.specs.Families.{door_of};
ghost use Rattle.nf_base.specs.Functions.{function_of};
ghost use Rattle.nf_base.specs.Operations.{never};
ghost use Rattle.nf_base.specs.Step.{no_edits, start_context, step_of, record_of};
ghost use Rattle.nf_base.specs.Events.{Event};
ghost use Rattle.nf_base.specs.Record.{answers_full};
ghost use Rattle.nf_base.specs.View.{block_of};
ghost use Rattle.nf_base.specs.declared.done.Action.TheVariants.{Skip};
ghost use Rattle.nf_meaning.specs.View.{context_of, action_of};
ghost use Rattle.nf_meaning.specs.Whole.{Starts, Runs, Comes, left_by, handled, told};

use crate::block::exec;
use crate::context::{Context, Flow, Input};
use crate::copies::{copy_arrays, copy_expired};
use crate::fault::StepFault;
use nf_base::done::{Action, Done, Edits};
use nf_base::func::Func;
use nf_base::handler::Handler;
use nf_base::packet::{Fields, Packet};
use nf_base::picks::Picks;
use nf_base::seq::Seq;
use nf_base::state::State;
use nf_base::value::door_of;
use std::alloc::{AllocError, Global};

/// One packet's step: the state after it, and what it answers.
#[derive(Drop)]
pub struct Step {
    pub state: State,
    pub done: Done,
    /// Whether some `new` found no index vacant.
    pub full: bool,
}

/// A handler that came to its end.
#[derive(Drop)]
pub struct Ran {
    pub context: Context,
    pub action: Action,
}

/// What a handler begins with, in a copy of the state.
fn start(alloc: Global, func: &Func, state: &State, time: u64) -> Result<Context, AllocError>
    ensures { IfOk result (λ c. Starts c (start_context (function_of func.now) state.now time)) }
{
    let chains = copy_expired(alloc, time, func.chains.as_slice(), state.chains.as_slice())?;
    let arrays = copy_arrays(alloc, state.arrays.as_slice())?;
    Ok(Context {
        state: State { chains, arrays },
        vars: Seq::new(alloc),
        edits: no_edits(),
        picks: Picks::new(),
        full: false,
    })
}

/// A handler that falls off its end drops its packet.
fn action_of(flow: Flow) -> Action
    ensures { result ≡ action_of flow }
{
    match flow {
        Flow::Falls => Action::Drop,
        Flow::Ends(action) => action,
    }
}

/// Runs the handler of a packet.
fn run(
    alloc: Global,
    func: &Func,
    handler: &Handler,
    state: &State,
    time: u64,
    fields: Fields,
    choices: Option<&Picks>,
) -> Result<Ran, StepFault>
    ensures { Runs result choices.entry
        (handled (function_of func.now) state.now time fields (block_of handler.now.block))
        (told (function_of func.now) state.now time fields (block_of handler.now.block)) }
{
    let p = Input {
        decls: func.chains.as_slice(),
        ports: func.handlers.len(),
        time,
        fields,
        choices,
    };
    let mut context = start(alloc, func, state, time)?;
    match exec(alloc, &mut context, &p, &handler.block) {
        Ok(flow) => Ok(Ran {
            context,
            action: action_of(flow),
        }),
        Err(fault) => Err(fault),
    }
}

/// The step of a packet with these fields and these choices.
pub fn step_with(
    alloc: Global,
    func: &Func,
    state: &State,
    packet: &Packet,
    fields: Fields,
    picks: &Picks,
) -> Result<Step, StepFault>
    ensures { Comes result
        (step_of never (function_of func.now) state.now packet.now picks.now (Some fields))
        (record_of never (function_of func.now) state.now packet.now picks.now (Some fields)) }
{
    let Some(handler) = func.handler_at(door_of(packet.id.port, &fields)) else {
        return Err(StepFault::BadChoice);
    };
    let ran = run(
        alloc,
        func,
        handler,
        state,
        packet.time,
        fields,
        Some(picks),
    )?;
    finish(ran, picks)
}

/// The answer of a handler that took each choice.
#[tactic(auto, using(crate::proofs::Handled::left_over))]
fn finish(ran: Ran, picks: &Picks) -> Result<Step, StepFault>
    ensures { (told : List Event) → answers_full told ≡ ran.context.full
        → Comes result (left_by ran picks.now) told }
{
    let Ran { context, action } = ran;
    let Context {
        state,
        vars: _,
        edits,
        picks: taken,
        full,
    } = context;
    if taken.len() < picks.len() {
        return Err(StepFault::BadChoice);
    }
    Ok(Step {
        state,
        done: Done {
            action,
            edits,
            picks: picks.again(),
        },
        full,
    })
}

/// The step of a packet with these fields, at the least vacant indices.
pub fn step_at_least(
    alloc: Global,
    func: &Func,
    state: &State,
    packet: &Packet,
    fields: Fields,
) -> Result<Step, AllocError>
    requires served { IsSome (handler_at (function_of func.now) (door_of packet.now.id.port fields)) }
    ensures { IfOk result (λ s.
        step_of never (function_of func.now) state.now packet.now s.done.picks (Some fields)
        ≡ Some (record { state = s.state; done = s.done })) }
{
    let Some(handler) = func.handler_at(door_of(packet.id.port, &fields)) else {
        unreachable!();
    };
    let ran = match run(alloc, func, handler, state, packet.time, fields, None) {
        Ok(ran) => ran,
        Err(StepFault::BadChoice) => unreachable!(),
        Err(StepFault::Memory) => return Err(AllocError),
    };
    let Ran { context, action } = ran;
    let Context {
        state,
        vars: _,
        edits,
        picks,
        full,
    } = context;
    Ok(Step {
        state,
        done: Done {
            action,
            edits,
            picks,
        },
        full,
    })
}

fn no_edits() -> Edits
    ensures { result ≡ no_edits }
{
    Edits {
        src_mac: None,
        dst_mac: None,
        src_ip: None,
        dst_ip: None,
        src_ip6: None,
        dst_ip6: None,
        ttl: None,
        src_port: None,
        dst_port: None,
    }
}

/// What a packet comes to that no handler sees.
pub fn skipped() -> Done
    ensures { result ≡ record { action = Skip; edits = no_edits; picks = [] } }
{
    Done {
        action: Action::Skip,
        edits: no_edits(),
        picks: Picks::new(),
    }
}
