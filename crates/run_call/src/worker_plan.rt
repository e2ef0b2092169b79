//! Who handles the packets of a run.
ghost use Rattle.std.specs.Prelude.{◌≡◌};
ghost use Rattle.nf_base.specs.Functions.{function_of};
ghost use Rattle.key_synth.specs.Verdicts.{IsVerdict, Separates};
ghost use Rattle.command_words.specs.View as view;
ghost use Rattle.call_base.specs.Source.{HasFewPaths};
ghost use Rattle.run_call.specs.Modes.{Asks, Serves, ServesBy};

use call_base::analysing::verdict_of;
use call_base::object_name::no_keys;
use call_base::status::{CallFault, Halt, Refusal};
use command_words::{ModeChoice, RunCommand};
use key_synth::Verdict;
use nf_base::func::Func;
use nf_base::keys::Keys;
use std::alloc::Global;

/// Who handles the packets of a run.
#[derive(Drop)]
pub enum WorkerPlan {
    /// One worker.
    One,
    /// Several, which share nothing, under these keys.
    Shards(Keys),
    /// Several, which share the tables.
    Tables,
}

// Who handles the packets, where this is the verdict on the function.
fn worker_plan_by(
    command: &RunCommand,
    func: &Func,
    verdict: Verdict,
) -> Result<WorkerPlan, Refusal>
    requires asks { Asks (view.run command.now) }
    requires verdict { IsVerdict (function_of func.now) (view.run command.now).card verdict }
    requires separates { Separates (function_of func.now) verdict }
    ensures serves { ServesBy (view.run command.now) (function_of func.now) result }
{
    match verdict {
        Verdict::Sharded(keys) => {
            if 1 < command.workers.get() {
                Ok(WorkerPlan::Shards(keys))
            } else {
                Ok(WorkerPlan::One)
            }
        }
        Verdict::Locked(cause) => match command.mode {
            ModeChoice::Shard => Err(Refusal::NoKeys(no_keys(func, cause))),
            _ => Ok(WorkerPlan::Tables),
        },
    }
}

// The same, where the verdict is to be found.
fn worker_plan_found(alloc: Global, command: &RunCommand, func: &Func) -> Result<WorkerPlan, Halt>
    requires asks { Asks (view.run command.now) }
    requires few { HasFewPaths (function_of func.now) }
    ensures serves { Serves (view.run command.now) (function_of func.now) result }
{
    match verdict_of(alloc, func, command.card) {
        Ok(verdict) => match worker_plan_by(command, func, verdict) {
            Ok(worker_plan) => Ok(worker_plan),
            Err(why) => Err(Halt::Refusal(why)),
        },
        Err(_) => Err(Halt::Stop(CallFault::Memory)),
    }
}

/// Who handles the packets of a run that is asked for.
pub fn worker_plan_of(alloc: Global, command: &RunCommand, func: &Func) -> Result<WorkerPlan, Halt>
    requires few { HasFewPaths (function_of func.now) }
    ensures serves { Serves (view.run command.now) (function_of func.now) result }
{
    match (command.mode, 1 < command.workers.get()) {
        (ModeChoice::Lock, true) => Ok(WorkerPlan::Tables),
        (ModeChoice::Lock, false) => Ok(WorkerPlan::One),
        (ModeChoice::Auto, false) => Ok(WorkerPlan::One),
        (ModeChoice::Auto, true) => worker_plan_found(alloc, command, func),
        (ModeChoice::Shard, _) => worker_plan_found(alloc, command, func),
    }
}
