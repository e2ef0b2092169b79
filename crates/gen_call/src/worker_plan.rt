//! Who handles the packets of a run over made-up traffic.
ghost use Rattle.std.specs.Prelude.{◌≡◌, ◌≢◌, ◌<◌, ◌≤◌};
ghost use Rattle.nf_base.specs.Functions.{function_of};
ghost use Rattle.nf_base.specs.Text.{Function};
ghost use Rattle.key_synth.specs.Verdicts.{IsVerdict, Separates};
ghost use Rattle.command_words.specs.Commands.{Gen};
ghost use Rattle.command_words.specs.View as view;
ghost use Rattle.command_words.specs.declared.command.ModeChoice.TheVariants.{Lock, Shard};
ghost use Rattle.call_base.specs.Source.{HasFewPaths};
ghost use Rattle.gen_call.specs.WorkerPlan.{Serves, ServesBy};

use call_base::analysing::verdict_of;
use call_base::object_name::no_keys;
use call_base::status::{CallFault, Halt, Refusal};
use command_words::{GenCommand, ModeChoice};
use key_synth::Verdict;
use nf_base::func::Func;
use std::alloc::Global;
use traffic_run::WorkerPlan;

// Several share nothing where the function has keys, and else all tables, where they may.
fn several_by(command: &GenCommand, func: &Func, verdict: Verdict) -> Result<WorkerPlan, Refusal>
    requires several { 1 < (view.gen command.now).workers }
    requires few { (view.gen command.now).workers ≤ 16 }
    requires unlocked { (view.gen command.now).mode ≢ Lock }
    requires verdict { IsVerdict (function_of func.now) (view.gen command.now).card verdict }
    requires separates { Separates (function_of func.now) verdict }
    ensures serves { ServesBy (view.gen command.now) (function_of func.now) result }
{
    match verdict {
        Verdict::Sharded(keys) => Ok(WorkerPlan::Shards(keys, command.workers)),
        Verdict::Locked(cause) => match command.mode {
            ModeChoice::Shard => Err(Refusal::NoKeys(no_keys(func, cause))),
            _ => Ok(WorkerPlan::Sharing(command.workers)),
        },
    }
}

// One worker, where mode `shard` is asked for and this is the verdict.
fn one_by(command: &GenCommand, func: &Func, verdict: Verdict) -> Result<WorkerPlan, Refusal>
    requires alone { (view.gen command.now).workers ≡ 1 }
    requires shard { (view.gen command.now).mode ≡ Shard }
    requires verdict { IsVerdict (function_of func.now) (view.gen command.now).card verdict }
    ensures serves { ServesBy (view.gen command.now) (function_of func.now) result }
{
    match verdict {
        Verdict::Sharded(_) => Ok(WorkerPlan::One),
        Verdict::Locked(cause) => Err(Refusal::NoKeys(no_keys(func, cause))),
    }
}

// What is refused halts the call.
fn or_halt(served: Result<WorkerPlan, Refusal>) -> Result<WorkerPlan, Halt>
    ensures serves { (c : Gen) → (f : Function) → ServesBy c f served → Serves c f result }
{
    match served {
        Ok(worker_plan) => Ok(worker_plan),
        Err(why) => Err(Halt::Refusal(why)),
    }
}

/// Who handles the packets of a run that is asked for.
pub fn worker_plan_of(alloc: Global, command: &GenCommand, func: &Func) -> Result<WorkerPlan, Halt>
    requires few { HasFewPaths (function_of func.now) }
    ensures serves { Serves (view.gen command.now) (function_of func.now) result }
{
    let several = 1 < command.workers.get();
    match (several, command.mode) {
        (false, ModeChoice::Auto) => Ok(WorkerPlan::One),
        (false, ModeChoice::Lock) => Ok(WorkerPlan::One),
        (true, ModeChoice::Lock) => Ok(WorkerPlan::Sharing(command.workers)),
        (_, _) => match verdict_of(alloc, func, command.card) {
            Ok(verdict) => {
                if several {
                    or_halt(several_by(command, func, verdict))
                } else {
                    or_halt(one_by(command, func, verdict))
                }
            }
            Err(_) => Err(Halt::Stop(CallFault::Memory)),
        },
    }
}
