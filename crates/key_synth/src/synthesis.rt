//! The verdict on a function.
ghost use Rattle.std.specs.Prelude.{◌≡◌, IfOk};
ghost use Rattle.nf_base.specs.Doors.{six_ports};
ghost use Rattle.nf_base.specs.Functions.{function_of};
ghost use Rattle.shard_rules.specs.Served.{own_plan};
ghost use Rattle.key_synth.specs.Verdicts.{IsVerdict, Separates};

use crate::cause::cause;
use crate::verdict::Verdict;
use key_rows::nearest_keys;
use nf_base::card::Card;
use nf_base::func::Func;
use nf_base::limited::Limited;
use shard_rules::Plan;
use std::alloc::{AllocError, Global};

/// Of each port whether it has a handler for IPv6.
fn six_ports(alloc: Global, func: &Func) -> Result<Limited<bool, 4>, AllocError>
    ensures { IfOk result (λ six. six ≡ six_ports (function_of func.now)) }
{
    let mut six = Limited::new(alloc);
    for port in 0..func.handlers.len() {
        six.push(func.has_six(port))?;
    }
    Ok(six)
}

/// The keys for a card of a function's ports, under which packets that meet have equal hashes, from
/// the plan of its sites: of those that give each keyed port more than one index of the card's
/// table the ones nearest its default key. `Locked`, with the cause, exactly where there are none.
pub fn synthesise(
    alloc: Global,
    func: &Func,
    plan: &Plan,
    card: Card,
) -> Result<Verdict, AllocError>
    requires { plan.now ≡ own_plan (function_of func.now) }
    ensures verdict { IfOk result (IsVerdict (function_of func.now) card) }
    ensures separation { IfOk result (Separates (function_of func.now)) }
{
    let six = six_ports(alloc, func)?;
    match nearest_keys(alloc, six.as_slice(), plan.objects.as_slice(), card)? {
        Some(keys) => Ok(Verdict::Sharded(keys)),
        None => Ok(Verdict::Locked(cause(func.objects.as_slice(), plan.standings.as_slice()))),
    }
}
