//! The whole check.

ghost use Rattle.std.specs.Prelude.{◌≡◌, ◌≤◌, IfOk};
ghost use Rattle.nf_base.specs.Functions.{function_of};
ghost use Rattle.nf_base.specs.Objects.{ListsObjects};
ghost use Rattle.nf_base.specs.TextPlaces.{HasPlaces};
ghost use Rattle.nf_tree.specs.View.{tree_of};
ghost use Rattle.nf_types.specs.DeclarationFaults.{port_faults};
ghost use Rattle.nf_types.specs.Function.{function};
ghost use Rattle.nf_types.specs.TextFaults.{faults};
ghost use Rattle.nf_types.specs.Answers.{Finds, Answers};

use crate::declaration::declarations;
use crate::fault::{CheckFault, TypingFault, TypingKind, refuse_if};
use crate::handler::{can_be_numbered, handlers};
use crate::handler_rules;
use crate::name::declared;
use crate::objects::Objects;
use nf_base::func::Func;
use nf_tree::{Literal, Tree};
use std::alloc::Global;

/// How many ports a function may have.
const MOST_PORTS: u64 = 4;

fn ports(ports: &Literal) -> Result<u32, TypingFault>
    ensures found { Finds (λ n. n) (port_faults ports.now) ports.now.value result }
    ensures some { IfOk result (λ n. 1 ≤ n) }
    ensures few { IfOk result (λ n. n ≤ 4) }
{
    let number = ports.value;
    refuse_if(
        number < 1 || MOST_PORTS < number,
        TypingKind::Limit,
        ports.place,
    )?;
    Ok(number as u32)
}

/// More places than 32 bits can number count as want of memory.
#[tactic(auto, using(crate::proofs::First::first_append))]
fn function(alloc: Global, tree: &Tree) -> Result<Func, TypingFault>
    ensures { Finds function_of (faults (tree_of tree.now)) (function (tree_of tree.now)) result }
{
    let name = declared(alloc, &tree.name)?;
    let ports = ports(&tree.ports)?;
    let objects = declarations(alloc, tree.declarations.as_slice())?;
    let all = tree.handlers.as_slice();
    handler_rules::handlers(u64::from(ports), &objects, all, tree.end)?;
    if !can_be_numbered(all) {
        return Err(TypingFault::Memory);
    }
    let handlers = handlers(alloc, &objects, ports, all)?;
    let Objects {
        chains,
        arrays,
        order,
    } = objects;
    Ok(Func {
        name,
        chains,
        arrays,
        objects: order,
        handlers,
    })
}

/// Checks the tree of a text against the type rules and the limits of the language: the function
/// that it stands for, or its first fault in text order.
///
/// The handlers of the function stand by port, whatever their order in the text.
#[tactic(auto, using(crate::proofs::First::first_none))]
pub fn check(alloc: Global, tree: &Tree) -> Result<Func, CheckFault>
    ensures answer { Answers result (tree_of tree.now) }
    ensures places { IfOk result (λ f. HasPlaces (function_of f)) }
    // Each chain and each array is one of the objects, once.
    ensures objects { IfOk result (λ f. ListsObjects (function_of f)) }
{
    match function(alloc, tree) {
        Ok(func) => Ok(func),
        Err(TypingFault::Broken(fault)) => Err(CheckFault::Typing {
            kind: fault.kind,
            line: fault.place.line,
            column: fault.place.column,
        }),
        Err(TypingFault::Memory) => Err(CheckFault::Memory),
    }
}
