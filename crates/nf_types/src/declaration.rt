//! The chains and arrays of a text.

ghost use Rattle.std.specs.Prelude.{◌≡◌, ◌≤◌, fold, IfOk, OnOk};
ghost use Rattle.nf_base.specs.Limits.{maps_in};
ghost use Rattle.nf_types.specs.Answers.{Finds};
ghost use Rattle.nf_types.specs.Declarations.{with_declaration, no_objects, objects_of};
ghost use Rattle.nf_types.specs.DeclarationFaults.{declaration_faults, declarations_faults};
ghost use Rattle.nf_types.specs.Roomy.{AreRoomy};

use crate::array::array;
use crate::chain::chain;
use crate::fault::TypingFault;
use crate::objects::Objects;
use nf_base::decl::ObjectId;
use nf_base::limited::Limited;
use nf_tree::Declaration;
use std::alloc::Global;

/// One chain or array more.
#[tactic(auto, using(crate::proofs::Maps::maps_more))]
fn declaration(
    alloc: Global,
    objects: &mut Objects,
    declaration: &Declaration,
) -> Result<(), TypingFault>
    requires maps { maps_in objects.old.chains ≤ 16 }
    requires roomy { AreRoomy objects.old }
    ensures found { Finds (λ _. objects.new) (declaration_faults objects.old declaration.now)
        (with_declaration objects.old declaration.now) result }
    ensures maps { OnOk result (maps_in objects.new.chains ≤ 16) }
    ensures roomy { OnOk result (AreRoomy objects.new) }
{
    match declaration {
        Declaration::Chain(tree) => {
            let one = chain(alloc, &*objects, tree)?;
            let number = objects.chains.len();
            objects.chains.push(one)?;
            objects.order.push(ObjectId::Chain(number))?;
            Ok(())
        }
        Declaration::Array(tree) => {
            let one = array(alloc, &*objects, tree)?;
            let number = objects.arrays.len();
            objects.arrays.push(one)?;
            objects.order.push(ObjectId::Array(number))?;
            Ok(())
        }
    }
}

/// The chains and arrays of a text, one by one. Who holds the objects gives them up where one can't
/// be had.
#[tactic(auto, using(crate::proofs::First::first_append))]
fn each_declaration(
    alloc: Global,
    objects: &mut Objects,
    declarations: &[Declaration],
) -> Result<(), TypingFault>
    requires { objects.old ≡ no_objects }
    ensures found { Finds (λ _. objects.new) (declarations_faults no_objects declarations.now)
        (objects_of declarations.now) result }
    ensures maps { OnOk result (maps_in objects.new.chains ≤ 16) }
{
    for one in declarations {
        declaration(alloc, objects, one)?;
    }
    Ok(())
}

/// The chains and arrays of a text.
pub fn declarations(alloc: Global, declarations: &[Declaration]) -> Result<Objects, TypingFault>
    ensures found { Finds (λ o. o) (declarations_faults no_objects declarations.now)
        (objects_of declarations.now) result }
    ensures maps { IfOk result (λ o. maps_in o.chains ≤ 16) }
{
    let mut objects = Objects {
        chains: Limited::new(alloc),
        arrays: Limited::new(alloc),
        order: Limited::new(alloc),
    };
    match each_declaration(alloc, &mut objects, declarations) {
        Ok(()) => Ok(objects),
        Err(stop) => {
            drop(objects);
            Err(stop)
        }
    }
}
