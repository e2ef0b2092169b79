//! Arrays, with their opening contents.

ghost use Rattle.std.specs.Prelude.{◌≡◌, ◌-◌, ◌≤◌, ◌++◌, length, map, drop, replicate, IfOk};
ghost use Rattle.nf_base.specs.Values.{narrowed};
ghost use Rattle.nf_types.specs.Answers.{Finds};
ghost use Rattle.nf_types.specs.Declarations.{array_of};
ghost use Rattle.nf_types.specs.DeclarationFaults.{contents_faults, array_faults};
ghost use Rattle.nf_types.specs.Faults.{first, fault_in};

use crate::chain::size;
use crate::column::width;
use crate::fault::{Fault, TypingFault, TypingKind, refuse_if};
use crate::name::{copied, short};
use crate::objects::{Objects, is_object};
use nf_base::decl::ArrayDecl;
use nf_base::indexed::Indexed;
use nf_base::value::narrowed;
use nf_base::width::Width;
use nf_tree::{ArrayTree, Literal};
use std::alloc::{AllocError, Global};

/// How many arrays a function may have.
const MOST_ARRAYS: u32 = 8;

/// The first number past the size is too many.
fn contents(size: u32, contents: &[Literal]) -> Result<(), Fault>
    ensures fault { first (contents_faults (drop size contents.now)) ≡ fault_in result }
    ensures few { IfOk result (λ _. length contents.now ≤ size) }
{
    match contents.get(size as usize) {
        Some(n) => Err(Fault {
            kind: TypingKind::Limit,
            place: n.place,
        }),
        None => Ok(()),
    }
}

/// Numbers taken to a width.
fn all_narrowed(alloc: Global, width: Width, contents: &[Literal]) -> Result<Vec<u128>, AllocError>
    ensures { IfOk result (λ all. all.items ≡ map (λ n. narrowed width n.value) contents.now) }
{
    let mut all = Vec::new(alloc);
    for one in contents {
        all.push(narrowed(width, u128::from(one.value)))?;
    }
    Ok(all)
}

/// What the cells of an array hold at the start.
fn cells(
    alloc: Global,
    width: Width,
    size: u32,
    contents: &[Literal],
) -> Result<Indexed<u128>, AllocError>
    requires few { length contents.now ≤ size }
    requires size { size ≤ 65536 }
    ensures { IfOk result (λ cells. cells ≡ map (λ n. narrowed width n.value) contents.now
        ++ replicate (size - length contents.now) 0) }
{
    let mut all = all_narrowed(alloc, width, contents)?;
    all.resize(size as usize, 0)?;
    Ok(Indexed::from_vec(all))
}

/// An array behind other chains and arrays.
#[tactic(auto, using(crate::proofs::First::first_append), unfolding(crate::specs::DeclarationFaults::array_faults, crate::specs::Declarations::array_of))]
pub fn array(alloc: Global, objects: &Objects, tree: &ArrayTree) -> Result<ArrayDecl, TypingFault>
    ensures found { Finds (λ d. d) (array_faults objects.now tree.now) (array_of tree.now) result }
    ensures few { IfOk result (λ d. length objects.now.arrays ≤ 7) }
{
    let is_many = objects.arrays.len() >= MOST_ARRAYS;
    refuse_if(is_many, TypingKind::Limit, tree.place)?;
    let is_taken = is_object(objects, tree.name.bytes.as_slice());
    refuse_if(is_taken, TypingKind::Twice, tree.name.place)?;
    short(&tree.name)?;
    let size = size(&tree.size)?.get();
    let width = width(&tree.width)?;
    contents(size, tree.contents.as_slice())?;
    let name = copied(alloc, &tree.name)?;
    match cells(alloc, width, size, tree.contents.as_slice()) {
        Ok(cells) => Ok(ArrayDecl { name, width, cells }),
        Err(_) => {
            drop(name);
            Err(TypingFault::Memory)
        }
    }
}
