//! Chains, part by part.

ghost use Rattle.std.specs.Prelude.{◌≡◌, ◌+◌, ◌≤◌, length, fold, IfOk, OnOk};
ghost use Rattle.nf_types.specs.Answers.{Finds};
ghost use Rattle.nf_types.specs.Declarations.{with_part, with_no_parts, chain_of};
ghost use Rattle.nf_types.specs.DeclarationFaults.{size_faults, part_faults, parts_faults, fixed_with, chain_faults};
ghost use Rattle.nf_types.specs.Roomy.{IsRoomy};
ghost use Rattle.nf_base.specs.Limits.{maps_in};

use crate::column::{column, map, put_column};
use crate::fault::{TypingFault, TypingKind, refuse_if};
use crate::name::{copied, short};
use crate::objects::{Objects, is_object};
use nf_base::decl::ChainDecl;
use nf_base::limited::Limited;
use nf_base::size::Size;
use nf_tree::{ChainTree, ColumnKind, Literal, Part};
use std::alloc::Global;

/// How many chains a function may have.
const MOST_CHAINS: u32 = 8;

/// How many indices a chain may have, and how many cells an array.
const LARGEST: u64 = 65536;

/// How many indices or cells there are.
pub fn size(size: &Literal) -> Result<Size, TypingFault>
    ensures { Finds (λ n. n) (size_faults size.now) size.now.value result }
{
    let number = size.value;
    refuse_if(
        number < 1 || LARGEST < number,
        TypingKind::Limit,
        size.place,
    )?;
    Ok(Size::new(number as u32))
}

/// One part more, behind so many maps of other chains and so many fixed columns of the chain's own.
fn part(
    alloc: Global,
    maps: u32,
    fixed: u32,
    chain: &mut ChainDecl,
    part: &Part,
) -> Result<(), TypingFault>
    requires maps { maps ≤ 16 }
    requires fixed { fixed ≤ 8 }
    requires roomy { IsRoomy fixed chain.old }
    ensures found { Finds (λ _. chain.new) (part_faults maps fixed chain.old part.now)
        (with_part chain.old part.now) result }
    ensures maps { maps + length chain.old.maps ≤ 16
        → OnOk result (maps + length chain.new.maps ≤ 16) }
    ensures fixed { OnOk result (fixed_with fixed part.now ≤ 8) }
    ensures roomy { OnOk result (IsRoomy (fixed_with fixed part.now) chain.new) }
{
    match part {
        Part::Map(tree) => map(alloc, maps, fixed, chain, tree),
        Part::Column(tree) => {
            let one = column(alloc, fixed, &*chain, tree)?;
            put_column(fixed, chain, tree.kind, one)?;
            Ok(())
        }
    }
}

/// How many fixed columns there are with a part.
fn fixed_with(fixed: u32, part: &Part) -> u32
    requires { fixed_with fixed part.now ≤ 8 }
    ensures { result ≡ fixed_with fixed part.now }
{
    match part {
        Part::Map(_) => fixed,
        Part::Column(tree) => match tree.kind {
            ColumnKind::Fixed => fixed + 1,
            ColumnKind::Free => fixed,
        },
    }
}

/// The parts of a chain, behind so many maps of other chains.
#[tactic(auto, using(crate::proofs::First::first_append))]
fn parts(alloc: Global, maps: u32, chain: &mut ChainDecl, parts: &[Part]) -> Result<(), TypingFault>
    requires maps { maps + length chain.old.maps ≤ 16 }
    requires roomy { IsRoomy 0 chain.old }
    ensures found { Finds (λ _. chain.new) (parts_faults maps 0 chain.old parts.now)
        (fold with_part chain.old parts.now) result }
    ensures maps { OnOk result (maps + length chain.new.maps ≤ 16) }
{
    let mut fixed = 0;
    for one in parts {
        part(alloc, maps, fixed, chain, one)?;
        fixed = fixed_with(fixed, one);
    }
    Ok(())
}

/// How many maps some chains have together.
fn maps_in(chains: &[ChainDecl]) -> u32
    requires { length chains.now ≤ 8 }
    ensures { result ≡ maps_in chains.now }
{
    let mut all = 0;
    for one in chains {
        all += one.maps.len();
    }
    all
}

/// A chain behind other chains and arrays.
#[tactic(auto, using(crate::proofs::First::first_append), unfolding(crate::specs::DeclarationFaults::chain_faults, crate::specs::Declarations::chain_of))]
pub fn chain(alloc: Global, objects: &Objects, tree: &ChainTree) -> Result<ChainDecl, TypingFault>
    requires maps { maps_in objects.now.chains ≤ 16 }
    ensures found { Finds (λ d. d) (chain_faults objects.now tree.now) (chain_of tree.now) result }
    ensures few { IfOk result (λ d. length objects.now.chains ≤ 7) }
    ensures maps { IfOk result (λ d. maps_in objects.now.chains + length d.maps ≤ 16) }
{
    let is_many = objects.chains.len() >= MOST_CHAINS;
    refuse_if(is_many, TypingKind::Limit, tree.place)?;
    let is_taken = is_object(objects, tree.name.bytes.as_slice());
    refuse_if(is_taken, TypingKind::Twice, tree.name.place)?;
    short(&tree.name)?;
    let size = size(&tree.size)?;
    let maps = maps_in(objects.chains.as_slice());
    let mut chain = ChainDecl {
        name: copied(alloc, &tree.name)?,
        size,
        lifetime: tree.lifetime.value,
        labels: Limited::new(alloc),
        maps: Limited::new(alloc),
        order: Limited::new(alloc),
        columns: Limited::new(alloc),
    };
    match parts(alloc, maps, &mut chain, tree.parts.as_slice()) {
        Ok(()) => Ok(chain),
        Err(stop) => {
            drop(chain);
            Err(stop)
        }
    }
}
