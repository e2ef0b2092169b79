// What a function remembers before its first packet.
ghost use Rattle.std.specs.Prelude.{◌≡◌, ℕ, ◌+◌, ◌≤◌, length, take, IfOk, map, None, replicate};
ghost use Rattle.nf_base.specs.Step.{opening_chain, opening_cells};

use nf_base::decl::{ArrayDecl, ChainDecl};
use nf_base::indexed::Indexed;
use nf_base::seq::Seq;
use nf_base::state::{Chain, Entry};
use std::alloc::{AllocError, Global};

fn empty_slots(alloc: Global, size: u32) -> Result<Indexed<Option<Entry>>, AllocError>
    requires { size ≤ 65536 }
    ensures { IfOk result (λ v. v ≡ replicate size None) }
{
    let mut slots = Vec::new(alloc);
    for k in 0..size {
        slots.push(None)?;
    }
    Ok(Indexed::from_vec(slots))
}

pub fn opening_chains(alloc: Global, decls: &[ChainDecl]) -> Result<Seq<Chain>, AllocError>
    ensures { IfOk result (λ v. v ≡ map opening_chain decls.now) }
{
    let mut chains = Seq::new(alloc);
    for decl in decls {
        let slots = empty_slots(alloc, decl.size.get())?;
        chains.push(Chain { slots, greatest: 0 })?;
    }
    Ok(chains)
}

pub fn opening_arrays(alloc: Global, decls: &[ArrayDecl]) -> Result<Seq<Indexed<u128>>, AllocError>
    ensures { IfOk result (λ v. v ≡ map opening_cells decls.now) }
{
    let mut arrays = Seq::new(alloc);
    for decl in decls {
        arrays.push(decl.cells.copy(alloc)?)?;
    }
    Ok(arrays)
}
