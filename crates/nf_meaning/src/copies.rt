// Copies of a state.
ghost use Rattle.std.specs.Prelude.{◌≡◌, ℕ, ◌+◌, ◌<◌, ◌≤◌, ◌++◌, length, take, drop, IfOk, map, Some, None};
ghost use Rattle.nf_base.specs.Chains.{alive, lifetime_of, unexpired, expired};

use nf_base::decl::ChainDecl;
use nf_base::indexed::Indexed;
use nf_base::seq::Seq;
use nf_base::state::{Chain, Entry};
use std::alloc::{AllocError, Global};

fn copy_numbers(alloc: Global, xs: &Seq<u128>) -> Result<Seq<u128>, AllocError>
    ensures { IfOk result (λ v. v ≡ xs.now) }
{
    Ok(Seq::from_vec(Vec::from_slice(alloc, xs.as_slice())?))
}

// A copy of what an index holds, unless it is past its lifetime.
fn copy_alive(
    alloc: Global,
    time: u64,
    lifetime: u64,
    slot: &Option<Entry>,
) -> Result<Option<Entry>, AllocError>
    ensures { IfOk result (λ v. v ≡ alive time lifetime slot.now) }
{
    let Some(entry) = slot else {
        return Ok(None);
    };
    let end = u128::from(entry.stamp) + u128::from(lifetime);
    if end < u128::from(time) {
        return Ok(None);
    }
    let labels = copy_numbers(alloc, &entry.labels)?;
    let columns = copy_numbers(alloc, &entry.columns)?;
    Ok(Some(Entry {
        stamp: entry.stamp,
        labels,
        columns,
    }))
}

fn copy_unexpired(
    alloc: Global,
    time: u64,
    lifetime: u64,
    chain: &Chain,
) -> Result<Chain, AllocError>
    ensures { IfOk result (λ v. v ≡ unexpired time lifetime chain.now) }
{
    let mut slots = Vec::new(alloc);
    for k in 0..chain.slots.len() {
        slots.push(copy_alive(alloc, time, lifetime, chain.slots.item(k))?)?;
    }
    Ok(Chain {
        slots: Indexed::from_vec(slots),
        greatest: chain.greatest,
    })
}

// How long an entry of the chain of a number stays after its stamp, in nanoseconds.
fn lifetime_of(decls: &[ChainDecl], chain: usize) -> u64
    ensures { result ≡ lifetime_of decls.now chain }
{
    match decls.get(chain) {
        None => 0,
        Some(decl) => decl.lifetime,
    }
}

// A copy of the chains in which nothing is past its lifetime.
#[tactic(auto, using(crate::proofs::Expiry::one_more_chain))]
pub fn copy_expired(
    alloc: Global,
    time: u64,
    decls: &[ChainDecl],
    chains: &[Chain],
) -> Result<Seq<Chain>, AllocError>
    ensures { IfOk result (λ v. v ≡ expired time (lifetime_of decls.now) chains.now) }
{
    let mut out = Seq::new(alloc);
    for k in 0..chains.len() {
        out.push(copy_unexpired(alloc, time, lifetime_of(decls, k), &chains[k])?)?;
    }
    Ok(out)
}

pub fn copy_arrays(
    alloc: Global,
    arrays: &[Indexed<u128>],
) -> Result<Seq<Indexed<u128>>, AllocError>
    ensures { IfOk result (λ v. v ≡ arrays.now) }
{
    let mut out = Seq::new(alloc);
    for cells in arrays {
        out.push(cells.copy(alloc)?)?;
    }
    Ok(out)
}
