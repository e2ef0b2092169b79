// Where the packets of an order stand among all packets.
ghost use Rattle.std.specs.Prelude.{◌≡◌, ◌<◌, ℕ, List, [], length, replicate, All, IfOk, Some, slice_get};
ghost use Rattle.lock_workers.specs.RunResult.{count_by, places_by};

use lock_log::Order;
use nf_base::seq::Seq;
use std::alloc::{AllocError, Global};

// So many zeros.
fn zeros(alloc: Global, count: usize) -> Result<Vec<usize>, AllocError>
    ensures { IfOk result (λ zeros. zeros.items ≡ replicate count 0) }
{
    Ok(vec![in alloc; 0; count]?)
}

/// The place of each packet of an order, where each worker handled the packets at its places, in
/// their order.
///
/// `Err` is for want of memory.
pub(crate) fn places_of(
    alloc: Global,
    order: &Order,
    own: &Seq<Seq<u32>>,
) -> Result<Vec<u32>, AllocError>
    requires below { All (λ x. x.seat < length own.now) order.now }
    requires each { (w : ℕ) → (places : List ℕ) → slice_get own.now w ≡ Some places →
        count_by w order.now ≡ length places }
    ensures as_many { IfOk result (λ all. length all.items ≡ length order.now) }
    ensures each { IfOk result (λ all.
        (w : ℕ) → (places : List ℕ) → slice_get own.now w ≡ Some places →
        places_by w order.now all.items ≡ places) }
{
    let mut taken = zeros(alloc, own.len())?;
    let mut all = Vec::with_capacity(alloc, order.len())?;
    for i in 0..order.len() {
        let w = order.seat(i) as usize;
        let k = taken[w];
        all.push(*own.item(w).item(k))?;
        taken[w] = k + 1;
    }
    Ok(all)
}
