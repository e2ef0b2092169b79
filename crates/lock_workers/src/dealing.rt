// Packets, dealt to workers by their ports.
ghost use Rattle.std.specs.Prelude.{◌≡◌, ◌<◌, ◌≤◌, ◌%◌, ◌^◌, ◌∷◌, ◌++◌, [], length, replicate, IfOk, OnOk, slice_set, slice_index_or};
ghost use Rattle.lock_workers.specs.Dealing.{worker_of, AreDealt};

use nf_base::packet::Packet;
use nf_base::seq::Seq;
use std::alloc::{AllocError, Global};

// So many lists that are empty.
fn none_yet(alloc: Global, workers: u32) -> Result<Seq<Seq<u32>>, AllocError>
    ensures { IfOk result (λ own. own ≡ replicate workers []) }
{
    let mut own = Seq::new(alloc);
    for _i in 0..workers {
        own.push(Seq::new(alloc))?;
    }
    Ok(own)
}

// Puts a place behind a worker's.
fn deal_one(own: &mut Seq<Seq<u32>>, w: usize, place: u32) -> Result<(), AllocError>
    requires { w < length own.old }
    ensures { OnOk result (
        own.new ≡ slice_set own.old w (slice_index_or own.old w [] ++ place ∷ [])) }
{
    own.item_mut(w).push(place)
}

/// The places of each worker's packets.
///
/// `Err` is for want of memory.
pub(crate) fn deal(
    alloc: Global,
    packets: &[Packet],
    workers: u32,
) -> Result<Seq<Seq<u32>>, AllocError>
    requires some { 0 < workers }
    requires few { length packets.now ≤ 2 ^ 32 }
    ensures { IfOk result (AreDealt workers packets.now) }
{
    let mut own = none_yet(alloc, workers)?;
    for place in 0..packets.len() {
        let w = packets[place].id.port % workers;
        deal_one(&mut own, w as usize, place as u32)?;
    }
    Ok(own)
}
