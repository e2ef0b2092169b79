//! A worker of each of the policer's two queues, whose answers are collected in the order sent.
ghost use Rattle.std.specs.Prelude.{◌≡◌, ◌<◌, length, IfOk};

use crate::policer::{packet, policer};
use nf_base::done::Done;
use nf_base::packet::Packet;
use nf_base::workers::Workers;
use ring_line::{Answered, CollectedRef, First, Line, Turns};
use short_answers::{Told, plain};
use std::alloc::{AllocError, Global};
use std::sync::{Arc, Wait};
use std::thread::Threads;

pub fn open<
    R: Threads + Wait + Clone + Send + Sync + Drop + 'static,
    G: Turns + Send + Sync + Drop + 'static,
>(rt: &R, alloc: Global, size: usize, turns: &Arc<G>) -> Result<Line<G>, AllocError>
    ensures { IfOk result (λ line. length line.queue_workers ≡ 2) }
{
    let func = policer(alloc)?;
    Line::start(rt, alloc, &func, Workers::new(2), size, turns)
}

/// Sends packets to a queue while there is room, and tells how many were sent.
pub fn send<R: Wait, G: Turns + Drop>(
    rt: &R,
    line: &mut Line<G>,
    queue: u32,
    packet: &Packet,
    count: u32,
) -> u32
    requires { queue < length line.old.queue_workers }
    ensures { length line.new.queue_workers ≡ length line.old.queue_workers }
{
    let mut sent = 0u32;
    for _ in 0..count {
        if line.has_room(queue) {
            line.send(rt, queue, packet);
            sent = sent.wrapping_add(1);
        }
    }
    sent
}

/// Sends seven packets to both queues; the sixth finds no index left.
pub fn send_seven<R: Wait, G: Turns + Drop>(rt: &R, line: &mut Line<G>)
    requires { length line.old.queue_workers ≡ 2 }
{
    send(rt, line, 1, &packet(0, 0, 0x8000_0001), 1);
    send(rt, line, 0, &packet(1, 1, 0x0a00_0001), 1);
    send(rt, line, 1, &packet(2, 2, 0x8000_0002), 1);
    send(rt, line, 0, &packet(3, 3, 0x0a00_0002), 1);
    send(rt, line, 1, &packet(4, 4, 0x8000_0001), 1);
    send(rt, line, 1, &packet(5, 5, 0x8000_0003), 1);
    send(rt, line, 0, &packet(6, 6, 0x0a00_0001), 1);
}

/// Whether an answer that was collected is one that lies ready.
fn is_same(packet: &Packet, queue: u32, done: &Done, answer: CollectedRef<'_>) -> bool {
    *packet == *answer.packet && queue == answer.queue && is_told(done, answer.told)
}

/// Whether this was told.
fn is_told(done: &Done, told: Told<'_>) -> bool {
    match told {
        Told::Plain(action) => are_alike(done, &plain(action)),
        Told::Whole(whole) => are_alike(done, whole),
    }
}

fn are_alike(one: &Done, other: &Done) -> bool {
    one.action == other.action
        && one.edits == other.edits
        && one.picks.as_slice() == other.picks.as_slice()
}

/// Whether what one line collects next lies ready in another, which goes on behind it.
fn is_next_alike<R: Wait, G: Turns + Drop>(rt: &R, one: &mut Line<G>, other: &mut Line<G>) -> bool
    requires one { 0 < length one.old.order.items }
    requires other { 0 < length other.old.order.items }
{
    match (one.collect(rt), other.await_first(rt)) {
        (Answered::Done(here), First::Answer) => {
            let same = is_same(&here.packet, here.queue, &here.done, other.answer());
            other.pass();
            same
        }
        (Answered::Stop(here), First::Stop(there)) => here == there,
        _ => false,
    }
}

/// How often what one line collects lies ready in another.
pub fn alike<R: Wait, G: Turns + Drop>(
    rt: &R,
    one: &mut Line<G>,
    other: &mut Line<G>,
    times: u32,
) -> u32 {
    let mut count = 0u32;
    for _ in 0..times {
        if one.left() > 0 && other.left() > 0 && is_next_alike(rt, one, other) {
            count = count.wrapping_add(1);
        }
    }
    count
}

/// Collects what is left, and tells how many answers there were of each queue, and whether they came in
/// the order of their numbers.
pub fn collect<R: Wait, G: Turns + Drop>(rt: &R, line: &mut Line<G>) -> (u32, u32, bool)
    ensures { length line.new.queue_workers ≡ length line.old.queue_workers }
{
    let mut near = 0u32;
    let mut far = 0u32;
    let mut ordered = true;
    let mut next = 0u32;
    for _ in rt.forever() {
        if line.left() == 0 {
            return (near, far, ordered);
        }
        match line.collect(rt) {
            Answered::Done(collected) => {
                if collected.queue == 0 {
                    near = near.wrapping_add(1);
                } else {
                    far = far.wrapping_add(1);
                }
                ordered = ordered && collected.packet.id.seq >= next;
                next = collected.packet.id.seq;
            }
            Answered::Stop(_) => return (near, far, false),
        }
    }
    unreachable!()
}
