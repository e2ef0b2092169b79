//! Sends packets to a policer's workers behind rings, and prints what comes back: answers in the order
//! sent, the end of a share, how many are in flight, and two workers that meet.
#![tactic(auto)]

mod lanes;
mod lines;
mod meeting;
mod policer;

use lanes::{await_next, open, open_beside, send};
use meeting::Meeting;
use nf_base::done::Done;
use policer::packet;
use ring_line::{AnswerRef, Idle, Next, QueueWorker, Turns};
use short_answers::{Told, plain};
use std::io;
use std::sync::{Arc, Wait};
use std::thread::{Parker, Threads};

/// An address of queue 0, and one of queue 1.
const NEAR: u32 = 0x0a00_0001;

const FAR: u32 = 0x8000_0001;

fn tell_done(rt: &HostRuntime, seq: u32, done: &Done) -> io::Result<()> {
    println!(rt;
        "packet {}: {:?}, entries {:?}",
        seq,
        done.action,
        done.picks.as_slice()
    )
}

fn tell_answer(rt: &HostRuntime, answer: AnswerRef<'_>) -> io::Result<()> {
    let seq = answer.packet.id.seq;
    match answer.told {
        Told::Plain(action) => tell_done(rt, seq, &plain(action)),
        Told::Whole(done) => tell_done(rt, seq, done),
    }
}

/// Prints what comes next, and goes on behind it.
fn tell_next<R: Wait, G: Turns + Drop>(
    rt: &HostRuntime,
    waits: &R,
    lane: &mut QueueWorker<G>,
) -> io::Result<()> {
    match await_next(waits, lane) {
        Next::Ready => {
            let told = tell_answer(rt, lane.answer());
            lane.pass();
            told
        }
        Next::Halted(halt) => println!(rt;
            "the share ends: chain {}, packet {}",
            halt.chain, halt.packet.id.seq
        ),
        Next::Nothing => println!(rt; "nothing"),
    }
}

fn tell_some<R: Wait, G: Turns + Drop>(
    rt: &HostRuntime,
    waits: &R,
    lane: &mut QueueWorker<G>,
    n: u32,
) -> io::Result<()> {
    for _ in 0..n {
        tell_next(rt, waits, lane)?;
    }
    Ok(())
}

/// Five packets of queue 1, of which the fourth finds no index left; asked again, the same is told.
fn tell_five<R: Threads + Wait, G: Turns + Drop>(
    rt: &HostRuntime,
    threads: &R,
    lane: QueueWorker<G>,
) -> io::Result<()> {
    let mut lane = lane;
    let packets = [
        packet(0, 0, FAR),
        packet(1, 1, FAR + 1),
        packet(2, 2, FAR),
        packet(3, 3, FAR + 2),
        packet(4, 4, FAR),
    ];
    let sent = println!(rt; "{} sent", send(threads, &mut lane, &packets));
    let told = tell_some(rt, threads, &mut lane, 5);
    drop(lane.finish(threads));
    sent?;
    told
}

/// By a worker in a thread.
fn tell_end<R: Threads + Wait + Clone + Send + Drop + 'static>(
    rt: &HostRuntime,
    threads: &R,
    size: usize,
) -> io::Result<()> {
    let alloc = rt.alloc();
    let turns = Arc::new(alloc, Idle)?;
    let bell = Arc::new(alloc, Parker::new())?;
    let lane = open(threads, alloc, true, size, &turns, &bell)?;
    println!(rt; "packs of {size}")?;
    tell_five(rt, threads, lane)
}

/// By one without.
fn tell_beside<R: Threads + Wait>(rt: &HostRuntime, threads: &R) -> io::Result<()> {
    let alloc = rt.alloc();
    let turns = Arc::new(alloc, Idle)?;
    let lane = open_beside(alloc, &turns)?;
    println!(rt; "without a thread")?;
    tell_five(rt, threads, lane)
}

/// As many packets as there is room for, and one answer.
fn tell_room<R: Threads + Wait + Clone + Send + Drop + 'static>(
    rt: &HostRuntime,
    threads: &R,
    size: usize,
) -> io::Result<()> {
    let alloc = rt.alloc();
    let turns = Arc::new(alloc, Idle)?;
    let bell = Arc::new(alloc, Parker::new())?;
    let mut lane = open(threads, alloc, false, size, &turns, &bell)?;
    let mut sent = 0usize;
    for _ in 0..70 {
        sent = sent.wrapping_add(send(threads, &mut lane, &[packet(0, 0, NEAR)]));
    }
    println!(rt; "{sent} sent in packs of {size}, room {}", lane.has_room())?;
    let told = tell_some(rt, threads, &mut lane, 1);
    println!(rt; "room {}", lane.has_room())?;
    drop(lane.finish(threads));
    told
}

/// The first worker waits in its packet until the second has handled one.
fn tell_meeting<R: Threads + Wait + Clone + Send + Drop + 'static>(
    rt: &HostRuntime,
    threads: &R,
) -> io::Result<()> {
    let alloc = rt.alloc();
    let turns = Arc::new(alloc, Meeting::new(1))?;
    let bell = Arc::new(alloc, Parker::new())?;
    let mut near = open(threads, alloc, false, 16, &turns, &bell)?;
    match open(threads, alloc, true, 16, &turns, &bell) {
        Ok(far) => {
            let mut far = far;
            send(threads, &mut near, &[packet(0, 0, NEAR)]);
            send(threads, &mut far, &[packet(1, 1, FAR)]);
            near.flush(threads);
            far.flush(threads);
            let first = tell_some(rt, threads, &mut near, 1);
            let second = tell_some(rt, threads, &mut far, 1);
            drop(near.finish(threads));
            drop(far.finish(threads));
            first?;
            second?;
            println!(rt; "the workers met: {}", turns.was_kept())
        }
        Err(_) => {
            drop(near.finish(threads));
            println!(rt; "no memory")
        }
    }
}

/// Worker 0 waits in its packet until worker 1 has handled 64, as many as can be in flight.
fn tell_line<R: Threads + Wait + Clone + Send + Sync + Drop + 'static>(
    rt: &HostRuntime,
    threads: &R,
    size: usize,
) -> io::Result<()> {
    let alloc = rt.alloc();
    let turns = Arc::new(alloc, Meeting::new(64))?;
    let mut line = lines::open(threads, alloc, size, &turns)?;
    let near = lines::send(threads, &mut line, 0, &packet(0, 0, NEAR), 1);
    let far = lines::send(threads, &mut line, 1, &packet(1, 1, FAR), 70);
    let (room_near, room_far) = (line.has_room(0), line.has_room(1));
    let came = lines::collect(threads, &mut line);
    let told = println!(rt;
        "packs of {size}: {near} and {far} sent, room {room_near} {room_far}, then {} and {} collected in order {}, room {}",
        came.0,
        came.1,
        came.2,
        line.has_room(1)
    );
    drop(line.finish(threads));
    told?;
    println!(rt; "the workers met: {}", turns.was_kept())
}

/// Two lines that are sent the same: what one collects lies ready in the other.
fn tell_alike<R: Threads + Wait + Clone + Send + Sync + Drop + 'static>(
    rt: &HostRuntime,
    threads: &R,
    size: usize,
) -> io::Result<()> {
    let alloc = rt.alloc();
    let turns = Arc::new(alloc, Idle)?;
    let mut one = lines::open(threads, alloc, size, &turns)?;
    match lines::open(threads, alloc, size, &turns) {
        Ok(other) => {
            let mut other = other;
            lines::send_seven(threads, &mut one);
            lines::send_seven(threads, &mut other);
            let alike = lines::alike(threads, &mut one, &mut other, 7);
            drop(one.finish(threads));
            drop(other.finish(threads));
            println!(rt; "packs of {size}: {alike} of 7 alike")
        }
        Err(_) => {
            drop(one.finish(threads));
            println!(rt; "no memory")
        }
    }
}

fn main(rt: HostRuntime) -> io::Result<()> {
    for size in [1, 2, 64] {
        tell_end(&rt, &rt, size)?;
    }
    tell_beside(&rt, &rt)?;
    for size in [1, 2, 64] {
        tell_alike(&rt, &rt, size)?;
    }
    for size in [1, 16, 64] {
        tell_room(&rt, &rt, size)?;
    }
    tell_meeting(&rt, &rt)?;
    for size in [1, 16, 64] {
        tell_line(&rt, &rt, size)?;
    }
    Ok(())
}
