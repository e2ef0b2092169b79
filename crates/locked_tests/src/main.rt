//! Runs a learning bridge of two ports in mode `lock`, with two workers, over captures in memory, and prints what each run
//! comes to. Two runs hold a worker or a seat until the other has gone on, and tell whether they met.
#![tactic(auto)]

mod calls;
mod frames;
mod functions;
mod gates;
mod meeting;
mod outcome;
mod reading_back;

use frames::{Frame, Record, capture, captures};
use functions::BRIDGE;
use gates::Shut;
use lock_mode::{Gate, PackGate};
use meeting::{Doors, Meeting};
use nf_base::worker_turns::{Idle, Turns};
use outcome::{Outcome, outcome_of};
use reading_back::seen_again;
use std::alloc::{AllocError, Global};
use std::io::{self, Write};
use std::sync::Wait;
use std::thread::Threads;

/// Port 0 sends a packet, and later port 1 its answer.
const BOTH: [&[Record]; 2] = [&[(5, Frame::OfA)], &[(9, Frame::OfB)]];

/// What the bridge sends out at each port, in either order.
const SENT: [&[Record]; 2] = [&[(9, Frame::OfB)], &[(5, Frame::OfA)]];

/// The two right journals, each with its last state.
const RIGHT: [(&str, &str); 2] = [
    (
        "maestro journal 1 lock 2\n1 0 1 flood 0\n0 0 0 to:1 1\n",
        "chain macs greatest 9\n0 9 m=11 at=1\n1 9 m=10 at=0\n",
    ),
    (
        "maestro journal 1 lock 2\n0 0 0 flood 0\n1 0 1 to:0 1\n",
        "chain macs greatest 9\n0 5 m=10 at=0\n1 9 m=11 at=1\n",
    ),
];

fn case<R: Threads + Wait + Sync, T: Turns + Sync, G: Gate + Drop + Send>(
    rt: &R,
    alloc: Global,
    most: u32,
    fails: &[u64],
    turns: &T,
    gate: &mut G,
) -> Result<Outcome, AllocError> {
    let captures = captures(alloc, &BOTH)?;
    outcome_of(
        rt,
        alloc,
        BRIDGE.as_bytes(),
        captures.as_slice(),
        most,
        fails,
        turns,
        gate,
    )
}

fn tell(rt: &HostRuntime, outcome: &Outcome) -> io::Result<()> {
    println!(rt; "{:?}", outcome.end)?;
    let mut out = rt.stdout();
    if let Some(journal) = outcome.files.last() {
        out.write_all(journal.as_slice())?;
    }
    out.write_all(outcome.state.as_slice())
}

/// Whether the journal and the state are those of one of the right orders.
fn is_right(outcome: &Outcome) -> bool {
    let Some(journal) = outcome.files.last() else {
        return false;
    };
    RIGHT.iter().any(|right| {
        journal.as_slice() == right.0.as_bytes() && outcome.state.as_slice() == right.1.as_bytes()
    })
}

/// Tells what a run came to that isn't right, as where memory ran out.
fn tell_wrong(rt: &HostRuntime, outcome: &Outcome) -> io::Result<()> {
    if is_right(outcome) {
        return Ok(());
    }
    tell(rt, outcome)
}

/// Whether the outputs are what the bridge sends out.
fn is_sent(alloc: Global, outcome: &Outcome) -> Result<bool, AllocError> {
    for (file, records) in outcome.files.iter().zip(&SENT) {
        let wanted = capture(alloc, records)?;
        if file.as_slice() != wanted.as_slice() {
            return Ok(false);
        }
    }
    Ok(true)
}

fn main(rt: HostRuntime) -> io::Result<()> {
    let alloc = rt.alloc();
    let any = case(&rt, alloc, 9, &[], &Idle, &mut PackGate::new())?;
    println!(rt; "right {}, sent {}", is_right(&any), is_sent(alloc, &any)?)?;
    tell_wrong(&rt, &any)?;
    let meeting = Meeting::new();
    let met = case(&rt, alloc, 9, &[], &meeting, &mut PackGate::new())?;
    println!(rt;
        "met {}, sent {}",
        meeting.was_kept(),
        is_sent(alloc, &met)?
    )?;
    tell(&rt, &met)?;
    let inside = Meeting::new();
    let both = case(&rt, alloc, 9, &[], &Idle, &mut Doors::new(&inside))?;
    let is_inside = inside.was_kept() && inside.has_come(2);
    println!(rt; "inside {is_inside}, right {}", is_right(&both))?;
    tell_wrong(&rt, &both)?;
    tell(&rt, &case(&rt, alloc, 9, &[], &Idle, &mut Shut::new())?)?;
    tell(&rt, &case(&rt, alloc, 1, &[], &Idle, &mut PackGate::new())?)?;
    tell(
        &rt,
        &case(&rt, alloc, 9, &[12], &Idle, &mut PackGate::new())?,
    )?;
    println!(rt; "{:?}", seen_again(&rt, alloc, BRIDGE)?)
}
