//! Plays events of two seats at a learning bridge, and prints what each comes to, and then the order
//! of all that was done; and what the last of other events comes to, with whether it is right.
#![tactic(auto)]

mod bridge;
mod playing;
mod seats;

use bridge::{alone, bridge, look};
use lock_core::{Log, Ordered, Placed};
use nf_base::func::Func;
use playing::step;
use std::io;

fn tell(rt: &HostRuntime, placed: &Placed) -> io::Result<()> {
    println!(rt;
        "at {}: {:?}, entries {:?}",
        placed.place,
        placed.done.action,
        placed.done.picks.as_slice()
    )
}

fn tell_ordered(rt: &HostRuntime, x: &Ordered) -> io::Result<()> {
    println!(rt;
        "seat {}, {:?}, packet {} {}: {:?}",
        x.seat, x.way, x.packet.id.port, x.packet.id.seq, x.done.action
    )
}

fn play(rt: &HostRuntime, func: &Func) -> io::Result<()> {
    let alloc = rt.alloc();
    let mut log = Log::new(alloc, func, 2)?;
    let events = [
        look(0, 0, 0),
        alone(0, 0),
        look(0, 1, 0),
        alone(1, 1),
        look(0, 1, 0),
        look(1, 1, 0),
        look(1, 2, 1),
        alone(2, 0),
    ];
    for event in &events {
        match step(alloc, &mut log, event)? {
            Some(placed) => tell(rt, &placed)?,
            None => println!(rt; "not now")?,
        }
    }
    for x in log.order() {
        tell_ordered(rt, x)?;
    }
    Ok(())
}

fn main(rt: HostRuntime) -> io::Result<()> {
    let func = bridge(rt.alloc())?;
    play(&rt, &func)?;
    seats::tell_all(&rt)
}
