//! Seats at a learning bridge: what their last event comes to is printed, and whether that is right.
use crate::bridge::{alone, bridge, look};
use crate::playing::step;
use lock_core::{Event, Log, Placed};
use nf_base::done::Action;
use std::alloc::{AllocError, Global};
use std::io;

/// What an event came to: its place in the order, its action, and how many entries it made; `None` where it may not come.
type Told = Option<(u64, Action, u32)>;

fn told(placed: &Option<Placed>) -> Told {
    match placed {
        Some(placed) => Some((placed.place, placed.done.action, placed.done.picks.len())),
        None => None,
    }
}

/// Plays events at a bridge with two seats, and tells what the last one came to.
fn last(alloc: Global, events: &[Event]) -> Result<Told, AllocError> {
    let func = bridge(alloc)?;
    let mut log = Log::new(alloc, &func, 2)?;
    let mut last = None;
    for event in events {
        let placed = step(alloc, &mut log, event)?;
        last = told(&placed);
    }
    Ok(last)
}

/// Prints what the last of some events came to, and whether it is what was wanted.
fn compare(rt: &HostRuntime, shows: &str, events: &[Event], wanted: Told) -> io::Result<()> {
    let told = last(rt.alloc(), events)?;
    println!(rt; "{shows}: {told:?}, {}", told == wanted)
}

fn tell_firsts(rt: &HostRuntime) -> io::Result<()> {
    let first = Some((0, Action::Flood, 1));
    let to_0 = Some((1, Action::To(0), 1));
    let to_1 = Some((1, Action::To(1), 1));
    compare(rt, "the first floods", &[alone(0, 0)], first)?;
    compare(rt, "whoever it is", &[alone(1, 1)], first)?;
    compare(
        rt,
        "the second is answered",
        &[alone(0, 0), alone(1, 1)],
        to_0,
    )?;
    compare(rt, "in the other order", &[alone(1, 1), alone(0, 0)], to_1)
}

fn tell_own(rt: &HostRuntime) -> io::Result<()> {
    let own = [alone(0, 0), look(0, 1, 0)];
    let seen = Some((1, Action::Flood, 0));
    compare(rt, "a seat sees what it handled", &own, seen)?;
    compare(
        rt,
        "a look at the opening tables would write",
        &[look(0, 0, 0)],
        None,
    )
}

fn tell_looks(rt: &HostRuntime) -> io::Result<()> {
    let seen = Some((1, Action::Flood, 0));
    let cases = [
        (
            "the other seat may look at less than there is",
            look(1, 1, 0),
            seen,
        ),
        ("but not at less than it has seen", look(0, 1, 0), None),
        ("nor at more than there is", look(1, 3, 0), None),
        ("there is no third seat that looks", look(2, 1, 0), None),
        ("nor one that is alone", alone(2, 0), None),
        ("nor a third port", alone(1, 2), None),
    ];
    for (shows, event, wanted) in &cases {
        let events = [alone(0, 0), alone(0, 1), *event];
        compare(rt, shows, &events, *wanted)?;
    }
    Ok(())
}

pub fn tell_all(rt: &HostRuntime) -> io::Result<()> {
    tell_firsts(rt)?;
    tell_own(rt)?;
    tell_looks(rt)
}
