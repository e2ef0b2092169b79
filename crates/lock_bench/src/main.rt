//! Handles made up packets by workers that share the tables of a function. Each line is a run: the
//! number of workers, or 0 for one that shares with nobody, of packets, and of stations a port, and the
//! text of the function. It prints how many packets were handled, and how many of them by a look
//! without the lock; and on standard error how many nanoseconds the workers' part took. `bench/lock`
//! gives the lines.
#![tactic(auto)]

mod gates;
mod packets;
mod working;

use lock_core::Way;
use lock_log::Order;
use nf_base::func::Func;
use nf_syntax::parse;
use nf_types::check;
use packets::packets;
use std::alloc::Global;
use std::io;
use std::sync::Wait;
use std::thread::Threads;
use std::time::Instant;
use working::work;

/// The number at the head of a line, and what stands behind it.
fn number(line: &str) -> Option<(u32, &str)> {
    let (word, rest) = line.split_once(' ')?;
    Some((word.parse::<u32>().ok()?, rest))
}

/// The function that a text is.
fn function(alloc: Global, text: &str) -> Option<Func> {
    let tree = parse(alloc, text.as_bytes()).ok()?;
    check(alloc, &tree).ok()
}

/// How many packets of an order were looked at.
fn looks(order: &Order) -> usize {
    let mut looks: usize = 0;
    for k in 0..order.len() {
        if order.way(k) == Way::Look {
            looks = looks.saturating_add(1);
        }
    }
    looks
}

fn run_by<R: Threads + Wait + Sync>(
    rt: &HostRuntime,
    threads: &R,
    func: &Func,
    workers: u32,
    count: u32,
    stations: u32,
) -> io::Result<()> {
    let alloc = rt.alloc();
    let packets = packets(alloc, func.handlers.len(), stations, count)?;
    let start = Instant::now(rt)?;
    let worked = work(threads, alloc, func, workers, packets.as_slice())?;
    let took = start.elapsed(rt)?.as_nanos();
    eprintln!(rt; "{took}")?;
    match worked {
        Some(worked) => println!(rt;
            "{} workers, {} packets, {} looked",
            worked.workers,
            worked.order.len(),
            looks(&worked.order)
        ),
        None => println!(rt; "no run"),
    }
}

fn answer<R: Threads + Wait + Sync>(rt: &HostRuntime, threads: &R, line: &str) -> io::Result<()> {
    let Some((workers, line)) = number(line) else {
        return println!(rt; "no run");
    };
    let Some((count, line)) = number(line) else {
        return println!(rt; "no run");
    };
    let Some((stations, text)) = number(line) else {
        return println!(rt; "no run");
    };
    match function(rt.alloc(), text) {
        Some(func) => run_by(rt, threads, &func, workers, count, stations),
        None => println!(rt; "no function"),
    }
}

fn main(rt: HostRuntime) -> io::Result<()> {
    for line in rt.lines(rt.alloc()) {
        answer(&rt, &rt, line?.as_str())?;
    }
    Ok(())
}
