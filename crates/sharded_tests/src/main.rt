//! Runs a firewall in mode `shard` over captures in memory, with two workers, and prints how each run ends, its journal
//! and its last state.
#![tactic(auto)]

mod calls;
mod frames;
mod functions;
mod outcome;
mod verdict;

use frames::{Frame, Record, captures};
use functions::{FIREWALL, NARROW};
use nf_base::card::{Card, KeySize, TableSize};
use outcome::{Outcome, outcome_of};
use std::alloc::{AllocError, Global};
use std::io::{self, Write};
use std::sync::Wait;
use std::thread::Threads;

/// Port 0 sends a query, port 1 its answer.
const FLOW: [&[Record]; 2] = [&[(1, Frame::Query)], &[(5, Frame::Reply)]];

/// Port 0 sends packets of three flows and one that is skipped.
const FLOWS: [&[Record]; 2] = [
    &[
        (1, Frame::Query),
        (2, Frame::Arp),
        (3, Frame::Summed),
        (4, Frame::Edited),
    ],
    &[(5, Frame::Reply)],
];

/// Captures of their headers alone.
const NOTHING: [&[Record]; 2] = [&[], &[]];

const LARGE: Card = Card {
    table: TableSize::Entries512,
    key: KeySize::Bytes52,
};

fn case<R: Threads + Wait + Clone + Send + Sync + Drop + 'static>(
    rt: &R,
    alloc: Global,
    card: Card,
    text: &str,
    ports: &[&[Record]],
    most: u32,
    fails: &[u64],
) -> Result<Outcome, AllocError> {
    let captures = captures(alloc, ports)?;
    outcome_of(
        rt,
        alloc,
        card,
        text.as_bytes(),
        captures.as_slice(),
        most,
        fails,
    )
}

fn tell(rt: &HostRuntime, outcome: &Outcome) -> io::Result<()> {
    println!(rt; "{:?}", outcome.end)?;
    let mut out = rt.stdout();
    if let Some(journal) = outcome.files.last() {
        out.write_all(journal.as_slice())?;
    }
    out.write_all(outcome.state.as_slice())
}

fn main(rt: HostRuntime) -> io::Result<()> {
    let alloc = rt.alloc();
    let usual = Card::usual();
    tell(&rt, &case(&rt, alloc, usual, FIREWALL, &FLOW, 9, &[])?)?;
    tell(&rt, &case(&rt, alloc, usual, FIREWALL, &FLOWS, 9, &[])?)?;
    tell(&rt, &case(&rt, alloc, usual, FIREWALL, &FLOWS, 3, &[])?)?;
    tell(&rt, &case(&rt, alloc, usual, NARROW, &FLOW, 9, &[])?)?;
    tell(&rt, &case(&rt, alloc, usual, FIREWALL, &FLOW, 9, &[12])?)?;
    tell(&rt, &case(&rt, alloc, LARGE, FIREWALL, &NOTHING, 9, &[])?)
}
