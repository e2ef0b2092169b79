//! How long it takes to solve the made up systems.
use crate::systems::{Keys, groups, rows, scattered, system};
use gf2_solve::Bits;
use std::io;
use std::time::Instant;

/// Prints how long it takes to add the rows of a system, and to solve it for wanted vectors of
/// zeros, of ones, and with about as many of each.
pub fn print(rt: &HostRuntime, name: &str) -> io::Result<()> {
    for keys in [Keys::Four, Keys::Six] {
        for (wanted, one_in) in [("zeros", 0), ("ones", 1), ("both", 2)] {
            print_one(rt, keys, name, wanted, one_in)?;
        }
    }
    Ok(())
}

fn print_one(rt: &HostRuntime, keys: Keys, name: &str, word: &str, one_in: u64) -> io::Result<()> {
    let width = keys.width();
    let rows = rows(rt.alloc(), keys, name)?;
    let groups = groups(rt.alloc(), keys)?;
    let wanted = scattered(rt.alloc(), width, 1_000_000, one_in)?;
    let start = Instant::now(rt)?;
    let system = system(rt.alloc(), width, rows.as_slice())?;
    let added = start.elapsed(rt)?.as_micros();
    let start = Instant::now(rt)?;
    let nearest = system.nearest(rt.alloc(), &wanted, groups.as_slice())?;
    let solved = start.elapsed(rt)?.as_micros();
    match nearest {
        Some(x) => {
            let ones = ones(&x);
            println!(rt; "{width} {name} {word}: rows {added} us, nearest {solved} us, {ones} ones")
        }
        None => {
            println!(rt; "{width} {name} {word}: rows {added} us, nearest {solved} us, none")
        }
    }
}

/// How many bits are 1.
fn ones(bits: &Bits) -> usize {
    bits.as_slice().iter().filter(|bit| **bit).count()
}
