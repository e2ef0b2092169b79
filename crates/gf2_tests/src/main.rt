//! Solves linear equations over GF(2), a system a line: the wanted vector, the rows, and the
//! groups, as in `000 | 111 | 100 010`. Prints the nearest solution with a 1 in each group, or
//! `none`.
//!
//! Given words, it solves the made up systems of those names (`free`, `dense`, `sparse`, `tight`,
//! `half`, `repeated`, `joined`) over 508 and 1,276 bits with 4 groups, and prints how long that
//! took.
//! Its tests are those of the solver.
#![tactic(auto)]

mod line;
mod systems;
#[cfg(test)]
mod tests;
mod times;
#[cfg(test)]
mod wide_tests;

use std::{env, io};

fn main(rt: HostRuntime) -> io::Result<()> {
    let mut timed = false;
    for word in env::args(&rt)?.skip(1) {
        timed = true;
        times::print(&rt, word.as_str())?;
    }
    if !timed {
        for line in rt.lines(rt.alloc()) {
            let answer = line::answer(rt.alloc(), line?.as_str())?;
            println!(rt; "{}", answer.as_str())?;
        }
    }
    Ok(())
}
