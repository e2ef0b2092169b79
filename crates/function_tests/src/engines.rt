//! Functions on the tables and on the plain interpreter side by side, over packets made by a linear congruential
//! generator: whether both come to the same with each packet and in the end.

mod sides;
mod traffic;

use crate::engines::sides::{compare, replay_all};
use crate::functions::function;
use crate::long::statements;
use nf_base::func::Func;
use nf_meaning::fault::StepFault;
use std::io;

/// How many packets each function gets, each way.
const PACKETS: u32 = 400;

/// Whether both sides come to the same over so many packets, however the choices are made.
fn agree(rt: &HostRuntime, func: &Func, count: u32) -> Result<bool, StepFault> {
    Ok(compare(rt.alloc(), func, count)? && replay_all(rt.alloc(), func, count)?)
}

/// A statement of each kind, and how many of it a text of 1 MiB may have in one block.
const LONG: [(&str, u32); 9] = [
    ("touch e;", 131_000),
    ("free e;", 131_000),
    ("e.u = 1;", 131_000),
    ("v[0]=1;", 131_000),
    ("set ttl=1;", 104_000),
    ("if 1<2{}", 131_000),
    ("get x = c.m(1) { }", 31),
    ("find x = c[0] { }", 31),
    ("new x = c(a = 1) { }", 15),
];

/// Prints whether both sides come to the same on the function of a text.
fn print_agreed(rt: &HostRuntime, text: &[u8], count: u32) -> io::Result<()> {
    let func = match function(rt.alloc(), text) {
        Ok(func) => func,
        Err(fault) => return println!(rt; "{fault}"),
    };
    match agree(rt, &func, count) {
        Ok(true) => println!(rt; "the same"),
        Ok(false) => println!(rt; "they differ"),
        Err(_) => println!(rt; "out of memory"),
    }
}

/// Runs the function of each line, and then blocks of as many statements of one kind as a text can have, over a few
/// packets.
pub fn print_all(rt: &HostRuntime, cases: &str) -> io::Result<()> {
    for line in cases.lines() {
        print_agreed(rt, line.as_bytes(), PACKETS)?;
    }
    for (statement, times) in LONG {
        let text = statements(rt.alloc(), statement, times)?;
        print_agreed(rt, text.as_slice(), 8)?;
    }
    Ok(())
}
