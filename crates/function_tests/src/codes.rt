//! Where the handlers of functions begin in their code, and what stands at each place.

use crate::functions::function;
use nf_base::func::Func;
use nf_base::packet::{Door, Family};
use nf_code::code::{Code, Op};
use nf_code::ready::Ready;
use std::io;

fn tell_op(rt: &HostRuntime, at: usize, op: Op) -> io::Result<()> {
    match op {
        Op::Falls => println!(rt; "  {at}: falls off"),
        Op::Forward(_) => println!(rt; "  {at}: forward"),
        Op::Flood => println!(rt; "  {at}: flood"),
        Op::Discard => println!(rt; "  {at}: drop"),
        Op::Do { next, .. } => println!(rt; "  {at}: do, then {next}"),
        Op::Ask { hit, miss, .. } => println!(rt; "  {at}: ask, hit {hit}, miss {miss}"),
        Op::Make {
            made,
            taken,
            full,
            ..
        } => println!(rt; "  {at}: make, made {made}, taken {taken}, full {full}"),
    }
}

fn tell_code(rt: &HostRuntime, code: &Code) -> io::Result<()> {
    for at in 0..code.len() {
        tell_op(rt, at, code.op(at))?;
    }
    Ok(())
}

/// Says where the handlers of a port begin.
fn tell_port(rt: &HostRuntime, ready: &Ready, port: u32) -> io::Result<()> {
    if let Some((_, at)) = ready.start(Door {
        port,
        family: Family::Four,
    }) {
        println!(rt; "port {port}: IPv4 at {at}")?;
    }
    if let Some((_, at)) = ready.start(Door {
        port,
        family: Family::Six,
    }) {
        println!(rt; "port {port}: IPv6 at {at}")?;
    }
    Ok(())
}

fn tell(rt: &HostRuntime, func: &Func) -> io::Result<()> {
    let Ok(ready) = Ready::of(rt.alloc(), func) else {
        return println!(rt; "out of memory");
    };
    for port in 0..4 {
        tell_port(rt, &ready, port)?;
    }
    match ready.start(Door {
        port: 0,
        family: Family::Four,
    }) {
        Some((code, _)) => tell_code(rt, code),
        None => println!(rt; "no handler"),
    }
}

/// Makes the function of each line ready, and tells its code.
pub fn print_all(rt: &HostRuntime, cases: &str) -> io::Result<()> {
    for line in cases.lines() {
        match function(rt.alloc(), line.as_bytes()) {
            Ok(func) => tell(rt, &func)?,
            Err(fault) => println!(rt; "{fault}")?,
        }
    }
    Ok(())
}
