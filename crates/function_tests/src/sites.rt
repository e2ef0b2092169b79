//! The sites of functions, and how many some functions have whose texts are as long as a text may be.

mod named;
mod telling;
pub mod times;

use crate::functions::{count_each, function};
use crate::sites::named::{LONG, text};
use crate::sites::telling::told;
use access_keys::{Site, sites};
use nf_base::func::Func;
use path_walk::WalkFault;
use std::alloc::Global;
use std::io;

/// The sites of a function whose handlers have no more than 4,096 paths each.
fn found(alloc: Global, func: &Func) -> Result<Vec<Site>, WalkFault> {
    count_each(alloc, func)?;
    Ok(sites(alloc, func)?)
}

/// Prints the sites of a function, one a line.
fn print_sites(rt: &HostRuntime, func: &Func) -> io::Result<()> {
    let all = match found(rt.alloc(), func) {
        Ok(all) => all,
        Err(fault) => return println!(rt; "{fault}"),
    };
    for site in all.as_slice() {
        let line = told(rt.alloc(), func, site)?;
        println!(rt; "{}", line.as_str())?;
    }
    println!(rt; "{} sites", all.len())
}

/// Prints how many sites a function has.
fn print_count(rt: &HostRuntime, name: &str, func: &Func) -> io::Result<()> {
    match found(rt.alloc(), func) {
        Ok(all) => println!(rt; "{name}: {} sites", all.len()),
        Err(fault) => println!(rt; "{name}: {fault}"),
    }
}

/// Prints how many sites the long function of this name has.
fn print_long(rt: &HostRuntime, name: &str) -> io::Result<()> {
    match function(rt.alloc(), text(rt.alloc(), name)?.as_slice()) {
        Ok(func) => print_count(rt, name, &func),
        Err(fault) => println!(rt; "{name}: {fault}"),
    }
}

/// Prints the sites of the function of each line, and then the numbers of the long functions.
pub fn print_all(rt: &HostRuntime, cases: &str) -> io::Result<()> {
    for line in cases.lines() {
        match function(rt.alloc(), line.as_bytes()) {
            Ok(func) => print_sites(rt, &func)?,
            Err(fault) => println!(rt; "{fault}")?,
        }
    }
    for name in LONG {
        print_long(rt, name)?;
    }
    Ok(())
}
