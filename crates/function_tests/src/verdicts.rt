//! What the analysis of functions comes to: their objects with their sites, and their verdicts. Then how many lines and
//! bytes that is of texts that are as long as a text may be and full of sites.

use crate::functions::{Fault, count_each, function, print_text};
use crate::long::repeated;
use access_keys::sites;
use key_synth::synthesise;
use nf_base::card::Card;
use nf_base::func::Func;
use path_walk::WalkFault;
use shard_rules::join;
use std::alloc::Global;
use std::io;
use verdict_text::explain;

/// Names, statements, and how often each stands in a text.
const LONG: [(&str, &str, u32); 3] = [
    ("cells at cells", "v[v[0]]=1;", 104_000),
    ("cells at ports", "v[src_port]=v[dst_port];", 43_000),
    (
        "cells in one another",
        "v[v[v[v[v[v[v[v[0]]]]]]]]=1;",
        37_000,
    ),
];

/// The text of a function's objects and of its verdict.
fn explained(alloc: Global, func: &Func) -> Result<Vec<u8>, WalkFault> {
    count_each(alloc, func)?;
    let all = sites(alloc, func)?;
    let plan = join(alloc, func, all.as_slice())?;
    let verdict = synthesise(alloc, func, &plan, Card::usual())?;
    Ok(explain(alloc, func, all.as_slice(), &plan, &verdict)?)
}

/// The text of what the analysis of a text comes to.
fn analysis(alloc: Global, text: &[u8]) -> Result<Vec<u8>, Fault> {
    match function(alloc, text) {
        Ok(func) => explained(alloc, &func).map_err(Fault::Walk),
        Err(fault) => Err(fault),
    }
}

fn print_analysis(rt: &HostRuntime, text: &[u8]) -> io::Result<()> {
    match analysis(rt.alloc(), text) {
        Ok(told) => print_text(rt, told.as_slice()),
        Err(fault) => println!(rt; "{fault}"),
    }
}

fn print_size(rt: &HostRuntime, name: &str, text: &[u8]) -> io::Result<()> {
    match analysis(rt.alloc(), text) {
        Ok(told) => {
            let lines = told.iter().filter(|byte| **byte == b'\n').count();
            println!(rt; "{name}: {lines} lines, {} bytes", told.len())
        }
        Err(fault) => println!(rt; "{name}: {fault}"),
    }
}

/// Prints the analysis of the function of each line, and then the sizes of the long ones.
pub fn print_all(rt: &HostRuntime, cases: &str) -> io::Result<()> {
    for line in cases.lines() {
        print_analysis(rt, line.as_bytes())?;
    }
    for (name, statement, times) in LONG {
        let front = "nf long { ports 1; array v 1: 16; on 0 { ";
        let text = repeated(rt.alloc(), front, statement, times, " } }")?;
        print_size(rt, name, text.as_slice())?;
    }
    Ok(())
}
