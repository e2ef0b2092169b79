//! What certificates show, or which of their lines is the first that is wrong.
//!
//! A case is a line with a function, the lines of a certificate, and a line with a dot.

use crate::functions::function;
use access_keys::sites;
use key_proof::{CertifyFault, certify};
use key_synth::{Cause, Verdict};
use nf_base::func::Func;
use shard_rules::join;
use std::alloc::Global;
use std::io;

/// The verdict on a function that a certificate shows.
fn verdict_shown(alloc: Global, func: &Func, text: &[u8]) -> Result<Verdict, CertifyFault> {
    let Ok(all) = sites(alloc, func) else {
        return Err(CertifyFault::Memory);
    };
    let Ok(plan) = join(alloc, func, all.as_slice()) else {
        return Err(CertifyFault::Memory);
    };
    certify(alloc, func, all.as_slice(), &plan, text)
}

fn print_shown(rt: &HostRuntime, func: &Func, text: &[u8]) -> io::Result<()> {
    match verdict_shown(rt.alloc(), func, text) {
        Ok(Verdict::Sharded(keys)) => println!(rt; "sharded, {} keys", keys.ports.len()),
        Ok(Verdict::Locked(Cause::Hash)) => println!(rt; "locked by the hash"),
        Ok(Verdict::Locked(Cause::Object { .. })) => println!(rt; "locked by an object"),
        Err(fault) => println!(rt; "{fault}"),
    }
}

fn print_case(rt: &HostRuntime, line: &[u8], text: &[u8]) -> io::Result<()> {
    match function(rt.alloc(), line) {
        Ok(func) => print_shown(rt, &func, text),
        Err(fault) => println!(rt; "{fault}"),
    }
}

/// Prints what the certificate of each case shows.
pub fn print_all(rt: &HostRuntime, cases: &str) -> io::Result<()> {
    let mut function: &[u8] = b"";
    let mut text = Vec::new(rt.alloc());
    for line in cases.lines() {
        let bytes = line.as_bytes();
        match bytes {
            [b'.'] => {
                print_case(rt, function, text.as_slice())?;
                text.clear();
            }
            [b'n', b'f', b' ', ..] => function = bytes,
            _ => {
                text.extend_from_slice(bytes)?;
                text.push(b'\n')?;
            }
        }
    }
    Ok(())
}
