//! The certificates of functions.
//!
//! A case is a line with a function, for the card of the line before it that has the entries of a table and the bytes of
//! a key.
ghost use Rattle.nf_base.specs.Functions.{function_of};
ghost use Rattle.declared_laws.specs.Declares.{DeclaresObjects};

use crate::functions::{function, print_text};
use access_keys::sites;
use key_certificate::prove;
use key_synth::synthesise;
use nf_base::card::{Card, KeySize, TableSize};
use nf_base::func::Func;
use shard_rules::join;
use std::alloc::{AllocError, Global};
use std::io;

fn card_in(line: &str) -> Option<Card> {
    let (table, key) = match line {
        "128 40" => (TableSize::Entries128, KeySize::Bytes40),
        "128 52" => (TableSize::Entries128, KeySize::Bytes52),
        "512 40" => (TableSize::Entries512, KeySize::Bytes40),
        "512 52" => (TableSize::Entries512, KeySize::Bytes52),
        _ => return None,
    };
    Some(Card { table, key })
}

/// The certificate of a function's verdict.
fn certificate(alloc: Global, func: &Func, card: Card) -> Result<Vec<u8>, AllocError>
    requires declares { DeclaresObjects (function_of func.now) }
{
    let all = sites(alloc, func)?;
    let plan = join(alloc, func, all.as_slice())?;
    let verdict = synthesise(alloc, func, &plan, card)?;
    prove(alloc, func, all.as_slice(), &plan, &verdict, card)
}

fn print_certificate(rt: &HostRuntime, line: &str, card: Card) -> io::Result<()> {
    match function(rt.alloc(), line.as_bytes()) {
        Ok(func) => print_text(rt, certificate(rt.alloc(), &func, card)?.as_slice()),
        Err(fault) => println!(rt; "{fault}"),
    }
}

/// Prints the certificate of each function.
pub fn print_all(rt: &HostRuntime, cases: &str) -> io::Result<()> {
    let mut card = Card::usual();
    for line in cases.lines() {
        match card_in(line) {
            Some(given) => card = given,
            None => print_certificate(rt, line, card)?,
        }
    }
    Ok(())
}
