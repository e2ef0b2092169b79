//! What is said of functions as text: of each word the cases in the file of that name, one a line, under a heading.
//!
//! The words: `texts`, where each is first at fault, and what stands in some trees and functions; `codes`, what stands at
//! each place of their code; `engines`, whether the tables and the plain interpreter come to the same; `paths`, how many
//! made up blocks have (there is no file of them); `sites`; `verdicts`, what `explain` says; `certified`, what
//! certificates show; `certificates`, which are written. A word `times:NAME` prints how long it takes to find the sites
//! of the long function of that name.
#![tactic(auto)]

mod certificates;
mod certified;
mod codes;
mod engines;
mod functions;
mod long;
mod paths;
mod sites;
mod texts;
mod verdicts;

use std::{env, fs, io};

/// Prints what is said of the cases of this name.
fn print_cases(rt: &HostRuntime, name: &str, cases: &str) -> io::Result<()> {
    match name {
        "texts" => texts::print_all(rt, cases),
        "codes" => codes::print_all(rt, cases),
        "engines" => engines::print_all(rt, cases),
        "sites" => sites::print_all(rt, cases),
        "verdicts" => verdicts::print_all(rt, cases),
        "certified" => certified::print_all(rt, cases),
        "certificates" => certificates::print_all(rt, cases),
        _ => Err(io::Error::new(io::ErrorKind::InvalidInput, "no cases of this name")),
    }
}

/// Prints what a word asks for, under a heading.
fn print_word(rt: &HostRuntime, word: &str) -> io::Result<()> {
    if let Some(name) = word.strip_prefix("times:") {
        return sites::times::print(rt, name);
    }
    println!(rt; "== {word}")?;
    if word == "paths" {
        return paths::print_all(rt);
    }
    let cases = fs::read_to_string(rt, word)?;
    print_cases(rt, word, cases.as_str())
}

fn main(rt: HostRuntime) -> io::Result<()> {
    for word in env::args(&rt)?.skip(1) {
        print_word(&rt, word.as_str())?;
    }
    Ok(())
}
