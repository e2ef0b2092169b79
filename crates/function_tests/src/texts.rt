//! Where the texts that lines spell are first at fault. In a line `\n`, `\t`, `\r` and `\\` stand for the bytes that they
//! usually do, and `\xHH` for the byte of two hexadecimal digits. Behind them it is said whether trees and functions of
//! some texts have what is right.
ghost use Rattle.std.specs.Prelude.{◌≤◌};

mod functions;
mod trees;

use nf_syntax::parse;
use nf_types::check;
use std::alloc::{AllocError, Global};
use std::io;

/// The value of a hexadecimal digit, 0 of any other byte.
fn digit(byte: u8) -> u8
    ensures { result ≤ 15 }
{
    match byte {
        b'0'..=b'9' => byte - b'0',
        b'a'..=b'f' => byte - b'a' + 10,
        _ => 0,
    }
}

/// What a byte stands for behind a backslash.
fn escaped(byte: u8) -> u8 {
    match byte {
        b'n' => b'\n',
        b't' => b'\t',
        b'r' => b'\r',
        _ => byte,
    }
}

/// The bytes that a line spells.
fn text_of(alloc: Global, line: &[u8]) -> Result<Vec<u8>, AllocError> {
    let mut text = Vec::new(alloc);
    let mut rest = line;
    'each: loop {
        match rest {
            [b'\\', b'x', high, low, behind @ ..] => {
                text.push(digit(*high) * 16 + digit(*low))?;
                rest = behind;
            }
            [b'\\', byte, behind @ ..] => {
                text.push(escaped(*byte))?;
                rest = behind;
            }
            [byte, behind @ ..] => {
                text.push(*byte)?;
                rest = behind;
            }
            [] => return Ok(text),
        }
    }
}

/// Prints where a text is first at fault, or that it is a function.
fn print_judged(rt: &HostRuntime, text: &[u8]) -> io::Result<()> {
    match parse(rt.alloc(), text) {
        Ok(tree) => match check(rt.alloc(), &tree) {
            Ok(_) => println!(rt; "good"),
            Err(fault) => println!(rt; "{fault}"),
        },
        Err(fault) => println!(rt; "{fault}"),
    }
}

fn tell_functions(rt: &HostRuntime) -> io::Result<()> {
    let alloc = rt.alloc();
    let copied = functions::long_block_is_copied(alloc);
    let refused = functions::long_block_is_refused(alloc);
    println!(rt;
        "the firewall is a function: {}",
        functions::is_firewall(alloc)
    )?;
    println!(rt;
        "a function is copied: {}",
        functions::firewall_is_copied(alloc)
    )?;
    println!(rt; "a block as long as the text is checked and copied: {copied}")?;
    println!(rt; "the first fault of a long block is found: {refused}")
}

fn tell_trees(rt: &HostRuntime) -> io::Result<()> {
    let alloc = rt.alloc();
    let declarations = trees::declarations_have_their_places(alloc);
    let statements = trees::statements_have_their_places(alloc);
    let long = trees::longest_is_read(alloc) && trees::longer_is_refused(alloc);
    println!(rt; "declarations have their places: {declarations}")?;
    println!(rt; "statements have their places: {statements}")?;
    println!(rt;
        "all forms of numbers are read: {}",
        trees::numbers_are_read(alloc)
    )?;
    println!(rt; "a block as long as the text is read, and a longer one is not: {long}")
}

/// Prints of each line where its text is first at fault, or that it is a function; and what stands in some trees and functions.
pub fn print_all(rt: &HostRuntime, cases: &str) -> io::Result<()> {
    for line in cases.lines() {
        let text = text_of(rt.alloc(), line.as_bytes())?;
        print_judged(rt, text.as_slice())?;
    }
    tell_functions(rt)?;
    tell_trees(rt)
}
