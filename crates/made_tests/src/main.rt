//! Reads captures of made-up traffic beside files, and prints their packets, a line each: seed, how many
//! packets, of how many flows, at how many ports, one to four.
//!
//! Of each of the first eight packets in capture order it prints the port, the number there, the time in
//! nanoseconds and the frame; and last a digest of all packets. `fuzz/traffic.py` prints the same.
#![tactic(auto)]

ghost use Rattle.std.specs.Prelude.{◌≤◌, length};
ghost use Rattle.made_captures.specs.Captures.{IsMade};
ghost use Rattle.nf_files.specs.Told.{IsRead};
ghost use Rattle.packet_feed.specs.Told.{EachFile, IsApart};
ghost use Rattle.packet_feed.specs.Sources.{files_in};

mod calls;
mod digest;
mod functions;

use calls::{captures_of, next, shown, start};
use digest::Digest;
use functions::{dropping, function};
use made_captures::{MadeCaptures, Outputs};
use nf_base::func::Func;
use nf_base::packet::PacketId;
use nf_files::{Files, MemoryFiles};
use packet_feed::{Fed, Feed};
use std::alloc::Global;
use std::io;

/// How many packets are printed.
const SHOWN: u32 = 8;

fn numbers_in(line: &str) -> [u32; 4] {
    let mut numbers = [0; 4];
    for (place, word) in numbers.iter_mut().zip(line.split_whitespace()) {
        if let Ok(number) = word.parse::<u32>() {
            *place = number;
        }
    }
    numbers
}

fn show(rt: &HostRuntime, id: PacketId, time: u64, frame: &[u8]) -> io::Result<()> {
    print!(rt; "{} {} {time} ", id.port, id.seq)?;
    for byte in frame {
        print!(rt; "{byte:02x}")?;
    }
    println!(rt; "")
}

// Prints the packets of captures.
fn tell<F: Files>(rt: &HostRuntime, feed: &mut Feed, files: &mut F, count: u32) -> io::Result<()>
    requires { EachFile (IsRead (F.told files.old)) (files_in feed.old.sources) }
{
    let mut digest = Digest::new();
    for k in 0..=count {
        match next(feed, files) {
            Ok(Fed::Packet(packet)) => {
                let frame = shown(feed);
                if k < SHOWN {
                    show(rt, packet.id, packet.time, frame)?;
                }
                digest.add(&packet, frame);
            }
            Ok(Fed::End) => println!(rt; "{k} packets, digest {:016x}", digest.value())?,
            Ok(Fed::TooMany) => println!(rt; "{k} packets, and more")?,
            Err(fault) => println!(rt; "{fault}")?,
        }
    }
    Ok(())
}

fn tell_from<F: Files>(
    rt: &HostRuntime,
    alloc: Global,
    files: &mut F,
    func: &Func,
    captures: &[u32],
    count: u32,
) -> io::Result<()>
    requires readable { EachFile (IsRead (F.told files.old)) captures.now }
    requires apart { IsApart captures.now }
{
    if captures.len() > 4 || captures.len() != func.handlers.len() as usize {
        return Ok(());
    }
    match start(alloc, files, func, captures, count) {
        Err(fault) => println!(rt; "{fault}"),
        Ok(mut feed) => tell(rt, &mut feed, files, count),
    }
}

// The same of captures that are made beside files.
fn tell_beside<F: Files>(
    rt: &HostRuntime,
    alloc: Global,
    beside: &mut MadeCaptures<'_, F>,
    func: &Func,
    captures: &[u32],
    count: u32,
) -> io::Result<()>
    requires made { EachFile (IsMade beside.old.captures.now) captures.now }
    requires apart { IsApart captures.now }
{
    tell_from(rt, alloc, beside, func, captures, count)
}

fn show_for(rt: &HostRuntime, alloc: Global, func: &Func, numbers: [u32; 4]) -> io::Result<()> {
    let mut captures = captures_of(alloc, numbers)?;
    let all = captures.numbers(alloc)?;
    let mut files = MemoryFiles::new(alloc, Vec::new(alloc));
    let outputs = Outputs::new(2, 0);
    let mut beside = MadeCaptures::beside(&mut files, &mut captures, outputs);
    tell_beside(rt, alloc, &mut beside, func, all.as_slice(), numbers[1])
}

fn show_all(rt: &HostRuntime, alloc: Global, numbers: [u32; 4]) -> io::Result<()> {
    match function(alloc, dropping(numbers[3]).as_bytes()) {
        Some(func) => show_for(rt, alloc, &func, numbers),
        None => Ok(()),
    }
}

fn main(rt: HostRuntime) -> io::Result<()> {
    let alloc = rt.alloc();
    for line in rt.lines(alloc) {
        show_all(&rt, alloc, numbers_in(line?.as_str()))?;
    }
    Ok(())
}
