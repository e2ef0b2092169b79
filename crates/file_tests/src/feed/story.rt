//! What captures in memory give, from the first packet to the end.
ghost use Rattle.std.specs.Prelude.{◌≡◌, ◌≤◌, length};
ghost use Rattle.nf_files.specs.Told.{IsRead};
ghost use Rattle.packet_feed.specs.Told.{EachFile};
ghost use Rattle.packet_feed.specs.Sources.{files_in};

use nf_base::func::Func;
use nf_base::packet::Packet;
use nf_files::Files;
use packet_feed::{Fed, Feed, FeedFault};
use std::alloc::{AllocError, Global};
use test_samples::files::{holding, last, next, open_all, start, torn};
use test_samples::functions::function;

/// What is shown of a packet.
#[derive(Clone, Copy, Debug, PartialEq, Eq)]
pub struct Line {
    pub time: u64,
    pub port: u32,
    pub seq: u32,
    /// The first captured byte of its frame, and how many were captured.
    pub byte: u8,
    pub captured: usize,
    pub original: u32,
    pub handled: bool,
}

/// How it ended.
#[derive(Clone, Copy, Debug, PartialEq, Eq)]
pub enum End {
    End,
    TooMany,
    /// The text is no function of as many ports as there are captures.
    NoFunction,
    /// A capture could not be opened.
    Unopened,
    Unstarted(FeedFault),
    Fault(FeedFault),
    /// It didn't end.
    Never,
}

#[derive(Drop)]
pub struct Story {
    pub lines: Vec<Line>,
    pub end: End,
    pub torn: Option<(u32, u64)>,
}

/// The names of the captures, by port.
const NAMES: [&str; 4] = ["0", "1", "2", "3"];

/// Functions of one to four ports, each with a handler for IPv4 alone.
pub const FUNCTIONS: [&str; 4] = [
    "nf one { ports 1; on 0 { } }",
    "nf two { ports 2; on 0 { } on 1 { } }",
    "nf three { ports 3; on 0 { } on 1 { } on 2 { } }",
    "nf four { ports 4; on 0 { } on 1 { } on 2 { } on 3 { } }",
];

/// The packets of captures, of which there are at most four, and none of whose ports has a handler for
/// IPv6; the calls on files that are listed fail.
pub fn read_all(
    alloc: Global,
    captures: &[Vec<u8>],
    fails: &[u64],
    most: u32,
) -> Result<Story, AllocError> {
    let at = captures.len().max(1).min(4) - 1;
    read_for(alloc, FUNCTIONS[at], captures, fails, most)
}

/// The same for the ports of a function.
pub fn read_for(
    alloc: Global,
    text: &str,
    captures: &[Vec<u8>],
    fails: &[u64],
    most: u32,
) -> Result<Story, AllocError> {
    let names = &NAMES[..captures.len().min(4)];
    let mut files = holding(alloc, names, captures, fails)?;
    let mut told = Story {
        lines: Vec::new(alloc),
        end: End::Never,
        torn: None,
    };
    match function(alloc, text.as_bytes()) {
        Some(func) if func.handlers.len() as usize == names.len() => {
            read_from(alloc, &mut files, &func, names, most, &mut told)?;
        }
        _ => told.end = End::NoFunction,
    }
    Ok(told)
}

/// The same of any files.
fn read_from<F: Files>(
    alloc: Global,
    files: &mut F,
    func: &Func,
    names: &[&str],
    most: u32,
    told: &mut Story,
) -> Result<(), AllocError>
    requires few { length names.now ≤ 4 }
    requires ports_of { length names.now ≡ length func.now.handlers }
{
    match open_all(alloc, files, names) {
        Err(_) => told.end = End::Unopened,
        Ok(opened) => match start(alloc, files, func, opened.as_slice(), most) {
            Err(fault) => told.end = End::Unstarted(fault),
            Ok(mut feed) => tell(&mut feed, files, told)?,
        },
    }
    Ok(())
}

/// A line of a packet that was given.
fn shown(feed: &Feed, packet: &Packet) -> Line {
    let (frame, original) = last(feed);
    Line {
        time: packet.time,
        port: packet.id.port,
        seq: packet.id.seq,
        byte: frame.first().copied().unwrap_or(0),
        captured: frame.len(),
        original,
        handled: packet.fields.is_some(),
    }
}

/// Tells packets until the end.
fn tell<F: Files>(feed: &mut Feed, files: &mut F, told: &mut Story) -> Result<(), AllocError>
    requires { EachFile (IsRead (F.told files.old)) (files_in feed.old.sources) }
{
    for _ in 0..1000 {
        match next(feed, files) {
            Ok(Fed::Packet(packet)) => told.lines.push(shown(feed, &packet))?,
            Ok(Fed::End) => {
                told.end = End::End;
                told.torn = torn(feed);
                return Ok(());
            }
            Ok(Fed::TooMany) => {
                told.end = End::TooMany;
                return Ok(());
            }
            Err(fault) => {
                told.end = End::Fault(fault);
                return Ok(());
            }
        }
    }
    Ok(())
}
