//! Runs over files in memory, and what they come to.
ghost use Rattle.std.specs.Prelude.{◌≡◌, ◌≤◌, length};
ghost use Rattle.nf_base.specs.Doors.{six_ports};
ghost use Rattle.nf_base.specs.Functions.{function_of};
ghost use Rattle.nf_files.specs.Told.{IsEmptyIfTold, IsRead, IsWritten};
ghost use Rattle.packet_feed.specs.Told.{EachFile, IsApart};
ghost use Rattle.packet_feed.specs.Sources.{files_in, sixes_in};

use crate::calls::{create_all, open_all, run_all, start, torn};
use crate::verdict::keys_of;
use nf_base::card::Card;
use nf_base::func::Func;
use nf_files::{Files, MemoryFiles};
use nf_syntax::parse;
use nf_types::check;
use packet_feed::{Feed, FeedFault};
use run_history::state_text::state_text;
use sharded_run::ShardedResult;
use std::alloc::{AllocError, Global};
use std::sync::Wait;
use std::thread::Threads;
use stream_run::{Ending, RunFault};

/// How a run ended.
#[derive(Clone, Copy, Debug, PartialEq, Eq)]
pub enum End {
    /// The text is no function of as many ports as there are captures.
    NoFunction,
    /// No keys serve it.
    NoKeys,
    /// A capture could not be opened.
    Unopened,
    Unstarted(FeedFault),
    /// An output or the journal could not be created.
    Uncreated,
    Stopped(RunFault),
    /// So many packets were handled.
    Ran(Ending, u32),
    /// A share has no index left: of this queue, behind so many packets.
    Full(u32, u32),
}

/// What a run came to.
#[derive(Drop)]
pub struct Outcome {
    pub end: End,
    pub torn: Option<(u32, u64)>,
    /// The text of the last state.
    pub state: Vec<u8>,
    /// What stands in the outputs, by port, and behind them in the journal: `-` where there is none.
    pub files: Vec<Vec<u8>>,
}

/// The names of the captures, by port.
const CAPTURES: [&str; 4] = ["a", "b", "c", "d"];

/// The names of the outputs, by port, and of the journal, for so many ports.
const ONE: [&str; 2] = ["0", "journal"];

const TWO: [&str; 3] = ["0", "1", "journal"];

const THREE: [&str; 4] = ["0", "1", "2", "journal"];

const FOUR: [&str; 5] = ["0", "1", "2", "3", "journal"];

fn outputs(ports: usize) -> &'static [&'static str]
    ensures { length result.now ≤ 5 }
{
    match ports {
        0 | 1 => &ONE,
        2 => &TWO,
        3 => &THREE,
        _ => &FOUR,
    }
}

/// The function that a text is.
fn function(alloc: Global, text: &[u8]) -> Option<Func> {
    let tree = parse(alloc, text).ok()?;
    check(alloc, &tree).ok()
}

/// Runs a function over captures, of which there are at most four, and at most so many packets, with a card; the calls
/// on files that are listed fail.
pub fn outcome_of<R: Threads + Wait + Clone + Send + Sync + Drop + 'static>(
    rt: &R,
    alloc: Global,
    card: Card,
    text: &[u8],
    captures: &[Vec<u8>],
    most: u32,
    fails: &[u64],
) -> Result<Outcome, AllocError> {
    let mut files = MemoryFiles::new(alloc, Vec::from_slice(alloc, fails)?);
    for (name, bytes) in CAPTURES.iter().zip(captures) {
        files.put(name, bytes.as_slice())?;
    }
    let count = captures.len().min(4);
    let names = &CAPTURES[..count];
    let mut outcome = Outcome {
        end: End::NoFunction,
        torn: None,
        state: Vec::new(alloc),
        files: Vec::new(alloc),
    };
    if let Some(func) = function(alloc, text) {
        if func.handlers.len() as usize == names.len() {
            run_over(
                rt,
                alloc,
                &mut files,
                &func,
                card,
                names,
                most,
                &mut outcome,
            )?;
        }
    }
    for name in outputs(names.len()) {
        let bytes = files.content(name).unwrap_or(b"-");
        outcome.files.push(Vec::from_slice(alloc, bytes)?)?;
    }
    Ok(outcome)
}

/// Runs a function over captures that are opened, where a file was created for each port and one for the journal.
fn run_made<R: Threads + Wait + Clone + Send + Sync + Drop + 'static, F: Files>(
    rt: &R,
    alloc: Global,
    files: &mut F,
    func: &Func,
    card: Card,
    feed: &mut Feed,
    opened: &[u32],
    made: &[u32],
    outcome: &mut Outcome,
) -> Result<(), AllocError>
    requires captures { files_in feed.old.sources ≡ opened.now }
    requires six { sixes_in feed.old.sources ≡ six_ports (function_of func.now) }
    requires ports { length opened.now ≡ length func.now.handlers }
    requires new { feed.old.given ≡ 0 }
    requires readable { EachFile (IsRead (F.told files.old)) opened.now }
    requires writable { EachFile (IsWritten (F.told files.old)) made.now }
    requires apart { IsApart made.now }
    requires few { length made.now ≤ 5 }
    requires empty { EachFile (λ file. IsEmptyIfTold ((F.told files.old).given file)) made.now }
{
    if made.len() != func.handlers.len() as usize + 1 {
        outcome.end = End::Uncreated;
        return Ok(());
    }
    let Some(keys) = keys_of(alloc, func, card)? else {
        outcome.end = End::NoKeys;
        return Ok(());
    };
    let ran = run_all(rt, alloc, files, func, &keys, card, feed, opened, made);
    outcome.torn = torn(feed);
    match ran {
        Err(stop) => outcome.end = End::Stopped(stop),
        Ok(ShardedResult::Ran(ran)) => {
            outcome.end = End::Ran(ran.ending, ran.packets);
            outcome.state = state_text(alloc, func, &ran.state)?;
        }
        Ok(ShardedResult::Full(full)) => outcome.end = End::Full(full.stop.queue, full.packets),
    }
    Ok(())
}

/// Runs a function over the captures of these names in any files.
fn run_over<R: Threads + Wait + Clone + Send + Sync + Drop + 'static, F: Files>(
    rt: &R,
    alloc: Global,
    files: &mut F,
    func: &Func,
    card: Card,
    names: &[&str],
    most: u32,
    outcome: &mut Outcome,
) -> Result<(), AllocError>
    requires ports { length names.now ≡ length func.now.handlers }
    requires few { length names.now ≤ 4 }
{
    match open_all(alloc, files, names) {
        Err(_) => outcome.end = End::Unopened,
        Ok(opened) => match start(alloc, files, func, opened.as_slice(), most) {
            Err(fault) => outcome.end = End::Unstarted(fault),
            Ok(mut feed) => match create_all(alloc, files, outputs(names.len())) {
                Err(_) => outcome.end = End::Uncreated,
                Ok(made) => {
                    let (opened, made) = (opened.as_slice(), made.as_slice());
                    return run_made(
                        rt, alloc, files, func, card, &mut feed, opened, made, outcome,
                    );
                }
            },
        },
    }
    Ok(())
}
