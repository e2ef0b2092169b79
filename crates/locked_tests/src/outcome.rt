//! Runs of the bridge over files in memory, and what they come to.
ghost use Rattle.std.specs.Prelude.{◌≡◌, ◌≤◌, length};
ghost use Rattle.nf_base.specs.Doors.{six_ports};
ghost use Rattle.nf_base.specs.Functions.{function_of};
ghost use Rattle.nf_files.specs.Told.{IsEmptyIfTold, IsRead, IsWritten};
ghost use Rattle.packet_feed.specs.Told.{EachFile, IsApart};
ghost use Rattle.packet_feed.specs.Sources.{files_in, sixes_in};

use crate::calls::{create_all, open_all, run_all, start};
use lock_mode::Gate;
use nf_base::card::Card;
use nf_base::func::Func;
use nf_base::worker_turns::Turns;
use nf_files::{Files, MemoryFiles};
use nf_syntax::parse;
use nf_types::check;
use packet_feed::{Feed, FeedFault};
use run_history::line::Mode;
use run_history::state_text::state_text;
use std::alloc::{AllocError, Global};
use std::sync::Wait;
use std::thread::Threads;
use stream_run::{Ending, RunFault};

/// How a run ended.
#[derive(Clone, Copy, Debug, PartialEq, Eq)]
pub enum End {
    /// The text is no function of two ports, or memory ran out while it was read.
    NoFunction,
    /// A capture could not be opened.
    Unopened,
    Unstarted(FeedFault),
    /// An output or the journal could not be created.
    Uncreated,
    Stopped(RunFault),
    /// So many packets were handled.
    Ran(Mode, Ending, u32),
}

/// What a run came to.
#[derive(Drop)]
pub struct Outcome {
    pub end: End,
    /// The text of the last state.
    pub state: Vec<u8>,
    /// What stands in the outputs, by port, and behind them in the journal: `-` where there is none.
    pub files: Vec<Vec<u8>>,
}

/// The names of the captures, by port.
const CAPTURES: [&str; 2] = ["a", "b"];

/// The names of the outputs, by port, and of the journal.
const OUTPUTS: [&str; 3] = ["0", "1", "journal"];

/// The function that a text is.
pub fn function(alloc: Global, text: &[u8]) -> Option<Func> {
    let tree = parse(alloc, text).ok()?;
    check(alloc, &tree).ok()
}

/// Runs a function of two ports by two workers over captures, and at most so many packets; the calls on files that are
/// listed fail.
pub fn outcome_of<R: Threads + Wait + Sync, T: Turns + Sync, G: Gate + Drop + Send>(
    rt: &R,
    alloc: Global,
    text: &[u8],
    captures: &[Vec<u8>],
    most: u32,
    fails: &[u64],
    turns: &T,
    gate: &mut G,
) -> Result<Outcome, AllocError> {
    let mut files = MemoryFiles::new(alloc, Vec::from_slice(alloc, fails)?);
    for (name, bytes) in CAPTURES.iter().zip(captures) {
        files.put(name, bytes.as_slice())?;
    }
    let mut outcome = Outcome {
        end: End::NoFunction,
        state: Vec::new(alloc),
        files: Vec::new(alloc),
    };
    if let Some(func) = function(alloc, text) {
        if func.handlers.len() == 2 {
            run_over(
                rt,
                alloc,
                &mut files,
                &func,
                most,
                turns,
                gate,
                &mut outcome,
            )?;
        }
    }
    for name in &OUTPUTS {
        let bytes = files.content(name).unwrap_or(b"-");
        outcome.files.push(Vec::from_slice(alloc, bytes)?)?;
    }
    Ok(outcome)
}

/// Runs a function over captures that are opened, where a file was created for each port and one for the journal.
fn run_made<R: Threads + Wait + Sync, F: Files, T: Turns + Sync, G: Gate + Drop + Send>(
    rt: &R,
    alloc: Global,
    files: &mut F,
    func: &Func,
    feed: &mut Feed,
    opened: &[u32],
    made: &[u32],
    turns: &T,
    gate: &mut G,
    outcome: &mut Outcome,
) -> Result<(), AllocError>
    requires captures { files_in feed.old.sources ≡ opened.now }
    requires six { sixes_in feed.old.sources ≡ six_ports (function_of func.now) }
    requires ports { length opened.now ≡ length func.now.handlers }
    requires new { feed.old.given ≡ 0 }
    requires readable { EachFile (IsRead (F.told files.old)) opened.now }
    requires writable { EachFile (IsWritten (F.told files.old)) made.now }
    requires apart { IsApart made.now }
    requires few { length made.now ≤ 3 }
    requires empty { EachFile (λ file. IsEmptyIfTold ((F.told files.old).given file)) made.now }
{
    if made.len() != func.handlers.len() as usize + 1 {
        outcome.end = End::Uncreated;
        return Ok(());
    }
    match run_all(
        rt,
        alloc,
        files,
        func,
        Card::usual(),
        feed,
        opened,
        made,
        turns,
        gate,
    ) {
        Err(stop) => outcome.end = End::Stopped(stop),
        Ok(came) => {
            outcome.end = End::Ran(came.mode, came.ran.ending, came.ran.packets);
            outcome.state = state_text(alloc, func, &came.ran.state)?;
        }
    }
    Ok(())
}

/// Runs a function over the captures in any files.
fn run_over<R: Threads + Wait + Sync, F: Files, T: Turns + Sync, G: Gate + Drop + Send>(
    rt: &R,
    alloc: Global,
    files: &mut F,
    func: &Func,
    most: u32,
    turns: &T,
    gate: &mut G,
    outcome: &mut Outcome,
) -> Result<(), AllocError>
    requires ports { length func.now.handlers ≡ 2 }
{
    match open_all(alloc, files, &CAPTURES) {
        Err(_) => outcome.end = End::Unopened,
        Ok(opened) => match start(alloc, files, func, opened.as_slice(), most) {
            Err(fault) => outcome.end = End::Unstarted(fault),
            Ok(mut feed) => match create_all(alloc, files, &OUTPUTS) {
                Err(_) => outcome.end = End::Uncreated,
                Ok(made) => {
                    let (opened, made) = (opened.as_slice(), made.as_slice());
                    return run_made(
                        rt, alloc, files, func, &mut feed, opened, made, turns, gate, outcome,
                    );
                }
            },
        },
    }
    Ok(())
}
