//! A replay, from its files to what is printed of it.
//!
//! Each function goes on from where a replay came, whatever was there before it began.
ghost use Rattle.std.specs.Prelude.{◌≡◌, ◌+◌, ◌≤◌, [], ◌∷◌, length, map, IfSome, string_bytes};
ghost use Rattle.nf_files.specs.Told.{IsRead};
ghost use Rattle.nf_base.specs.Functions.{function_of};
ghost use Rattle.packet_feed.specs.Told.{EachFile};
ghost use Rattle.replay_run.specs.Given.{AreRead};
ghost use Rattle.replay_run.specs.Queues.{lent};
ghost use Rattle.replay_run.specs.declared.result.ReplayResult.TheVariants.{Same};
ghost use Rattle.command_words.specs.View as view;
ghost use Rattle.call_base.specs.Names.{reading};
ghost use Rattle.call_base.specs.Source.{HasFewPaths};
ghost use Rattle.call_base.specs.Outside.{Outside, HasOnlyAsked, seen};
ghost use Rattle.call_base.specs.Reading.{IsFresh, HasFound, AreFrom};
ghost use Rattle.replay_call.specs.Names.{names_of};
ghost use Rattle.replay_call.specs.ReplayEnd.{ReplaysTo};
ghost use Rattle.replay_call.specs.Progress.{AreKeysOf, IsSized, IsJob, HasFed, HasReady, HasBegun, HasCome, asked};

use crate::ending::ReplayEnd;
use crate::job::Job;
use crate::names::names_behind;
use call_base::analysing::verdict_of;
use call_base::inputs::{Inputs, open_inputs};
use call_base::layout::{FileOrder, Layout};
use call_base::loading::{Found, read_function};
use call_base::opening::open_captures;
use call_base::say::print_out;
use call_base::status::{CallFault, Difference, Halt, Refusal};
use command_words::ReplayCommand;
use key_synth::Verdict;
use nf_base::keys::Keys;
use nf_base::state::State;
use nf_files::Files;
use packet_feed::Feed;
use replay_run::{OpenedJournal, ReplayResult, first_line};
use run_history::state_text::state_text;
use std::alloc::Global;

// Prints the text of the state that a run left.
fn print_state<F: Files>(
    alloc: Global,
    files: &mut F,
    job: &Job,
    state: &State,
) -> Result<ReplayEnd, Halt>
    requires sized { IsSized job.now }
    ensures replays { let now = seen (F.told files.old) (F.counted files.old) in
        (before : Outside) → IsJob before job.now → HasCome before now job.now (Same state.now) →
        ReplaysTo (asked job.now) before (seen (F.told files.new) (F.counted files.new)) result }
{
    match state_text(alloc, job.func, state) {
        Ok(text) => match print_out(files, text.as_slice()) {
            Ok(()) => Ok(ReplayEnd::Same),
            Err(stop) => Err(Halt::Stop(stop)),
        },
        Err(_) => Err(Halt::Stop(CallFault::Memory)),
    }
}

// Tells what was found.
fn told<F: Files>(
    alloc: Global,
    files: &mut F,
    job: &Job,
    came: ReplayResult,
) -> Result<ReplayEnd, Halt>
    requires sized { IsSized job.now }
    ensures replays { let now = seen (F.told files.old) (F.counted files.old) in
        (before : Outside) → IsJob before job.now → HasCome before now job.now came →
        ReplaysTo (asked job.now) before (seen (F.told files.new) (F.counted files.new)) result }
{
    match came {
        ReplayResult::Same(state) => print_state(alloc, files, job, &state),
        ReplayResult::TooMany => Ok(ReplayEnd::TooMany {
            most: job.command.most,
        }),
        ReplayResult::Line(line) => Ok(ReplayEnd::Differs(Difference::Line(line))),
        ReplayResult::Output(port) => Ok(ReplayEnd::Differs(Difference::Output(port))),
    }
}

// Judges the journal behind its first line, and the outputs, under keys for the network card that this
// line tells, if the function is given some.
fn replay_keyed<F: Files>(
    alloc: Global,
    files: &mut F,
    job: &Job,
    keys: Option<&Keys>,
    feed: &mut Feed,
    captures: &[u32],
    begun: OpenedJournal,
    outputs: &[u32],
) -> Result<ReplayEnd, Halt>
    requires sized { IsSized job.now }
    requires keyed { IfSome keys (λ k. length job.now.func.now.handlers ≤ length k.now.ports) }
    requires of_card { IfSome keys (λ k. k.now.table ≡ begun.header.card.table) }
    requires fresh { let f = function_of job.now.func.now in
        IsFresh f job.now.command.now.most captures.now feed.old }
    requires all { length captures.now ≡ job.now.layout.ports }
    requires read { EachFile (IsRead (F.told files.old)) captures.now }
    requires files { AreRead captures.now begun.lines.file outputs.now (F.told files.old) }
    ensures replays { let now = seen (F.told files.old) (F.counted files.old) in
        (before : Outside) → IsJob before job.now →
        HasBegun before now job.now captures.now feed.old begun outputs.now →
        AreKeysOf (function_of job.now.func.now) begun.header.card (lent keys.entry) →
        ReplaysTo (asked job.now) before (seen (F.told files.new) (F.counted files.new)) result }
{
    let (most, format) = (job.command.most, job.command.format);
    match replay_run::replay(
        alloc, files, job.func, keys, feed, most, captures, begun, format, outputs,
    ) {
        Ok(came) => told(alloc, files, job, came),
        Err(stop) => Err(job.layout.halt(stop)),
    }
}

// Finds the keys for the network card that the journal's first line tells, and judges what follows.
fn replay_begun<F: Files>(
    alloc: Global,
    files: &mut F,
    job: &Job,
    feed: &mut Feed,
    captures: &[u32],
    begun: OpenedJournal,
    outputs: &[u32],
) -> Result<ReplayEnd, Halt>
    requires sized { IsSized job.now }
    requires fresh { let f = function_of job.now.func.now in
        IsFresh f job.now.command.now.most captures.now feed.old }
    requires all { length captures.now ≡ job.now.layout.ports }
    requires read { EachFile (IsRead (F.told files.old)) captures.now }
    requires files { AreRead captures.now begun.lines.file outputs.now (F.told files.old) }
    ensures replays { let now = seen (F.told files.old) (F.counted files.old) in
        (before : Outside) → IsJob before job.now →
        HasBegun before now job.now captures.now feed.old begun outputs.now →
        ReplaysTo (asked job.now) before (seen (F.told files.new) (F.counted files.new)) result }
{
    match verdict_of(alloc, job.func, begun.header.card()) {
        Ok(Verdict::Sharded(keys)) => replay_keyed(
            alloc,
            files,
            job,
            Some(&keys),
            feed,
            captures,
            begun,
            outputs,
        ),
        Ok(Verdict::Locked(_)) => replay_keyed(
            alloc, files, job, None, feed, captures, begun, outputs,
        ),
        Err(_) => Err(Halt::Stop(CallFault::Memory)),
    }
}

// Judges the journal and the outputs, which were opened behind the captures.
fn replay_ready<F: Files>(
    alloc: Global,
    files: &mut F,
    job: &Job,
    feed: &mut Feed,
    captures: &[u32],
    journal: u32,
    outputs: &[u32],
) -> Result<ReplayEnd, Halt>
    requires sized { IsSized job.now }
    requires fresh { let f = function_of job.now.func.now in
        IsFresh f job.now.command.now.most captures.now feed.old }
    requires all { length captures.now ≡ job.now.layout.ports }
    requires read { EachFile (IsRead (F.told files.old)) captures.now }
    requires files { AreRead captures.now journal outputs.now (F.told files.old) }
    ensures replays { let now = seen (F.told files.old) (F.counted files.old) in
        (before : Outside) → IsJob before job.now →
        HasReady before now job.now captures.now feed.old journal outputs.now →
        ReplaysTo (asked job.now) before (seen (F.told files.new) (F.counted files.new)) result }
{
    match first_line(alloc, files, journal) {
        Ok(Some(begun)) => replay_begun(alloc, files, job, feed, captures, begun, outputs),
        Ok(None) => told(alloc, files, job, ReplayResult::Line(1)),
        Err(stop) => Err(job.layout.halt(stop)),
    }
}

// Opens the journal and the outputs, whose names are these, and judges them.
fn replay_named<F: Files>(
    alloc: Global,
    files: &mut F,
    job: &Job,
    feed: &mut Feed,
    captures: &[u32],
    names: &[String],
    last: u32,
) -> Result<ReplayEnd, Halt>
    requires sized { IsSized job.now }
    requires fresh { let f = function_of job.now.func.now in
        IsFresh f job.now.command.now.most captures.now feed.old }
    requires all { length captures.now ≡ job.now.layout.ports }
    requires some { length names.now ≡ job.now.layout.ports + 1 }
    requires read { EachFile (IsRead (F.told files.old)) captures.now }
    requires last { (F.told files.old).next ≡ last + 1 }
    requires from { AreFrom (job.now.layout.first + 1) captures.now job.now.layout.ports }
    requires next { (F.told files.old).next ≡ job.now.layout.first + 1 + job.now.layout.ports }
    ensures replays { let now = seen (F.told files.old) (F.counted files.old) in
        (before : Outside) → IsJob before job.now →
        HasFed before now job.now captures.now feed.old →
        map string_bytes names.now ≡ names_of (asked job.now) →
        ReplaysTo (asked job.now) before (seen (F.told files.new) (F.counted files.new)) result }
{
    match open_captures(alloc, files, names, last) {
        Ok(opened) => match opened.as_slice().split_first() {
            Some((journal, outputs)) => replay_ready(
                alloc, files, job, feed, captures, *journal, outputs,
            ),
            None => Err(Halt::Stop(CallFault::Memory)),
        },
        Err(stop) => Err(job.layout.halt(stop)),
    }
}

// Opens the journal and the outputs, and judges them.
fn replay_fed<F: Files>(
    alloc: Global,
    files: &mut F,
    job: &Job,
    feed: &mut Feed,
    captures: &[u32],
) -> Result<ReplayEnd, Halt>
    requires sized { IsSized job.now }
    requires fresh { let f = function_of job.now.func.now in
        IsFresh f job.now.command.now.most captures.now feed.old }
    requires all { length captures.now ≡ job.now.layout.ports }
    requires read { EachFile (IsRead (F.told files.old)) captures.now }
    requires from { AreFrom (job.now.layout.first + 1) captures.now job.now.layout.ports }
    requires next { (F.told files.old).next ≡ job.now.layout.first + 1 + job.now.layout.ports }
    ensures replays { let now = seen (F.told files.old) (F.counted files.old) in
        (before : Outside) → IsJob before job.now →
        HasFed before now job.now captures.now feed.old →
        ReplaysTo (asked job.now) before (seen (F.told files.new) (F.counted files.new)) result }
{
    let ports = job.layout.ports;
    let last = captures[ports as usize - 1];
    let command = job.command;
    let ReplayCommand { journal, out, .. } = command;
    match names_behind(alloc, journal, command.format, out, ports) {
        Ok(names) => replay_named(alloc, files, job, feed, captures, names.as_slice(), last),
        Err(_) => Err(Halt::Stop(CallFault::Memory)),
    }
}

// Opens the captures, and goes on.
fn replay_job<F: Files>(alloc: Global, files: &mut F, job: &Job) -> Result<ReplayEnd, Halt>
    requires sized { IsSized job.now }
    requires next { (F.told files.old).next ≡ job.now.layout.first + 1 }
    ensures replays { let now = seen (F.told files.old) (F.counted files.old) in
        (before : Outside) → IsJob before job.now →
        HasOnlyAsked (reading (asked job.now).function ∷ []) before now →
        ReplaysTo (asked job.now) before (seen (F.told files.new) (F.counted files.new)) result }
{
    let names = job.command.captures.as_slice();
    let most = job.command.most;
    match open_inputs(alloc, files, job.func, names, most, job.layout) {
        Ok(Inputs { captures, mut feed }) => {
            replay_fed(alloc, files, job, &mut feed, captures.as_slice())
        }
        Err(halt) => Err(halt),
    }
}

// Goes on where the captures are as many as the function's ports.
fn replay_found<F: Files>(
    alloc: Global,
    files: &mut F,
    command: &ReplayCommand,
    found: &Found,
) -> Result<ReplayEnd, Halt>
    requires some { 1 ≤ length command.now.captures.items }
    requires few { length command.now.captures.items ≤ 4 }
    requires few_paths { HasFewPaths (function_of found.now.source.func) }
    requires from_two { 2 ≤ found.now.file }
    requires next { (F.told files.old).next ≡ found.now.file + 1 }
    ensures replays { let now = seen (F.told files.old) (F.counted files.old) in
        (before : Outside) → HasFound (view.replay command.now).function before now found.now →
        ReplaysTo (view.replay command.now) before
        (seen (F.told files.new) (F.counted files.new)) result }
{
    let func = &found.source.func;
    let ports = func.handlers.len();
    if command.captures.len() != ports as usize {
        return Err(Halt::Refusal(Refusal::Usage));
    }
    let layout = Layout {
        first: found.file,
        captures: ports,
        ports,
        behind: FileOrder::Read,
    };
    let job = Job {
        command,
        func,
        layout,
    };
    replay_job(alloc, files, &job)
}

/// Does the replay that is asked for.
///
/// The text, the captures, the journal and the outputs are opened in this order, the headers of the
/// captures are read before the journal is opened, and no line is judged before all are open.
pub fn replay<F: Files>(
    alloc: Global,
    files: &mut F,
    command: &ReplayCommand,
) -> Result<ReplayEnd, Halt>
    requires some { 1 ≤ length command.now.captures.items }
    requires few { length command.now.captures.items ≤ 4 }
    ensures replays { ReplaysTo (view.replay command.now)
        (seen (F.told files.old) (F.counted files.old))
        (seen (F.told files.new) (F.counted files.new)) result }
{
    match read_function(alloc, files, &command.function) {
        Ok(found) => replay_found(alloc, files, command, &found),
        Err(none) => Err(none.halt()),
    }
}
