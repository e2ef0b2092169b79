//! The lines of a journal, one after another.
ghost use Rattle.std.specs.Prelude.{◌≡◌, ◌∷◌, [], ◌<◌, ℕ, List, Option, Some, true, length, slice_get};
ghost use Rattle.std.specs.List.{All};
ghost use Rattle.nf_base.specs.Functions.{function_of};
ghost use Rattle.nf_files.specs.Told.{Told, IsRead};
ghost use Rattle.nf_files.specs.Reads.{Keeps};
ghost use Rattle.run_history.specs.declared.line.JournalLine.{JournalLine};
ghost use Rattle.file_match.specs.Comparing.{Comparing};
ghost use Rattle.journal_read.specs.Journals.{Stands, Gives};
ghost use Rattle.stream_run.specs.Given.{HasCaptures};
ghost use Rattle.stream_run.specs.Writing.{IsStopCause, StopsAt};
ghost use Rattle.replay_run.specs.Given.{CanJudge, AreRead, ReadOn};
ghost use Rattle.replay_run.specs.Outputs.{files_of};
ghost use Rattle.replay_run.specs.Queues.{keys_in};
ghost use Rattle.replay_run.specs.Replaying.{IsRun};
ghost use Rattle.replay_run.specs.Turns.{Begins, Reads, IsEnd, IsNotWrong, beside_of};

use crate::outputs::compare_headers;
use crate::turn::one_turn;
use capture_format::CaptureFormat;
use file_match::Compared;
use journal_check::Judge;
use journal_read::{Journal, Next};
use nf_base::func::Func;
use nf_base::keys::Keys;
use nf_base::seq::Seq;
use nf_files::Files;
use packet_feed::Feed;
use rss_table::Table;
use run_history::line::Mode;
use std::alloc::Global;
use stream_run::RunFault;

/// How the lines of a journal end.
#[derive(Clone, Copy, Debug, PartialEq, Eq)]
pub(crate) enum End {
    /// All are right.
    Over,
    /// As many as were asked for are right, and there is more.
    TooMany,
    /// The first that is wrong, counted from 1.
    Wrong(u64),
}

// The next line.
fn next_line<F: Files>(
    alloc: Global,
    files: &mut F,
    journal: &mut Journal,
) -> Result<Next, RunFault>
    requires opened { IsRead (F.told files.old) journal.old.file }
    ensures gives { let file = journal.old.file in
        (start : Option (List ℕ)) → (lines : List JournalLine) →
        Stands start lines journal.old ((F.told files.old).rest file) →
        Gives start lines journal.new ((F.told files.new).rest file) result }
    ensures same_file { journal.new.file ≡ journal.old.file }
    ensures kept { Keeps (F.told files.old) (F.told files.new) journal.old.file }
    ensures cause { IsStopCause (F.counted files.old) (F.counted files.new) result }
    ensures at { StopsAt journal.old.file result }
{
    match journal.next(alloc, files) {
        Ok(next) => Ok(next),
        Err(fault) => Err(RunFault::of(journal.file(), fault)),
    }
}

// Whether there is more behind the lines that were asked for.
fn end_of<F: Files>(alloc: Global, files: &mut F, journal: &mut Journal) -> Result<End, RunFault>
    requires opened { IsRead (F.told files.old) journal.old.file }
    ensures ends { let file = journal.old.file in
        (start : Option (List ℕ)) → (lines : List JournalLine) →
        Stands start lines journal.old ((F.told files.old).rest file) →
        IsEnd start lines result }
    ensures right { IsNotWrong result }
    ensures same_file { journal.new.file ≡ journal.old.file }
    ensures kept { Keeps (F.told files.old) (F.told files.new) journal.old.file }
    ensures cause { IsStopCause (F.counted files.old) (F.counted files.new) result }
    ensures at { StopsAt journal.old.file result }
{
    match journal.is_over(alloc, files) {
        Ok(true) => Ok(End::Over),
        Ok(false) => Ok(End::TooMany),
        Err(fault) => Err(RunFault::of(journal.file(), fault)),
    }
}

/// Reads the lines behind the first, judges each beside the packet that comes next, and compares what
/// packets leave with the outputs, of which nothing was read yet and which are to be of this format.
pub(crate) fn read_lines<F: Files>(
    alloc: Global,
    files: &mut F,
    func: &Func,
    keys: Option<&Keys>,
    table: &Table,
    judge: &mut Judge,
    feed: &mut Feed,
    mode: Mode,
    most: u32,
    captures: &[u32],
    journal: &mut Journal,
    format: CaptureFormat,
    outputs: &mut Seq<Compared>,
) -> Result<End, RunFault>
    requires judges { CanJudge func.now keys table.now mode judge.old }
    // No line was judged yet.
    requires opens { let heading = judge.old.heading in
        IsRun (function_of func.now) (keys_in keys) heading [] judge.old.tables.state }
    requires captures { HasCaptures func.now captures.now feed.old (F.told files.old) }
    requires new { feed.old.given ≡ 0 }
    requires most { feed.old.most ≡ most }
    requires files { let others = files_of outputs.old in
        AreRead captures.now journal.old.file others (F.told files.old) }
    requires fresh { (k : ℕ) → (c : Comparing) → slice_get outputs.old k ≡ Some c → c.same ≡ true }
    ensures reads_all { let ports = length captures.now in
        let heading = judge.old.heading in
        (start : Told) → (bytes : Option (List ℕ)) →
        Begins heading feed.old journal.old start bytes (F.told files.old) →
        Reads (IsRun (function_of func.now) (keys_in keys.entry) heading) heading ports
        (beside_of format feed.old start bytes (files_of outputs.old) (F.told files.old) most)
        (F.told files.old).rest (F.told files.new) outputs.new judge.new.tables.state result }
    ensures same_outputs { files_of outputs.new ≡ files_of outputs.old }
    ensures read { let others = journal.old.file ∷ files_of outputs.old in
        ReadOn captures.now others (F.told files.old) (F.told files.new)
        (F.counted files.old) (F.counted files.new) result }
{
    let mut buffer = match compare_headers(alloc, files, format, outputs) {
        Ok(buffer) => buffer,
        Err(stop) => return Err(stop),
    };
    'lines: loop {
        if feed.given() == most {
            return end_of(alloc, files, journal);
        }
        let number = u64::from(feed.given()) + 2;
        let line = match next_line(alloc, files, journal) {
            Ok(Next::Line(line)) => line,
            Ok(Next::End) => return Ok(End::Over),
            Ok(Next::Wrong) => return Ok(End::Wrong(number)),
            Err(stop) => return Err(stop),
        };
        match one_turn(
            files,
            func,
            keys,
            table,
            judge,
            feed,
            mode,
            captures,
            outputs,
            &mut buffer,
            format,
            &line,
        ) {
            Ok(true) => {}
            Ok(false) => return Ok(End::Wrong(number)),
            Err(stop) => return Err(stop),
        }
    }
}
