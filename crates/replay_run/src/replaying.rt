//! A journal and outputs, replayed.
ghost use Rattle.std.specs.Prelude.{◌≡◌, ◌↔◌, ◌^◌, ◌<◌, ◌≤◌, ◌∷◌, [], ℕ, List, Option, IsTrue, length, IfOk, IfSome};
ghost use Rattle.nf_base.specs.Functions.{function_of};
ghost use Rattle.nf_files.specs.Told.{Told, IsRead};
ghost use Rattle.nf_files.specs.Reads.{Keeps};
ghost use Rattle.packet_feed.specs.Told.{EachFile, IsApart, KeepsOthers};
ghost use Rattle.run_history.specs.Headings.{IsHeading};
ghost use Rattle.rss_table.specs.Tables.{even_table};
ghost use Rattle.stream_run.specs.Given.{HasCaptures};
ghost use Rattle.stream_run.specs.Writing.{IsStopCause, StopsAt, StopsAmong};
ghost use Rattle.replay_run.specs.Given.{AreRead, ReadOn};
ghost use Rattle.replay_run.specs.Outputs.{files_of, AreFound};
ghost use Rattle.replay_run.specs.Queues.{lent, keys_in, IsKeyed};
ghost use Rattle.replay_run.specs.Replaying.{IsRun, Replays, Finishes};
ghost use Rattle.replay_run.specs.Turns.{Begins, beside_of};
ghost use Rattle.replay_run.specs.Heads.{Heads, Comes};

use crate::lines::{End, read_lines};
use crate::opened::OpenedJournal;
use crate::outputs::{begin, first_other};
use crate::result::ReplayResult;
use capture_format::CaptureFormat;
use file_match::Compared;
use journal_check::Judge;
use journal_read::Journal;
use nf_base::func::Func;
use nf_base::keys::Keys;
use nf_base::seq::Seq;
use nf_files::Files;
use packet_feed::Feed;
use rss_table::Table;
use run_history::header::Header;
use run_history::line::Mode;
use std::alloc::Global;
use stream_run::RunFault;

// Compares the outputs to their ends, and gives the state that all lines left.
fn finish<F: Files>(
    alloc: Global,
    files: &mut F,
    judge: &Judge,
    compared: &mut Seq<Compared>,
) -> Result<ReplayResult, RunFault>
    requires opened { EachFile (IsRead (F.told files.old)) (files_of compared.old) }
    requires apart { IsApart (files_of compared.old) }
    requires few { length compared.old ≤ 2 ^ 32 }
    ensures finishes { (start : ℕ → Option (List ℕ)) → (bytes : ℕ → List ℕ) →
        AreFound bytes start compared.old (F.told files.old) →
        Finishes bytes start (files_of compared.old) judge.now.tables.state result }
    ensures kept { KeepsOthers (files_of compared.old) (F.told files.old) (F.told files.new) }
    ensures cause { IsStopCause (F.counted files.old) (F.counted files.new) result }
    ensures among { StopsAmong [] (files_of compared.old) result }
{
    match first_other(files, compared) {
        Ok(Some(port)) => Ok(ReplayResult::Output(port)),
        Ok(None) => match judge.state(alloc) {
            Ok(state) => Ok(ReplayResult::Same(state)),
            Err(_) => Err(RunFault::Memory),
        },
        Err(stop) => Err(stop),
    }
}

// The table of a run's queues, of the card and of as many workers as its first line tells.
fn table_of(header: &Header) -> Table
    ensures table { result ≡ even_table header.now.card.table header.now.workers }
    ensures heading { IsHeading header.now }
    ensures some { 0 < header.now.workers }
{
    let _mode = header.mode();
    Table::even(header.workers(), header.card().table)
}

// Checks a journal, of which the header was read, and the outputs beside it.
fn replay_with<F: Files>(
    alloc: Global,
    files: &mut F,
    func: &Func,
    keys: Option<&Keys>,
    feed: &mut Feed,
    most: u32,
    captures: &[u32],
    journal: &mut Journal,
    header: Header,
    format: CaptureFormat,
    outputs: &[u32],
) -> Result<ReplayResult, RunFault>
    requires keyed { IsKeyed header.mode keys }
    requires keys { IfSome keys (λ k. length func.now.handlers ≤ length k.now.ports) }
    requires of_card { IfSome keys (λ k. k.now.table ≡ header.card.table) }
    requires captures { HasCaptures func.now captures.now feed.old (F.told files.old) }
    requires new { feed.old.given ≡ 0 }
    requires most { feed.old.most ≡ most }
    requires files { AreRead captures.now journal.old.file outputs.now (F.told files.old) }
    ensures replays { (start : Told) → (bytes : Option (List ℕ)) →
        Begins header feed.old journal.old start bytes (F.told files.old) →
        Replays (IsRun (function_of func.now) (keys_in keys.entry) header)
        header (length captures.now)
        (beside_of format feed.old start bytes outputs.now (F.told files.old) most) result }
    ensures read { let others = journal.old.file ∷ outputs.now in
        ReadOn captures.now others (F.told files.old) (F.told files.new)
        (F.counted files.old) (F.counted files.new) result }
{
    let table = table_of(&header);
    let mode = header.mode();
    let mut judge = match Judge::new(alloc, func, header) {
        Ok(judge) => judge,
        Err(_) => return Err(RunFault::Memory),
    };
    let mut compared = match begin(alloc, outputs) {
        Ok(compared) => compared,
        Err(_) => return Err(RunFault::Memory),
    };
    let end = match read_lines(
        alloc,
        files,
        func,
        keys,
        &table,
        &mut judge,
        feed,
        mode,
        most,
        captures,
        journal,
        format,
        &mut compared,
    ) {
        Ok(end) => end,
        Err(stop) => return Err(stop),
    };
    match end {
        End::Wrong(line) => Ok(ReplayResult::Line(line)),
        End::TooMany => Ok(ReplayResult::TooMany),
        End::Over => finish(alloc, files, &judge, &mut compared),
    }
}

// Whether a journal in this mode may be there: workers with shares have keys.
fn is_keyed(mode: Mode, keys: Option<&Keys>) -> bool
    ensures { IsTrue result ↔ IsKeyed mode keys.entry }
{
    match mode {
        Mode::One => true,
        Mode::Shard => match keys {
            Some(_) => true,
            None => false,
        },
        Mode::Lock => true,
    }
}

/// The first line of a journal, of which nothing was read yet; None where it is no header.
pub fn first_line<F: Files>(
    alloc: Global,
    files: &mut F,
    journal: u32,
) -> Result<Option<OpenedJournal>, RunFault>
    requires opened { IsRead (F.told files.old) journal }
    ensures heads { let old = (F.told files.old).rest journal in
        Heads old ((F.told files.new).rest journal) result }
    ensures same_file { IfOk result (λ found. IfSome found (λ begun. begun.lines.file ≡ journal)) }
    ensures kept { Keeps (F.told files.old) (F.told files.new) journal }
    ensures cause { IsStopCause (F.counted files.old) (F.counted files.new) result }
    ensures at { StopsAt journal result }
{
    let mut lines = match Journal::new(alloc, journal) {
        Ok(lines) => lines,
        Err(_) => return Err(RunFault::Memory),
    };
    match lines.header(alloc, files) {
        Ok(Some(header)) => Ok(Some(OpenedJournal { lines, header })),
        Ok(None) => Ok(None),
        Err(fault) => Err(RunFault::of(journal, fault)),
    }
}

/// Checks a journal and the outputs beside it: whether they are those of one run over the captures, as
/// the journal's first line tells it.
///
/// In mode `one` worker 0 handles the packets in capture order. In mode `shard`, where keys are given,
/// each is handled by the worker of its queue under these keys within its share: a line's choices have to
/// be the queue's own, and no `new` may have answered that its chain is full; where a run might have
/// stopped as well, a line that keeps to this is right. In mode `lock` the packets of each port stand in
/// their order, each handled by the worker whose number is its port modulo theirs.
///
/// The keys are for the card that the first line tells. The captures are those of the feed, which gave no
/// packet yet, and `most` is how many it gives at most. The outputs are in the order of their ports, and
/// are to be captures of this format; nothing was read of them yet, and of the journal the first line
/// alone. The journal may end early. Of as many lines of packets as `most` each is judged; what stands
/// behind them is not. Of no file more is held than what was read at once and a record. The feed and the
/// files are not to be used on.
pub fn replay<F: Files>(
    alloc: Global,
    files: &mut F,
    func: &Func,
    keys: Option<&Keys>,
    feed: &mut Feed,
    most: u32,
    captures: &[u32],
    begun: OpenedJournal,
    format: CaptureFormat,
    outputs: &[u32],
) -> Result<ReplayResult, RunFault>
    requires keys { IfSome keys (λ k. length func.now.handlers ≤ length k.now.ports) }
    requires of_card { IfSome keys (λ k. k.now.table ≡ begun.header.card.table) }
    requires captures { HasCaptures func.now captures.now feed.old (F.told files.old) }
    requires new { feed.old.given ≡ 0 }
    requires most { feed.old.most ≡ most }
    requires files { AreRead captures.now begun.lines.file outputs.now (F.told files.old) }
    // All lines are those of a run and the outputs are its, or the first line or the least output
    // that isn't is told, or there are more lines than were asked for.
    ensures comes { (start : Told) → (bytes : Option (List ℕ)) →
        Begins begun.header feed.old begun.lines start bytes (F.told files.old) →
        Comes (function_of func.now) (lent keys.entry) begun.header (length captures.now)
        (beside_of format feed.old start bytes outputs.now (F.told files.old) most) result }
    // The file that failed is one of the captures, the journal or one of the outputs.
    ensures read { let others = begun.lines.file ∷ outputs.now in
        ReadOn captures.now others (F.told files.old) (F.told files.new)
        (F.counted files.old) (F.counted files.new) result }
{
    let OpenedJournal { lines, header } = begun;
    if !is_keyed(header.mode(), keys) {
        return Ok(ReplayResult::Line(1));
    }
    let mut lines = lines;
    replay_with(
        alloc, files, func, keys, feed, most, captures, &mut lines, header, format, outputs,
    )
}
