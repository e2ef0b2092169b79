//! One line of a journal, and its packet.
ghost use Rattle.std.specs.Prelude.{◌≡◌, ◌<◌, ℕ, Ok, true, length, IfSome};
ghost use Rattle.nf_base.specs.Functions.{function_of};
ghost use Rattle.rss_table.specs.Tables.{even_table};
ghost use Rattle.packet_feed.specs.Feeding.{SameFeed};
ghost use Rattle.replay_run.specs.Given.{CanJudge, SameJudge, AreBeside, ReadOn};
ghost use Rattle.replay_run.specs.Outputs.{files_of};
ghost use Rattle.replay_run.specs.Queues.{queue_in, keys_in};
ghost use Rattle.replay_run.specs.Replaying.{IsRun};
ghost use Rattle.replay_run.specs.Turns.{Turns, Counts};
ghost use Rattle.stream_run.specs.Given.{HasCaptures};

use crate::outputs::compare_all;
use crate::packets::packet_for;
use capture_format::CaptureFormat;
use file_match::Compared;
use journal_check::Judge;
use nf_base::func::Func;
use nf_base::keys::Keys;
use nf_base::packet::Packet;
use nf_base::seq::Seq;
use nf_files::Files;
use packet_feed::Feed;
use rss_table::Table;
use run_history::line::{JournalLine, Mode};
use stream_run::RunFault;

// The queue of a packet, of so many workers; 0 where no keys are given.
fn queue_of(keys: Option<&Keys>, table: &Table, packet: &Packet) -> u32
    requires port { IfSome keys (λ k. packet.now.id.port < length k.now.ports) }
    ensures { (workers : ℕ) →
        IfSome keys.entry (λ k. table.now ≡ even_table k.now.table workers) →
        result ≡ queue_in keys.entry workers packet.now }
{
    match keys {
        Some(keys) => table.queue(keys, packet),
        None => 0,
    }
}

/// Handles the packet that comes next, where this is its line, and compares what it leaves with the
/// outputs; false where it isn't, or no packet comes.
pub(crate) fn one_turn<F: Files>(
    files: &mut F,
    func: &Func,
    keys: Option<&Keys>,
    table: &Table,
    judge: &mut Judge,
    feed: &mut Feed,
    mode: Mode,
    captures: &[u32],
    outputs: &mut Seq<Compared>,
    buffer: &mut Vec<u8>,
    format: CaptureFormat,
    line: &JournalLine,
) -> Result<bool, RunFault>
    requires judges { CanJudge func.now keys table.now mode judge.old }
    requires captures { HasCaptures func.now captures.now feed.old (F.told files.old) }
    requires room { feed.old.given < feed.old.most }
    requires beside { AreBeside captures.now (files_of outputs.old) (F.told files.old) }
    ensures turns { let heading = judge.old.heading in
        Turns (IsRun (function_of func.now) (keys_in keys.entry) heading) heading.mode format line.now
        judge.old.tables.state judge.new.tables.state feed.old feed.new
        (F.told files.old) (F.told files.new) outputs.old outputs.new result }
    ensures same { SameJudge judge.old judge.new }
    ensures same_outputs { files_of outputs.new ≡ files_of outputs.old }
    ensures same_feed { SameFeed feed.old feed.new }
    ensures counts { Counts feed.old feed.new result }
    ensures read { ReadOn captures.now (files_of outputs.old) (F.told files.old)
        (F.told files.new) (F.counted files.old) (F.counted files.new) result }
{
    match packet_for(files, feed, mode, captures, line) {
        Ok(Some(packet)) => {
            let original = feed.original();
            let frame = feed.frame();
            let queue = queue_of(keys, table, &packet);
            match judge.judge(func, &packet, queue, line) {
                None => Ok(false),
                Some(done) => match compare_all(
                    files, outputs, buffer, format, &packet, original, frame, &done,
                ) {
                    Ok(()) => Ok(true),
                    Err(stop) => Err(stop),
                },
            }
        }
        Ok(None) => Ok(false),
        Err(stop) => Err(stop),
    }
}
