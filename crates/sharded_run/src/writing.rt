//! What a packet leaves is written.
ghost use Rattle.std.specs.Prelude.{◌≡◌, ◌^◌, ◌≤◌, ◌∷◌, ◌++◌, [], ℕ, List, length};
ghost use Rattle.nf_base.specs.declared.card.Card.{Card};
ghost use Rattle.capture_format.specs.declared.format.CaptureFormat.{CaptureFormat};
ghost use Rattle.run_history.specs.declared.line.Mode.{Mode};
ghost use Rattle.short_answers.specs.Answers.{done_told};
ghost use Rattle.stream_run.specs.Given.{AreWritable};
ghost use Rattle.stream_run.specs.Runs.{Handled};
ghost use Rattle.stream_run.specs.Writing.{files_of, AreHeld, AllGoOn, KeepsAllBut, IsStopCause, StopsAmong};

use crate::frames::HeldPacket;
use crate::plain_answer::PlainAnswer;
use nf_base::done::Done;
use nf_base::seq::Seq;
use nf_files::Files;
use short_answers::Told;
use stream_run::{HandledPacket, RunFault, Sink, put_all};

// Puts what one packet of a queue leaves into all files, where its answer stands whole.
#[inline(always)]
fn write_one<F: Files>(
    files: &mut F,
    sinks: &mut Seq<Sink>,
    ports: u32,
    kept: &HeldPacket,
    queue: u32,
    done: &Done,
) -> Result<(), RunFault>
    requires writable { AreWritable (F.told files.old) (files_of sinks.old) }
    ensures goes_on { let h : Handled = record { arrival = kept.now; worker = queue; done = done.now } in
        (mode : Mode) → (workers : ℕ) → (card : Card) → (format : CaptureFormat) →
        (hs : List Handled) →
        AreHeld mode workers card format ports hs (F.told files.old) sinks.old →
        AllGoOn mode workers card format ports (hs ++ h ∷ []) (F.told files.new) sinks.new result }
    ensures same_files { files_of sinks.new ≡ files_of sinks.old }
    ensures kept { KeepsAllBut (files_of sinks.old) (F.told files.old) (F.told files.new) }
    ensures cause { IsStopCause (F.counted files.old) (F.counted files.new) result }
    ensures among { StopsAmong [] (files_of sinks.old) result }
{
    let handled = HandledPacket {
        worker: queue,
        packet: kept.packet(),
        original: kept.original(),
        frame: kept.frame(),
        done,
    };
    put_all(sinks, files, ports, &handled)
}

/// Puts what one packet of a queue leaves into all files.
#[inline(always)]
pub(crate) fn write_told<F: Files>(
    files: &mut F,
    sinks: &mut Seq<Sink>,
    ports: u32,
    kept: &HeldPacket,
    queue: u32,
    told: Told<'_>,
    plain: &mut PlainAnswer,
) -> Result<(), RunFault>
    requires writable { AreWritable (F.told files.old) (files_of sinks.old) }
    ensures goes_on { let h : Handled = record { arrival = kept.now; worker = queue; done = done_told told.entry } in
        (mode : Mode) → (workers : ℕ) → (card : Card) → (format : CaptureFormat) →
        (hs : List Handled) →
        AreHeld mode workers card format ports hs (F.told files.old) sinks.old →
        AllGoOn mode workers card format ports (hs ++ h ∷ []) (F.told files.new) sinks.new result }
    ensures same_files { files_of sinks.new ≡ files_of sinks.old }
    ensures kept { KeepsAllBut (files_of sinks.old) (F.told files.old) (F.told files.new) }
    ensures cause { IsStopCause (F.counted files.old) (F.counted files.new) result }
    ensures among { StopsAmong [] (files_of sinks.old) result }
{
    match told {
        Told::Plain(action) => {
            plain.set(action);
            write_one(files, sinks, ports, kept, queue, plain.done())
        }
        Told::Whole(done) => write_one(files, sinks, ports, kept, queue, done),
    }
}
