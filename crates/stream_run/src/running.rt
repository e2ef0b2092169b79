//! Packets, handled as they come.
ghost use Rattle.std.specs.Prelude.{◌≡◌, ◌<◌, ◌≤◌, [], Some, length};
ghost use Rattle.nf_base.specs.declared.card.Card.{Card};
ghost use Rattle.capture_format.specs.declared.format.CaptureFormat.{CaptureFormat};
ghost use Rattle.nf_base.specs.Doors.{IsServed};
ghost use Rattle.nf_base.specs.Functions.{function_of};
ghost use Rattle.nf_base.specs.Step.{step, opening};
ghost use Rattle.nf_engine.specs.Handlings.{done_of};
ghost use Rattle.nf_engine.specs.View.{fixed_of};
ghost use Rattle.packet_feed.specs.Faults.{IsReadFault, IsOneOf};
ghost use Rattle.packet_feed.specs.Feeding.{last_packet, frame_of, original_of};
ghost use Rattle.run_history.specs.declared.line.Mode.TheVariants.{One};
ghost use Rattle.stream_run.specs.Given.{HasCaptures, AreWritable};
ghost use Rattle.stream_run.specs.Writing.{files_of, AreHeld, WentOn, WroteOn};
ghost use Rattle.stream_run.specs.Seen.{packet_seen};
ghost use Rattle.stream_run.specs.Streaming.{HandlesOne, Comes, stop_in};

use crate::ending::Ending;
use crate::fault::RunFault;
use crate::handled::HandledParts;
use crate::sink::Sink;
use crate::sinks::put_parts;
use crate::told::ToldFields;
use frame_ip::View;
use frame_reads::FrameFields;
use nf_base::done::Action;
use nf_base::packet::PacketId;
use nf_base::seq::Seq;
use nf_code::ready::Ready;
use nf_engine::{Context, handle_whole_ready};
use nf_files::Files;
use packet_feed::{Feed, FeedFault, Moved};
use vig_tables::Tables;

// Handles a packet that came at a time, in nanoseconds, by its frame where that lies, in a context that
// is kept from packet to packet; where none is seen, the packet is skipped.
#[inline(always)]
fn handle_kept(
    tables: &mut Tables,
    func: &Ready,
    id: PacketId,
    time: u64,
    seen: Option<View<'_>>,
    context: &mut Context,
) -> Action
    requires of_func { tables.old.decls ≡ func.now.chains }
    requires whole { tables.old.share.of ≡ 1 }
    requires port { id.port < length func.now.handlers }
    requires served { IsServed (function_of func.now) (packet_seen id time seen) }
    ensures steps { let p = packet_seen id time seen.entry in
        step (function_of func.now) tables.old.state p context.new.picks
        ≡ Some (record { state = tables.new.state; done = done_of result context.new }) }
    ensures same { fixed_of tables.new ≡ fixed_of tables.old }
{
    match seen {
        Some(view) => {
            let packet = FrameFields { id, time, view };
            handle_whole_ready(tables, func, &packet, context)
        }
        None => {
            *context = Context::new();
            Action::Skip
        }
    }
}

// Handles the packet that a feed gave last, and puts what it leaves into all files.
#[inline(always)]
fn handle_one<F: Files>(
    files: &mut F,
    func: &Ready,
    tables: &mut Tables,
    context: &mut Context,
    sinks: &mut Seq<Sink>,
    feed: &Feed,
) -> Result<(), RunFault>
    requires of_func { tables.old.decls ≡ func.now.chains }
    requires whole { tables.old.share.of ≡ 1 }
    requires port { (last_packet feed.now).id.port < length func.now.handlers }
    requires served { IsServed (function_of func.now) (last_packet feed.now) }
    requires writable { AreWritable (F.told files.old) (files_of sinks.old) }
    requires captured { length (frame_of feed.now) ≤ 262144 }
    ensures handles { let v = feed.now in
        HandlesOne (function_of func.now) (length func.now.handlers)
        (last_packet v) (original_of v) (frame_of v) tables.old.state tables.new.state
        (F.told files.old) (F.told files.new) sinks.old sinks.new result }
    ensures same { fixed_of tables.new ≡ fixed_of tables.old }
    ensures same_files { files_of sinks.new ≡ files_of sinks.old }
    ensures wrote { WroteOn (files_of sinks.old) (F.told files.old) (F.told files.new)
        (F.counted files.old) (F.counted files.new) result }
{
    let id = feed.id();
    let time = feed.time();
    let seen = feed.view();
    let fields = ToldFields::of_frame(&seen);
    let action = handle_kept(tables, func, id, time, seen, context);
    let edited = context.is_edited();
    let handled = HandledParts {
        worker: 0,
        id,
        time,
        fields,
        original: feed.original(),
        frame: feed.frame(),
        action,
        edits: context.edits(),
        picks: context.picks(),
    };
    put_parts(sinks, files, func.func().handlers.len(), &handled, edited)
}

/// What a fault of the captures in these files is for a run whose headers were read: it is of one of
/// them, or of none.
pub fn stop_in(captures: &[u32], fault: FeedFault) -> RunFault
    requires read { IsReadFault fault }
    requires one { IsOneOf captures.now fault }
    ensures { result ≡ stop_in captures.now fault }
{
    match fault {
        FeedFault::NotCapture { port: _ } => unreachable!(),
        FeedFault::File { port } => match captures.get(port as usize) {
            Some(file) => RunFault::File(*file),
            None => unreachable!(),
        },
        FeedFault::Memory => RunFault::Memory,
    }
}

/// Handles the packets of captures in capture order, by one worker, and puts what each leaves into the
/// outputs and the journal as the run goes.
///
/// The captures are those of the feed, which gave no packet yet, and was started for the function's
/// ports. The sinks are the outputs in the order of their ports and the journal, and hold what each
/// file begins with. What is held at the end is still to be given to the files.
pub fn handle_all<F: Files>(
    files: &mut F,
    func: &Ready,
    tables: &mut Tables,
    feed: &mut Feed,
    captures: &[u32],
    sinks: &mut Seq<Sink>,
) -> Result<Ending, RunFault>
    requires of_func { tables.old.decls ≡ func.now.chains }
    requires whole { tables.old.share.of ≡ 1 }
    requires opens { tables.old.state ≡ opening (function_of func.now) }
    requires captures { HasCaptures func.now captures.now feed.old (F.told files.old) }
    requires new { feed.old.given ≡ 0 }
    requires writable { AreWritable (F.told files.old) (files_of sinks.old) }
    // Where the sinks hold what each file begins with, with some card.
    ensures comes { let ports = length func.now.handlers in
        (card : Card) → (format : CaptureFormat) →
        AreHeld One 1 card format ports [] (F.told files.old) sinks.old →
        Comes (function_of func.now) card format ports
        feed.old (F.told files.old) feed.new (F.told files.new)
        sinks.new tables.new.state result }
    ensures same { fixed_of tables.new ≡ fixed_of tables.old }
    ensures same_files { files_of sinks.new ≡ files_of sinks.old }
    ensures went { WentOn captures.now (files_of sinks.old) (F.told files.old) (F.told files.new)
        (F.counted files.old) (F.counted files.new) result }
{
    let mut context = Context::new();
    'packets: loop {
        match feed.advance(files) {
            Ok(Moved::End) => return Ok(Ending::All),
            Ok(Moved::TooMany) => return Ok(Ending::TooMany),
            Err(fault) => return Err(stop_in(captures, fault)),
            Ok(Moved::Packet) => {
                match handle_one(files, func, tables, &mut context, sinks, feed) {
                    Ok(()) => {}
                    Err(stop) => return Err(stop),
                }
            }
        }
    }
}
