//! Files that are written side by side, by number: the outputs in the order of their ports, and the
//! journal behind them.
ghost use Rattle.std.specs.Prelude.{◌≡◌, ◌∷◌, ◌++◌, [], ℕ, List, false, OnOk};
ghost use Rattle.nf_base.specs.declared.card.Card.{Card};
ghost use Rattle.capture_format.specs.declared.format.CaptureFormat.{CaptureFormat};
ghost use Rattle.nf_base.specs.declared.done.Action.TheVariants.{To};
ghost use Rattle.frame_ip.specs.Edit.{IsUnedited};
ghost use Rattle.run_history.specs.declared.line.Mode.{Mode};
ghost use Rattle.stream_run.specs.Given.{AreWritable};
ghost use Rattle.stream_run.specs.Runs.{Handled};
ghost use Rattle.stream_run.specs.Texts.{piece, sent_in, told_in};
ghost use Rattle.stream_run.specs.Writing.{files_of, AreGrown, AreHeld, AllGoOn, AreEmpty, HoldLittle, KeepsAllBut, IsStopCause, StopsAmong};

use crate::fault::RunFault;
use crate::handled::{HandledPacket, HandledParts};
use crate::piece::action_of;
use crate::sink::Sink;
use nf_base::done::Action;
use nf_base::seq::Seq;
use nf_files::Files;
use std::alloc::AllocError;

// Puts a packet's record into each output where it is sent out.
#[inline(never)]
fn hold_each(
    sinks: &mut Seq<Sink>,
    ports: u32,
    handled: &HandledParts,
    edited: bool,
) -> Result<(), AllocError>
    requires edited { edited ≡ false → IsUnedited handled.now.done.edits }
    ensures ok { OnOk result (AreGrown (sent_in ports handled.now) sinks.old sinks.new) }
    ensures same_files { files_of sinks.new ≡ files_of sinks.old }
{
    let count = sinks.len().min(ports as usize);
    for k in 0..count {
        let sink = sinks.item_mut(k);
        match sink.hold_sent(k as u32, handled, edited) {
            Ok(()) => {}
            Err(fault) => return Err(fault),
        }
    }
    Ok(())
}

// The same where it goes out at one port.
fn hold_at(
    sinks: &mut Seq<Sink>,
    ports: u32,
    port: u32,
    handled: &HandledParts,
    edited: bool,
) -> Result<(), AllocError>
    requires out { handled.now.done.action ≡ To port }
    requires edited { edited ≡ false → IsUnedited handled.now.done.edits }
    ensures ok { OnOk result (AreGrown (sent_in ports handled.now) sinks.old sinks.new) }
    ensures same_files { files_of sinks.new ≡ files_of sinks.old }
{
    let k = port as usize;
    if port < ports && k < sinks.len() {
        let sink = sinks.item_mut(k);
        sink.hold_record(handled, edited)
    } else {
        Ok(())
    }
}

fn hold_sent(
    sinks: &mut Seq<Sink>,
    ports: u32,
    handled: &HandledParts,
    edited: bool,
) -> Result<(), AllocError>
    requires edited { edited ≡ false → IsUnedited handled.now.done.edits }
    ensures ok { OnOk result (AreGrown (sent_in ports handled.now) sinks.old sinks.new) }
    ensures same_files { files_of sinks.new ≡ files_of sinks.old }
{
    match action_of(handled) {
        Action::Skip => Ok(()),
        Action::Drop => Ok(()),
        Action::To(port) => hold_at(sinks, ports, port, handled, edited),
        Action::Flood => hold_each(sinks, ports, handled, edited),
    }
}

// Puts a packet's line into the journal.
fn hold_line(sinks: &mut Seq<Sink>, ports: u32, handled: &HandledParts) -> Result<(), AllocError>
    ensures ok { OnOk result (AreGrown (told_in ports handled.now) sinks.old sinks.new) }
    ensures same_files { files_of sinks.new ≡ files_of sinks.old }
{
    for k in ports as usize..sinks.len() {
        let sink = sinks.item_mut(k);
        match sink.hold_line(handled) {
            Ok(()) => {}
            Err(fault) => return Err(fault),
        }
    }
    Ok(())
}

/// Puts what a packet leaves in each file behind what is held for it. Nothing is given to the files.
pub fn hold_all(sinks: &mut Seq<Sink>, ports: u32, handled: &HandledParts) -> Result<(), AllocError>
    ensures ok { OnOk result
        (AreGrown (λ k format. piece format ports k handled.now) sinks.old sinks.new) }
    ensures same_files { files_of sinks.new ≡ files_of sinks.old }
{
    hold_parts(sinks, ports, handled, true)
}

// The same; it may be said that the packet's frame is not edited.
#[inline(always)]
fn hold_parts(
    sinks: &mut Seq<Sink>,
    ports: u32,
    handled: &HandledParts,
    edited: bool,
) -> Result<(), AllocError>
    requires edited { edited ≡ false → IsUnedited handled.now.done.edits }
    ensures ok { OnOk result
        (AreGrown (λ k format. piece format ports k handled.now) sinks.old sinks.new) }
    ensures same_files { files_of sinks.new ≡ files_of sinks.old }
{
    match hold_sent(sinks, ports, handled, edited) {
        Ok(()) => hold_line(sinks, ports, handled),
        Err(fault) => Err(fault),
    }
}

/// Gives to the files what is held for them where it is much.
pub fn flush_full<F: Files>(sinks: &mut Seq<Sink>, files: &mut F) -> Result<(), RunFault>
    requires writable { AreWritable (F.told files.old) (files_of sinks.old) }
    ensures goes_on { (mode : Mode) → (workers : ℕ) → (card : Card) →
        (format : CaptureFormat) → (ports : ℕ) → (hs : List Handled) →
        AreHeld mode workers card format ports hs (F.told files.old) sinks.old →
        AllGoOn mode workers card format ports hs (F.told files.new) sinks.new result }
    // Each file was given what it is to hold but for less than 65,536 bytes.
    ensures little { OnOk result (HoldLittle sinks.new) }
    ensures same_files { files_of sinks.new ≡ files_of sinks.old }
    ensures kept { KeepsAllBut (files_of sinks.old) (F.told files.old) (F.told files.new) }
    ensures cause { IsStopCause (F.counted files.old) (F.counted files.new) result }
    ensures among { StopsAmong [] (files_of sinks.old) result }
{
    for k in 0..sinks.len() {
        let sink = sinks.item_mut(k);
        match sink.flush_full(files) {
            Ok(()) => {}
            Err(stop) => return Err(stop),
        }
    }
    Ok(())
}

/// Puts what a packet leaves in each file there, where it came to it in parts; it may be said that its
/// frame is not edited.
#[inline(always)]
pub(crate) fn put_parts<F: Files>(
    sinks: &mut Seq<Sink>,
    files: &mut F,
    ports: u32,
    handled: &HandledParts,
    edited: bool,
) -> Result<(), RunFault>
    requires edited { edited ≡ false → IsUnedited handled.now.done.edits }
    requires writable { AreWritable (F.told files.old) (files_of sinks.old) }
    ensures goes_on { (mode : Mode) → (workers : ℕ) → (card : Card) →
        (format : CaptureFormat) → (hs : List Handled) →
        AreHeld mode workers card format ports hs (F.told files.old) sinks.old →
        AllGoOn mode workers card format ports (hs ++ handled.now ∷ [])
        (F.told files.new) sinks.new result }
    // Each file was given what it is to hold but for less than 65,536 bytes.
    ensures little { OnOk result (HoldLittle sinks.new) }
    ensures same_files { files_of sinks.new ≡ files_of sinks.old }
    ensures kept { KeepsAllBut (files_of sinks.old) (F.told files.old) (F.told files.new) }
    ensures cause { IsStopCause (F.counted files.old) (F.counted files.new) result }
    ensures among { StopsAmong [] (files_of sinks.old) result }
{
    match hold_parts(sinks, ports, handled, edited) {
        Ok(()) => flush_full(sinks, files),
        Err(_) => Err(RunFault::Memory),
    }
}

/// Puts what a packet leaves in each file there.
pub fn put_all<F: Files>(
    sinks: &mut Seq<Sink>,
    files: &mut F,
    ports: u32,
    handled: &HandledPacket,
) -> Result<(), RunFault>
    requires writable { AreWritable (F.told files.old) (files_of sinks.old) }
    ensures goes_on { (mode : Mode) → (workers : ℕ) → (card : Card) →
        (format : CaptureFormat) → (hs : List Handled) →
        AreHeld mode workers card format ports hs (F.told files.old) sinks.old →
        AllGoOn mode workers card format ports (hs ++ handled.now ∷ [])
        (F.told files.new) sinks.new result }
    // Each file was given what it is to hold but for less than 65,536 bytes.
    ensures little { OnOk result (HoldLittle sinks.new) }
    ensures same_files { files_of sinks.new ≡ files_of sinks.old }
    ensures kept { KeepsAllBut (files_of sinks.old) (F.told files.old) (F.told files.new) }
    ensures cause { IsStopCause (F.counted files.old) (F.counted files.new) result }
    ensures among { StopsAmong [] (files_of sinks.old) result }
{
    let told = handled.parts();
    put_parts(sinks, files, ports, &told, true)
}

/// Gives to all files what is held for them.
pub fn flush_all<F: Files>(sinks: &mut Seq<Sink>, files: &mut F) -> Result<(), RunFault>
    requires writable { AreWritable (F.told files.old) (files_of sinks.old) }
    ensures goes_on { (mode : Mode) → (workers : ℕ) → (card : Card) →
        (format : CaptureFormat) → (ports : ℕ) → (hs : List Handled) →
        AreHeld mode workers card format ports hs (F.told files.old) sinks.old →
        AllGoOn mode workers card format ports hs (F.told files.new) sinks.new result }
    ensures empty { OnOk result (AreEmpty sinks.new) }
    ensures same_files { files_of sinks.new ≡ files_of sinks.old }
    ensures kept { KeepsAllBut (files_of sinks.old) (F.told files.old) (F.told files.new) }
    ensures cause { IsStopCause (F.counted files.old) (F.counted files.new) result }
    ensures among { StopsAmong [] (files_of sinks.old) result }
{
    for k in 0..sinks.len() {
        let sink = sinks.item_mut(k);
        match sink.flush(files) {
            Ok(()) => {}
            Err(stop) => return Err(stop),
        }
    }
    Ok(())
}
