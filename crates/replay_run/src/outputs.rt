//! Outputs that are compared side by side, by port.
ghost use Rattle.std.specs.Prelude.{◌≡◌, ◌^◌, ◌≤◌, ◌∷◌, ◌++◌, [], ℕ, List, Option, Some, true, length, slice_get, IfOk, OnOk};
ghost use Rattle.nf_files.specs.Told.{IsRead};
ghost use Rattle.nf_base.specs.declared.card.Card.{Card};
ghost use Rattle.nf_files.specs.Reads.{Keeps};
ghost use Rattle.pcap_file.specs.Record.{greatest_time};
ghost use Rattle.packet_feed.specs.Told.{EachFile, IsApart, KeepsOthers};
ghost use Rattle.run_history.specs.declared.line.Mode.{Mode};
ghost use Rattle.file_match.specs.Comparing.{Comparing, Found, IsWhole};
ghost use Rattle.stream_run.specs.Runs.{Handled};
ghost use Rattle.stream_run.specs.Texts.{sent_bytes, bytes_of};
ghost use Rattle.stream_run.specs.Writing.{came_to, IsStopCause, StopsAt, StopsAmong};
ghost use Rattle.replay_run.specs.Outputs.{files_of, AreFound, IsFirstOther};

use capture_format::{CaptureFormat, push_head};
use file_match::Compared;
use nf_base::done::Done;
use nf_base::packet::Packet;
use nf_base::seq::Seq;
use nf_files::Files;
use std::alloc::{AllocError, Global};
use stream_run::{HandledPacket, RunFault, push_sent};

/// Outputs of which nothing was read yet.
pub(crate) fn begin(alloc: Global, outputs: &[u32]) -> Result<Seq<Compared>, AllocError>
    ensures files { IfOk result (λ all. files_of all ≡ outputs.now) }
    ensures same { IfOk result (λ all. (k : ℕ) → (c : Comparing) →
        slice_get all k ≡ Some c → c.same ≡ true) }
{
    let mut all = Seq::new(alloc);
    for file in outputs {
        let compared = Compared::new(alloc, *file)?;
        all.push(compared)?;
    }
    Ok(all)
}

// Compares the next bytes of one output.
fn compare_next<F: Files>(
    files: &mut F,
    compared: &mut Compared,
    bytes: &[u8],
) -> Result<(), RunFault>
    requires opened { IsRead (F.told files.old) compared.old.file }
    ensures compares { let file = compared.old.file in
        (start : Option (List ℕ)) → (before : List ℕ) →
        Found compared.old before start ((F.told files.old).rest file) → OnOk result
        (Found compared.new (before ++ bytes.now) start ((F.told files.new).rest file)) }
    ensures same_file { compared.new.file ≡ compared.old.file }
    ensures kept { Keeps (F.told files.old) (F.told files.new) compared.old.file }
    ensures cause { IsStopCause (F.counted files.old) (F.counted files.new) result }
    ensures at { StopsAt compared.old.file result }
{
    match compared.compare(files, bytes) {
        Ok(()) => Ok(()),
        Err(fault) => Err(RunFault::of(compared.file(), fault)),
    }
}

// Compares what a packet leaves in one output.
fn compare_sent<F: Files>(
    files: &mut F,
    compared: &mut Compared,
    buffer: &mut Vec<u8>,
    format: CaptureFormat,
    port: u32,
    packet: &Packet,
    original: u32,
    frame: &[u8],
    done: &Done,
) -> Result<(), RunFault>
    requires opened { IsRead (F.told files.old) compared.old.file }
    requires time { packet.now.time ≤ greatest_time }
    requires captured { length frame.now ≤ 262144 }
    ensures compares { let file = compared.old.file in
        let more = sent_bytes format port (came_to 0 packet.now original frame.now done.now) in
        (start : Option (List ℕ)) → (before : List ℕ) →
        Found compared.old before start ((F.told files.old).rest file) → OnOk result
        (Found compared.new (before ++ more) start ((F.told files.new).rest file)) }
    ensures same_file { compared.new.file ≡ compared.old.file }
    ensures kept { Keeps (F.told files.old) (F.told files.new) compared.old.file }
    ensures cause { IsStopCause (F.counted files.old) (F.counted files.new) result }
    ensures at { StopsAt compared.old.file result }
{
    buffer.clear();
    let handled = HandledPacket {
        worker: 0,
        packet,
        original,
        frame,
        done,
    };
    match push_sent(buffer, format, port, &handled) {
        Ok(()) => compare_next(files, compared, buffer.as_slice()),
        Err(_) => Err(RunFault::Memory),
    }
}

// Compares the next bytes of all outputs with the same.
fn compare_heads<F: Files>(
    files: &mut F,
    all: &mut Seq<Compared>,
    head: &[u8],
) -> Result<(), RunFault>
    requires opened { EachFile (IsRead (F.told files.old)) (files_of all.old) }
    requires apart { IsApart (files_of all.old) }
    ensures compares { (start : ℕ → Option (List ℕ)) →
        AreFound (λ k. []) start all.old (F.told files.old) →
        OnOk result (AreFound (λ k. head.now) start all.new (F.told files.new)) }
    ensures same_files { files_of all.new ≡ files_of all.old }
    ensures kept { KeepsOthers (files_of all.old) (F.told files.old) (F.told files.new) }
    ensures cause { IsStopCause (F.counted files.old) (F.counted files.new) result }
    ensures among { StopsAmong [] (files_of all.old) result }
{
    for k in 0..all.len() {
        match compare_next(files, all.item_mut(k), head) {
            Ok(()) => {}
            Err(stop) => return Err(stop),
        }
    }
    Ok(())
}

/// Compares the headers of all outputs, which are of this format, and gives a buffer for what follows
/// them.
pub(crate) fn compare_headers<F: Files>(
    alloc: Global,
    files: &mut F,
    format: CaptureFormat,
    all: &mut Seq<Compared>,
) -> Result<Vec<u8>, RunFault>
    requires opened { EachFile (IsRead (F.told files.old)) (files_of all.old) }
    requires apart { IsApart (files_of all.old) }
    requires fresh { (k : ℕ) → (c : Comparing) → slice_get all.old k ≡ Some c → c.same ≡ true }
    ensures compares { (mode : Mode) → (workers : ℕ) → (card : Card) → OnOk result
        (AreFound (λ k. bytes_of mode workers card format (length all.old) k [])
        (F.told files.old).rest all.new (F.told files.new)) }
    ensures same_files { files_of all.new ≡ files_of all.old }
    ensures kept { KeepsOthers (files_of all.old) (F.told files.old) (F.told files.new) }
    ensures cause { IsStopCause (F.counted files.old) (F.counted files.new) result }
    ensures among { StopsAmong [] (files_of all.old) result }
{
    let mut buffer = Vec::new(alloc);
    match push_head(&mut buffer, format) {
        Ok(()) => {}
        Err(_) => return Err(RunFault::Memory),
    }
    match compare_heads(files, all, buffer.as_slice()) {
        Ok(()) => Ok(buffer),
        Err(stop) => Err(stop),
    }
}

/// Compares what a packet leaves in each output.
pub(crate) fn compare_all<F: Files>(
    files: &mut F,
    all: &mut Seq<Compared>,
    buffer: &mut Vec<u8>,
    format: CaptureFormat,
    packet: &Packet,
    original: u32,
    frame: &[u8],
    done: &Done,
) -> Result<(), RunFault>
    requires opened { EachFile (IsRead (F.told files.old)) (files_of all.old) }
    requires apart { IsApart (files_of all.old) }
    requires few { length all.old ≤ 2 ^ 32 }
    requires time { packet.now.time ≤ greatest_time }
    requires captured { length frame.now ≤ 262144 }
    // Whoever handled it.
    ensures compares { (worker : ℕ) → let h = came_to worker packet.now original frame.now done.now in
        (start : ℕ → Option (List ℕ)) → (mode : Mode) → (workers : ℕ) → (card : Card) →
        (ports : ℕ) → (hs : List Handled) → length all.old ≤ ports →
        AreFound (λ k. bytes_of mode workers card format ports k hs) start all.old (F.told files.old) →
        OnOk result (AreFound (λ k. bytes_of mode workers card format ports k (hs ++ h ∷ []))
        start all.new (F.told files.new)) }
    ensures same_files { files_of all.new ≡ files_of all.old }
    ensures kept { KeepsOthers (files_of all.old) (F.told files.old) (F.told files.new) }
    ensures cause { IsStopCause (F.counted files.old) (F.counted files.new) result }
    ensures among { StopsAmong [] (files_of all.old) result }
{
    for k in 0..all.len() {
        let one = all.item_mut(k);
        match compare_sent(
            files, one, buffer, format, k as u32, packet, original, frame, done,
        ) {
            Ok(()) => {}
            Err(stop) => return Err(stop),
        }
    }
    Ok(())
}

// Whether one output held what it was compared with, and no more.
fn is_whole<F: Files>(files: &mut F, compared: &mut Compared) -> Result<bool, RunFault>
    requires opened { IsRead (F.told files.old) compared.old.file }
    ensures whole { let file = compared.old.file in
        (start : Option (List ℕ)) → (bytes : List ℕ) →
        Found compared.old bytes start ((F.told files.old).rest file) → IsWhole bytes start result }
    ensures same_file { compared.new.file ≡ compared.old.file }
    ensures kept { Keeps (F.told files.old) (F.told files.new) compared.old.file }
    ensures cause { IsStopCause (F.counted files.old) (F.counted files.new) result }
    ensures at { StopsAt compared.old.file result }
{
    match compared.is_whole(files) {
        Ok(same) => Ok(same),
        Err(fault) => Err(RunFault::of(compared.file(), fault)),
    }
}

/// The least port whose output isn't what it was compared with; None where all are.
pub(crate) fn first_other<F: Files>(
    files: &mut F,
    all: &mut Seq<Compared>,
) -> Result<Option<u32>, RunFault>
    requires opened { EachFile (IsRead (F.told files.old)) (files_of all.old) }
    requires apart { IsApart (files_of all.old) }
    requires few { length all.old ≤ 2 ^ 32 }
    ensures other { (start : ℕ → Option (List ℕ)) → (bytes : ℕ → List ℕ) →
        AreFound bytes start all.old (F.told files.old) →
        IsFirstOther bytes start (files_of all.old) result }
    ensures kept { KeepsOthers (files_of all.old) (F.told files.old) (F.told files.new) }
    ensures cause { IsStopCause (F.counted files.old) (F.counted files.new) result }
    ensures among { StopsAmong [] (files_of all.old) result }
{
    for k in 0..all.len() {
        match is_whole(files, all.item_mut(k)) {
            Ok(true) => {}
            Ok(false) => return Ok(Some(k as u32)),
            Err(stop) => return Err(stop),
        }
    }
    Ok(None)
}
