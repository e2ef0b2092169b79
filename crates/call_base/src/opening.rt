//! Names that are opened and created.
ghost use Rattle.std.specs.Prelude.{◌≡◌, ◌^◌, ◌+◌, ◌-◌, ◌≤◌, ◌<◌, ℕ, min, map, length, IfOk, IfErr, OnErr, Some, string_bytes, slice_get};
ghost use Rattle.nf_files.specs.declared.kind.Kind.{Kind};
ghost use Rattle.nf_files.specs.Told.{Same, IsRead, IsWritten};
ghost use Rattle.nf_files.specs.Openings.{Opens, Creates};
ghost use Rattle.stream_run.specs.Stops.{stop_of};
ghost use Rattle.call_base.specs.Outside.{IsUntouched};
ghost use Rattle.call_base.specs.Names.{reading, writing, name_at, created_by};
ghost use Rattle.call_base.specs.Opened.{AsksNext, AsksAll, StopsFrom, StopsNext, AreOpened, AreAllCreated, AreSomeCreated};

use crate::names::name_at;
use capture_format::CaptureFormat;
use nf_files::{Files, FilesFault};
use std::alloc::Global;
use stream_run::RunFault;

// What a fault of an opening is, behind a number that was given last.
fn stop_behind(last: u32, fault: FilesFault) -> RunFault
    ensures { result ≡ stop_of (min (last + 1) (2 ^ 32 - 1)) fault }
{
    RunFault::of(last.saturating_add(1), fault)
}

// Opens the next file, to be read.
fn open_next<F: Files>(files: &mut F, name: &String, last: u32) -> Result<u32, RunFault>
    requires last { (F.told files.old).next ≡ last + 1 }
    ensures ok { let name = string_bytes name.now in
        IfOk result (λ file. Opens (F.told files.old) (F.told files.new) name file) }
    ensures err { OnErr result (Same (F.told files.old) (F.told files.new)) }
    ensures cause { let name = reading (string_bytes name.now) in
        AsksNext name (last + 1) (F.counted files.old) (F.counted files.new) result }
{
    match files.open_in(name) {
        Ok(file) => Ok(file),
        Err(fault) => Err(stop_behind(last, fault)),
    }
}

/// Creates the next file, to be written.
pub fn create_next<F: Files>(files: &mut F, name: &String, last: u32) -> Result<u32, RunFault>
    requires last { (F.told files.old).next ≡ last + 1 }
    ensures ok { let name = string_bytes name.now in
        IfOk result (λ file. Creates (F.told files.old) (F.told files.new) name file) }
    ensures err { OnErr result (Same (F.told files.old) (F.told files.new)) }
    ensures cause { let name = writing (string_bytes name.now) in
        AsksNext name (last + 1) (F.counted files.old) (F.counted files.new) result }
{
    match files.create_out(name) {
        Ok(file) => Ok(file),
        Err(fault) => Err(stop_behind(last, fault)),
    }
}

/// Opens all captures, in port order, behind a number that was given last.
pub fn open_captures<F: Files>(
    alloc: Global,
    files: &mut F,
    names: &[String],
    last: u32,
) -> Result<Vec<u32>, RunFault>
    requires last { (F.told files.old).next ≡ last + 1 }
    ensures opened { let names = map string_bytes names.now in
        IfOk result (λ opened. AreOpened (F.told files.old) (F.told files.new) names opened.items) }
    ensures all { IfOk result (λ opened. length opened.items ≡ length names.now) }
    ensures readable { IfOk result (λ opened. (i : ℕ) → (f : ℕ) →
        slice_get opened.items i ≡ Some f → IsRead (F.told files.new) f) }
    ensures untouched { IsUntouched (F.told files.old) (F.told files.new) }
    ensures cause { let names = map reading (map string_bytes names.now) in
        AsksAll names (F.counted files.old) (F.counted files.new) result }
    ensures from { IfErr result (StopsFrom (last + 1) (length names.now)) }
    ensures here { IfErr result (StopsNext (F.told files.new).next) }
    // Files that were opened or created before stay so, and so does what is left of them.
    ensures kinds { (g : ℕ) → (kind : Kind) →
        (F.told files.old).kind g ≡ Some kind → (F.told files.new).kind g ≡ Some kind }
    ensures rests { (g : ℕ) → g < (F.told files.old).next →
        (F.told files.new).rest g ≡ (F.told files.old).rest g }
{
    let mut opened = Vec::new(alloc);
    let mut last = last;
    for name in names {
        match open_next(files, name, last) {
            Ok(file) => match opened.push(file) {
                Ok(()) => last = file,
                Err(_) => return Err(RunFault::Memory),
            },
            Err(stop) => return Err(stop),
        }
    }
    Ok(opened)
}

// Creates the file of a place among those that a run of so many ports leaves.
fn create_at<F: Files>(
    alloc: Global,
    files: &mut F,
    format: CaptureFormat,
    out: &String,
    ports: u32,
    place: u32,
    last: u32,
) -> Result<u32, RunFault>
    requires last { (F.told files.old).next ≡ last + 1 }
    ensures ok { let name = name_at format (string_bytes out.now) ports place in
        IfOk result (λ file. Creates (F.told files.old) (F.told files.new) name file) }
    ensures err { OnErr result (Same (F.told files.old) (F.told files.new)) }
    ensures cause { let name = writing (name_at format (string_bytes out.now) ports place) in
        AsksNext name (last + 1) (F.counted files.old) (F.counted files.new) result }
{
    match name_at(alloc, format, out, ports, place) {
        Ok(name) => create_next(files, &name, last),
        Err(_) => Err(RunFault::Memory),
    }
}

/// Creates the outputs of so many ports, of this format and in port order, and the journal, behind a
/// number that was given last.
pub fn create_targets<F: Files>(
    alloc: Global,
    files: &mut F,
    format: CaptureFormat,
    out: &String,
    ports: u32,
    last: u32,
) -> Result<Vec<u32>, RunFault>
    requires last { (F.told files.old).next ≡ last + 1 }
    requires few { ports ≤ 4 }
    ensures created { let name = name_at format (string_bytes out.now) ports in IfOk result (λ targets.
        AreAllCreated (F.told files.old) (F.told files.new) name targets.items (ports + 1)) }
    ensures some { let name = name_at format (string_bytes out.now) ports in
        IfErr result (AreSomeCreated (F.told files.old) (F.told files.new) name (ports + 1)) }
    ensures writable { IfOk result (λ targets. (i : ℕ) → (f : ℕ) →
        slice_get targets.items i ≡ Some f → IsWritten (F.told files.new) f) }
    ensures cause { let names = created_by format (string_bytes out.now) ports (ports + 1) in
        AsksAll names (F.counted files.old) (F.counted files.new) result }
{
    let mut targets = Vec::new(alloc);
    let mut last = last;
    'places: for place in 0..ports + 1 {
        match create_at(alloc, files, format, out, ports, place, last) {
            Ok(file) => match targets.push(file) {
                Ok(()) => last = file,
                Err(_) => return Err(RunFault::Memory),
            },
            Err(stop) => return Err(stop),
        }
    }
    Ok(targets)
}
