//! Captures that are read side by side.
ghost use Rattle.std.specs.Prelude.{◌≡◌, ◌≢◌, ◌-◌, ◌^◌, ◌<◌, ◌≤◌, ℕ, List, length, slice_get, true, OnOk, IfOk, Some, []};
ghost use Rattle.std.specs.List.{All};
ghost use Rattle.nf_base.specs.Doors.{six_ports};
ghost use Rattle.nf_base.specs.Functions.{function_of};
ghost use Rattle.nf_files.specs.Told.{Told, IsRead};
ghost use Rattle.packet_feed.specs.Arrivals.{Arrival};
ghost use Rattle.packet_feed.specs.Faults.{IsCause, IsNoHeaderFault};
ghost use Rattle.packet_feed.specs.Told.{EachFile, IsApart, KeepsOthers};
ghost use Rattle.packet_feed.specs.Sources.{files_in, sixes_in, counts_in, SourcesStand, AreSettled, AreSettledBut, AreFrom, AreOpened, IsFirst, IsGiven};
ghost use Rattle.packet_feed.specs.Feeding.{last_at, first_tear, tears_in};
ghost use Rattle.packet_feed.specs.Ports.{SourcesStandByPort, IsSettledAt, IsGivenAt};

use crate::fault::FeedFault;
use crate::first::First;
use crate::source::Source;
use nf_base::func::Func;
use nf_base::packet::Packet;
use nf_base::seq::Seq;
use nf_files::Files;
use std::alloc::Global;

/// Reads the headers of captures, in the order of a function's ports.
pub(crate) fn open_all<F: Files>(
    alloc: Global,
    files: &mut F,
    func: &Func,
    captures: &[u32],
) -> Result<Seq<Source>, FeedFault>
    requires opened { EachFile (IsRead (F.told files.old)) captures.now }
    requires apart { IsApart captures.now }
    requires ports { length captures.now ≤ 2 ^ 32 }
    requires ports_of { length captures.now ≡ length func.now.handlers }
    ensures opens { let six = six_ports (function_of func.now) in
        AreOpened captures.now six (F.told files.old) (F.told files.new) result }
    ensures by_port { IfOk result (λ sources.
        SourcesStandByPort (F.told files.old) [] sources (F.told files.new)) }
    ensures kept { KeepsOthers captures.now (F.told files.old) (F.told files.new) }
    ensures cause { IsCause (F.counted files.old) (F.counted files.new) captures.now result }
{
    let mut sources = Seq::new(alloc);
    for (port, file) in captures.iter().enumerate() {
        match Source::open(alloc, files, *file, func.has_six(port as u32)) {
            Ok(source) => match sources.push(source) {
                Ok(()) => {}
                Err(_) => return Err(FeedFault::Memory),
            },
            Err(fault) => return Err(FeedFault::at(port as u32, fault)),
        }
    }
    Ok(sources)
}

/// Reads the next record of each capture of which it isn't known yet what comes next.
pub(crate) fn fill_all<F: Files>(sources: &mut Seq<Source>, files: &mut F) -> Result<(), FeedFault>
    requires opened { EachFile (IsRead (F.told files.old)) (files_in sources.old) }
    requires apart { IsApart (files_in sources.old) }
    requires ports { length sources.old ≤ 2 ^ 32 }
    ensures stand { (start : Told) → (given : List Arrival) →
        SourcesStand start given sources.old (F.told files.old) →
        OnOk result (SourcesStand start given sources.new (F.told files.new)) }
    ensures settled { OnOk result (AreSettled sources.new) }
    ensures later { (time : ℕ) → AreFrom time sources.old → OnOk result (AreFrom time sources.new) }
    ensures same_files { files_in sources.new ≡ files_in sources.old }
    ensures same_six { sixes_in sources.new ≡ sixes_in sources.old }
    ensures same_counts { counts_in sources.new ≡ counts_in sources.old }
    ensures kept { KeepsOthers (files_in sources.old) (F.told files.old) (F.told files.new) }
    ensures cause { let all = files_in sources.old in
        IsCause (F.counted files.old) (F.counted files.new) all result }
    ensures never { IsNoHeaderFault result }
{
    for port in 0..sources.len() {
        match sources.item_mut(port).fill(files) {
            Ok(()) => {}
            Err(fault) => return Err(FeedFault::at(port as u32, fault)),
        }
    }
    Ok(())
}

/// Gives the packet that comes first of those that were read ahead.
#[inline]
pub(crate) fn pass(sources: &mut Seq<Source>, first: First)
    requires first { IsFirst sources.old (length sources.old) (Some first) }
    requires room { All (λ count. count < 2 ^ 32 - 1) (counts_in sources.old) }
    requires ports { length sources.old ≤ 2 ^ 32 }
    ensures { let port = first.port in
        IsGiven port (last_at port (slice_get sources.new port)) sources.old sources.new }
{
    sources.item_mut(first.port).pass();
}

/// Reads the next record of a port's capture, where it isn't known yet what comes next.
#[inline]
pub(crate) fn fill_at<F: Files>(
    sources: &mut Seq<Source>,
    files: &mut F,
    port: usize,
) -> Result<(), FeedFault>
    requires opened { EachFile (IsRead (F.told files.old)) (files_in sources.old) }
    requires apart { IsApart (files_in sources.old) }
    requires ports { length sources.old ≤ 2 ^ 32 }
    requires inside { port < length sources.old }
    ensures stand { (start : Told) → (given : List Arrival) →
        SourcesStandByPort start given sources.old (F.told files.old) →
        OnOk result (SourcesStandByPort start given sources.new (F.told files.new)) }
    ensures all { (start : Told) → (given : List Arrival) →
        SourcesStand start given sources.old (F.told files.old) →
        OnOk result (SourcesStand start given sources.new (F.told files.new)) }
    ensures settled { OnOk result (IsSettledAt port sources.new) }
    ensures others { (p : ℕ) → p ≢ port → slice_get sources.new p ≡ slice_get sources.old p }
    ensures later { (time : ℕ) → AreFrom time sources.old → OnOk result (AreFrom time sources.new) }
    ensures same_files { files_in sources.new ≡ files_in sources.old }
    ensures same_six { sixes_in sources.new ≡ sixes_in sources.old }
    ensures same_counts { counts_in sources.new ≡ counts_in sources.old }
    ensures kept { KeepsOthers (files_in sources.old) (F.told files.old) (F.told files.new) }
    ensures cause { let all = files_in sources.old in
        IsCause (F.counted files.old) (F.counted files.new) all result }
    ensures never { IsNoHeaderFault result }
{
    match sources.item_mut(port).fill(files) {
        Ok(()) => Ok(()),
        Err(fault) => Err(FeedFault::at(port as u32, fault)),
    }
}

/// Reads the next record of each capture of which it isn't known yet what comes next; where it is known
/// of all but one, of that one alone.
#[inline(always)]
pub(crate) fn fill_next<F: Files>(
    sources: &mut Seq<Source>,
    files: &mut F,
    settled: bool,
    last: usize,
) -> Result<(), FeedFault>
    requires opened { EachFile (IsRead (F.told files.old)) (files_in sources.old) }
    requires apart { IsApart (files_in sources.old) }
    requires ports { length sources.old ≤ 2 ^ 32 }
    requires settled { settled ≡ true → AreSettledBut last sources.old }
    ensures stand { (start : Told) → (given : List Arrival) →
        SourcesStand start given sources.old (F.told files.old) →
        OnOk result (SourcesStand start given sources.new (F.told files.new)) }
    ensures settled { OnOk result (AreSettled sources.new) }
    ensures but { settled ≡ true → AreSettledBut last sources.new }
    ensures later { (time : ℕ) → AreFrom time sources.old → OnOk result (AreFrom time sources.new) }
    ensures same_files { files_in sources.new ≡ files_in sources.old }
    ensures same_six { sixes_in sources.new ≡ sixes_in sources.old }
    ensures same_counts { counts_in sources.new ≡ counts_in sources.old }
    ensures kept { KeepsOthers (files_in sources.old) (F.told files.old) (F.told files.new) }
    ensures cause { let all = files_in sources.old in
        IsCause (F.counted files.old) (F.counted files.new) all result }
    ensures never { IsNoHeaderFault result }
{
    if !settled {
        return fill_all(sources, files);
    }
    if last < sources.len() {
        fill_at(sources, files, last)
    } else {
        Ok(())
    }
}

/// Gives the packet that was read ahead of a port's capture; None where none was.
pub(crate) fn give_at(sources: &mut Seq<Source>, port: usize) -> Option<Packet>
    requires inside { port < length sources.old }
    requires room { All (λ count. count < 2 ^ 32 - 1) (counts_in sources.old) }
    requires ports { length sources.old ≤ 2 ^ 32 }
    ensures { IsGivenAt port sources.old sources.new result }
{
    if sources.item(port).is_held() {
        Some(sources.item_mut(port).give(port as u32))
    } else {
        None
    }
}

/// The least port whose capture was found to be torn, and the offset of the torn record there.
pub(crate) fn torn(sources: &Seq<Source>) -> Option<(u32, u64)>
    requires { length sources.now ≤ 2 ^ 32 }
    ensures { result ≡ first_tear 0 (tears_in sources.now) }
{
    for port in 0..sources.len() {
        if let Some(offset) = sources.item(port).tear() {
            return Some((port as u32, offset));
        }
    }
    None
}
