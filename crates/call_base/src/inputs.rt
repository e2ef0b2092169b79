//! The captures of a call, opened to be read.
ghost use Rattle.std.specs.Prelude.{◌≡◌, ◌+◌, ◌≤◌, [], ◌∷◌, ℕ, List, length, map, IfOk, OnOk, string_bytes};
ghost use Rattle.nf_files.specs.Told.{IsRead};
ghost use Rattle.nf_base.specs.Functions.{function_of};
ghost use Rattle.packet_feed.specs.Told.{EachFile};
ghost use Rattle.call_base.specs.Names.{reading};
ghost use Rattle.call_base.specs.Outside.{Outside, HasOnlyAsked, seen};
ghost use Rattle.call_base.specs.Reading.{Reads, AreFrom, IsFresh, HasOpened, ReadsTo, unfed};

use crate::layout::Layout;
use crate::opening::open_captures;
use crate::status::{CallFault, Halt, Refusal, RunFile};
use nf_base::func::Func;
use nf_files::Files;
use packet_feed::{Feed, FeedFault};
use std::alloc::Global;

/// The files of captures, in port order, and a feed of their packets.
#[derive(Drop)]
pub struct Inputs {
    pub captures: Vec<u32>,
    pub feed: Feed,
}

// Why captures can't be read.
fn unfed(fault: FeedFault) -> Halt
    ensures { result ≡ unfed fault }
{
    match fault {
        FeedFault::NotCapture { port } => Halt::Refusal(Refusal::NotCapture { port }),
        FeedFault::File { port } => Halt::Stop(CallFault::File(RunFile::Capture(port))),
        FeedFault::Memory => Halt::Stop(CallFault::Memory),
    }
}

// Reads the headers of captures that were opened.
fn start_feed<F: Files>(
    alloc: Global,
    files: &mut F,
    func: &Func,
    captures: Vec<u32>,
    most: u32,
    layout: Layout,
) -> Result<Inputs, Halt>
    requires from { AreFrom (layout.first + 1) captures.items layout.captures }
    requires all { length captures.items ≡ layout.captures }
    requires as_many { layout.captures ≡ length func.now.handlers }
    requires read { EachFile (IsRead (F.told files.old)) captures.items }
    requires next { (F.told files.old).next ≡ layout.first + 1 + layout.captures }
    ensures fresh { let f = function_of func.now in
        IfOk result (λ inputs. IsFresh f most inputs.captures.items inputs.feed) }
    ensures from { IfOk result (λ inputs.
        AreFrom (layout.first + 1) inputs.captures.items layout.captures) }
    ensures all { IfOk result (λ inputs. length inputs.captures.items ≡ layout.captures) }
    ensures readable { IfOk result (λ inputs. EachFile (IsRead (F.told files.new)) inputs.captures.items) }
    ensures next { OnOk result ((F.told files.new).next ≡ layout.first + 1 + layout.captures) }
    ensures reads { let now = seen (F.told files.new) (F.counted files.new) in
        (c : Reads) → (before : Outside) → c.most ≡ most → 2 ≤ before.told.next →
        HasOpened c before (seen (F.told files.old) (F.counted files.old)) captures.items →
        ReadsTo c (function_of func.now) before now result }
{
    match Feed::start(alloc, files, func, captures.as_slice(), most) {
        Ok(feed) => Ok(Inputs { captures, feed }),
        Err(fault) => Err(unfed(fault)),
    }
}

/// Opens the captures of a function's ports, in port order, and reads their headers. Of their packets
/// at most so many will be given.
pub fn open_inputs<F: Files>(
    alloc: Global,
    files: &mut F,
    func: &Func,
    names: &[String],
    most: u32,
    layout: Layout,
) -> Result<Inputs, Halt>
    requires from_two { 2 ≤ layout.first }
    requires last { (F.told files.old).next ≡ layout.first + 1 }
    requires all { length names.now ≡ layout.captures }
    requires as_many { layout.captures ≡ length func.now.handlers }
    ensures fresh { let f = function_of func.now in
        IfOk result (λ inputs. IsFresh f most inputs.captures.items inputs.feed) }
    ensures from { IfOk result (λ inputs.
        AreFrom (layout.first + 1) inputs.captures.items layout.captures) }
    ensures all { IfOk result (λ inputs. length inputs.captures.items ≡ layout.captures) }
    ensures readable { IfOk result (λ inputs. EachFile (IsRead (F.told files.new)) inputs.captures.items) }
    ensures next { OnOk result ((F.told files.new).next ≡ layout.first + 1 + layout.captures) }
    // Whatever text was read before.
    ensures reads { let now = seen (F.told files.new) (F.counted files.new) in
        let names = map string_bytes names.now in
        (text : List ℕ) → (before : Outside) → before.told.next ≡ layout.first →
        HasOnlyAsked (reading text ∷ []) before (seen (F.told files.old) (F.counted files.old)) →
        ReadsTo (record { text = text; captures = names; most = most }) (function_of func.now)
        before now result }
{
    match open_captures(alloc, files, names, layout.first) {
        Ok(captures) => start_feed(alloc, files, func, captures, most, layout),
        Err(stop) => Err(layout.halt(stop)),
    }
}
