//! Calls on files and feeds. They promise what further calls ask for and no more: what the answers are is compared,
//! and not proved.
ghost use Rattle.std.specs.Prelude.{◌≡◌, ◌≤◌, length, IfOk};
ghost use Rattle.nf_files.specs.Told.{IsRead};
ghost use Rattle.packet_feed.specs.Told.{EachFile, IsApart};
ghost use Rattle.packet_feed.specs.Sources.{files_in};

use made_captures::Captures;
use nf_base::func::Func;
use nf_files::Files;
use packet_feed::{Fed, Feed, FeedFault};
use std::alloc::{AllocError, Global};

/// The captures of a line's numbers.
pub fn captures_of(alloc: Global, numbers: [u32; 4]) -> Result<Captures, AllocError> {
    let [seed, count, flows, ports] = numbers;
    Captures::new(alloc, seed, count, flows.max(1), ports.max(1).min(65_536))
}

/// Reads the headers of captures.
pub fn start<F: Files>(
    alloc: Global,
    files: &mut F,
    func: &Func,
    captures: &[u32],
    most: u32,
) -> Result<Feed, FeedFault>
    requires readable { EachFile (IsRead (F.told files.old)) captures.now }
    requires apart { IsApart captures.now }
    requires ports { length captures.now ≡ length func.now.handlers }
    requires few { length captures.now ≤ 4 }
    ensures readable { IfOk result (λ feed. EachFile (IsRead (F.told files.new)) (files_in feed.sources)) }
{
    Feed::start(alloc, files, func, captures, most)
}

pub fn next<F: Files>(feed: &mut Feed, files: &mut F) -> Result<Fed, FeedFault>
    requires { EachFile (IsRead (F.told files.old)) (files_in feed.old.sources) }
    ensures readable { EachFile (IsRead (F.told files.new)) (files_in feed.new.sources) }
{
    feed.next(files)
}

/// The captured bytes of the packet that was given last.
pub fn shown(feed: &Feed) -> &[u8] {
    feed.frame()
}
