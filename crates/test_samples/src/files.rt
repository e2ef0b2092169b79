//! Calls on files and feeds. They promise what further calls ask for and no more: what the answers are is compared, and
//! not proved.
ghost use Rattle.std.specs.Prelude.{◌≡◌, ◌≤◌, ◌^◌, ℕ, length, IfOk};
ghost use Rattle.nf_base.specs.Doors.{six_ports};
ghost use Rattle.nf_base.specs.Functions.{function_of};
ghost use Rattle.nf_files.specs.Openings.{Opens, Creates};
ghost use Rattle.nf_files.specs.Told.{IsEmptyIfTold, IsRead, IsWritten};
ghost use Rattle.packet_feed.specs.Told.{EachFile, IsApart};
ghost use Rattle.packet_feed.specs.Sources.{files_in, sixes_in};
ghost use Rattle.test_samples.specs.Order.{AreInOrder};

use nf_base::func::Func;
use nf_files::{Files, FilesFault, MemoryFiles};
use packet_feed::{Fed, Feed, FeedFault};
use std::alloc::{AllocError, Global};

/// Files in memory, of these names and contents; the calls on them that are listed fail.
pub fn holding(
    alloc: Global,
    names: &[&str],
    contents: &[Vec<u8>],
    fails: &[u64],
) -> Result<MemoryFiles, AllocError> {
    let mut files = MemoryFiles::new(alloc, Vec::from_slice(alloc, fails)?);
    for (name, bytes) in names.iter().zip(contents) {
        files.put(name, bytes.as_slice())?;
    }
    Ok(files)
}

/// What stands in files of these names: `-` where there is none.
pub fn left_in(
    alloc: Global,
    files: &MemoryFiles,
    names: &[&str],
) -> Result<Vec<Vec<u8>>, AllocError> {
    let mut left = Vec::new(alloc);
    for name in names {
        let bytes = files.content(name).unwrap_or(b"-");
        left.push(Vec::from_slice(alloc, bytes)?)?;
    }
    Ok(left)
}

// Opens a name to be read.
fn open_one<F: Files>(files: &mut F, name: &str) -> Result<u32, FilesFault>
    ensures ok { IfOk result (λ file. Opens (F.told files.old) (F.told files.new) name.now file) }
    ensures reads { (g : ℕ) → IsRead (F.told files.old) g → IsRead (F.told files.new) g }
{
    files.open_in(name)
}

// Creates a name to be written.
fn create_one<F: Files>(files: &mut F, name: &str) -> Result<u32, FilesFault>
    ensures ok { IfOk result (λ file. Creates (F.told files.old) (F.told files.new) name.now file) }
    ensures reads { (g : ℕ) → IsRead (F.told files.old) g → IsRead (F.told files.new) g }
    ensures writes { (g : ℕ) → IsWritten (F.told files.old) g → IsWritten (F.told files.new) g }
{
    files.create_out(name)
}

/// Opens names to be read.
pub fn open_all<F: Files>(
    alloc: Global,
    files: &mut F,
    names: &[&str],
) -> Result<Vec<u32>, FilesFault>
    ensures readable { IfOk result (λ opened. EachFile (IsRead (F.told files.new)) opened.items) }
    ensures apart { IfOk result (λ opened. IsApart opened.items) }
    ensures count { IfOk result (λ opened. length opened.items ≡ length names.now) }
{
    let mut opened = Vec::new(alloc);
    for name in names {
        let file = open_one(files, name)?;
        opened.push(file)?;
    }
    Ok(opened)
}

/// Creates names to be written.
pub fn create_all<F: Files>(
    alloc: Global,
    files: &mut F,
    names: &[&str],
) -> Result<Vec<u32>, FilesFault>
    ensures writable { IfOk result (λ made. EachFile (IsWritten (F.told files.new)) made.items) }
    ensures apart { IfOk result (λ made. IsApart made.items) }
    ensures in_order { IfOk result (λ made. AreInOrder made.items) }
    ensures count { IfOk result (λ made. length made.items ≡ length names.now) }
    ensures empty { IfOk result (λ made.
        EachFile (λ file. IsEmptyIfTold ((F.told files.new).given file)) made.items) }
    ensures reads { (g : ℕ) → IsRead (F.told files.old) g → IsRead (F.told files.new) g }
{
    let mut made = Vec::new(alloc);
    for name in names {
        let file = create_one(files, name)?;
        made.push(file)?;
    }
    Ok(made)
}

/// Reads the headers of captures, one for each port of a function.
pub fn start<F: Files>(
    alloc: Global,
    files: &mut F,
    func: &Func,
    captures: &[u32],
    most: u32,
) -> Result<Feed, FeedFault>
    requires readable { EachFile (IsRead (F.told files.old)) captures.now }
    requires apart { IsApart captures.now }
    requires ports { length captures.now ≤ 2 ^ 32 }
    requires ports_of { length captures.now ≡ length func.now.handlers }
    ensures files { IfOk result (λ feed. files_in feed.sources ≡ captures.now) }
    ensures six { IfOk result (λ feed. sixes_in feed.sources ≡ six_ports (function_of func.now)) }
    ensures new { IfOk result (λ feed. feed.given ≡ 0) }
    ensures most { IfOk result (λ feed. feed.most ≡ most) }
    ensures readable { IfOk result (λ feed. EachFile (IsRead (F.told files.new)) (files_in feed.sources)) }
{
    Feed::start(alloc, files, func, captures, most)
}

/// The next packet of captures.
pub fn next<F: Files>(feed: &mut Feed, files: &mut F) -> Result<Fed, FeedFault>
    requires { EachFile (IsRead (F.told files.old)) (files_in feed.old.sources) }
    ensures readable { EachFile (IsRead (F.told files.new)) (files_in feed.new.sources) }
    ensures files { files_in feed.new.sources ≡ files_in feed.old.sources }
{
    feed.next(files)
}

/// The captured bytes and the length on the wire of the packet that was given last.
pub fn last(feed: &Feed) -> (&[u8], u32) {
    (feed.frame(), feed.original())
}

/// Where captures are torn.
pub fn torn(feed: &Feed) -> Option<(u32, u64)> {
    feed.torn()
}
