//! Calls on files, feeds and runs. They promise what further calls ask for and no more: what the answers are is
//! compared, and not proved.
ghost use Rattle.std.specs.Prelude.{◌≡◌, ◌≤◌, ◌+◌, ◌^◌, ℕ, length, IfOk};
ghost use Rattle.nf_base.specs.Doors.{six_ports};
ghost use Rattle.nf_base.specs.Functions.{function_of};
ghost use Rattle.toeplitz_hash.specs.Meeting.{HashAlikeWhereTheyMeet};
ghost use Rattle.nf_files.specs.Openings.{Opens, Creates};
ghost use Rattle.nf_files.specs.Told.{IsEmptyIfTold, IsRead, IsWritten};
ghost use Rattle.packet_feed.specs.Told.{EachFile, IsApart};
ghost use Rattle.packet_feed.specs.Sources.{files_in, sixes_in};

use capture_format::CaptureFormat;
use nf_base::card::Card;
use nf_base::func::Func;
use nf_base::keys::Keys;
use nf_base::worker_turns::Idle;
use nf_base::workers::Workers;
use nf_files::{Files, FilesFault};
use packet_feed::{Feed, FeedFault};
use sharded_run::{ShardedResult, run};
use std::alloc::Global;
use std::sync::{Arc, Wait};
use std::thread::Threads;
use stream_run::RunFault;

// Opens a name to be read.
fn open_one<F: Files>(files: &mut F, name: &str) -> Result<u32, FilesFault>
    ensures ok { IfOk result (λ file. Opens (F.told files.old) (F.told files.new) name.now file) }
    ensures reads { (g : ℕ) → IsRead (F.told files.old) g → IsRead (F.told files.new) g }
{
    files.open_in(name)
}

// Creates a name to be written.
fn create_one<F: Files>(files: &mut F, name: &str) -> Result<u32, FilesFault>
    ensures ok { IfOk result (λ file. Creates (F.told files.old) (F.told files.new) name.now file) }
    ensures reads { (g : ℕ) → IsRead (F.told files.old) g → IsRead (F.told files.new) g }
    ensures writes { (g : ℕ) → IsWritten (F.told files.old) g → IsWritten (F.told files.new) g }
{
    files.create_out(name)
}

/// Opens names to be read.
pub fn open_all<F: Files>(
    alloc: Global,
    files: &mut F,
    names: &[&str],
) -> Result<Vec<u32>, FilesFault>
    ensures readable { IfOk result (λ opened. EachFile (IsRead (F.told files.new)) opened.items) }
    ensures apart { IfOk result (λ opened. IsApart opened.items) }
    ensures count { IfOk result (λ opened. length opened.items ≡ length names.now) }
{
    let mut opened = Vec::new(alloc);
    for name in names {
        let file = open_one(files, name)?;
        opened.push(file)?;
    }
    Ok(opened)
}

/// Creates names to be written.
pub fn create_all<F: Files>(
    alloc: Global,
    files: &mut F,
    names: &[&str],
) -> Result<Vec<u32>, FilesFault>
    ensures writable { IfOk result (λ made. EachFile (IsWritten (F.told files.new)) made.items) }
    ensures apart { IfOk result (λ made. IsApart made.items) }
    ensures count { IfOk result (λ made. length made.items ≡ length names.now) }
    ensures empty { IfOk result (λ made.
        EachFile (λ file. IsEmptyIfTold ((F.told files.new).given file)) made.items) }
    ensures reads { (g : ℕ) → IsRead (F.told files.old) g → IsRead (F.told files.new) g }
{
    let mut made = Vec::new(alloc);
    for name in names {
        let file = create_one(files, name)?;
        made.push(file)?;
    }
    Ok(made)
}

/// Reads the headers of captures, one for each port of a function.
pub fn start<F: Files>(
    alloc: Global,
    files: &mut F,
    func: &Func,
    opened: &[u32],
    most: u32,
) -> Result<Feed, FeedFault>
    requires readable { EachFile (IsRead (F.told files.old)) opened.now }
    requires apart { IsApart opened.now }
    requires ports { length opened.now ≤ 2 ^ 32 }
    requires ports_of { length opened.now ≡ length func.now.handlers }
    ensures files { IfOk result (λ feed. files_in feed.sources ≡ opened.now) }
    ensures six { IfOk result (λ feed. sixes_in feed.sources ≡ six_ports (function_of func.now)) }
    ensures new { IfOk result (λ feed. feed.given ≡ 0) }
    ensures reads { (g : ℕ) → IsRead (F.told files.old) g → IsRead (F.told files.new) g }
{
    Feed::start(alloc, files, func, opened, most)
}

/// Handles packets, and writes what they leave.
pub fn run_all<R: Threads + Wait + Clone + Send + Sync + Drop + 'static, F: Files>(
    rt: &R,
    alloc: Global,
    files: &mut F,
    func: &Func,
    keys: &Keys,
    card: Card,
    feed: &mut Feed,
    opened: &[u32],
    made: &[u32],
) -> Result<ShardedResult, RunFault>
    requires keyed { length func.now.handlers ≤ length keys.now.ports }
    requires alike { HashAlikeWhereTheyMeet (function_of func.now) keys.now }
    requires captures { files_in feed.old.sources ≡ opened.now }
    requires six { sixes_in feed.old.sources ≡ six_ports (function_of func.now) }
    requires ports { length opened.now ≡ length func.now.handlers }
    requires new { feed.old.given ≡ 0 }
    requires readable { EachFile (IsRead (F.told files.old)) opened.now }
    requires writable { EachFile (IsWritten (F.told files.old)) made.now }
    requires apart { IsApart made.now }
    requires as_many { length made.now ≡ length func.now.handlers + 1 }
    requires few { length made.now ≤ 2 ^ 32 }
    requires empty { EachFile (λ file. IsEmptyIfTold ((F.told files.old).given file)) made.now }
{
    let turns = match Arc::new(alloc, Idle) {
        Ok(turns) => turns,
        Err(_) => return Err(RunFault::Memory),
    };
    run(
        rt,
        alloc,
        files,
        func,
        keys,
        Workers::new(2),
        card,
        CaptureFormat::Pcap,
        feed,
        opened,
        made,
        &turns,
    )
}

/// Where the captures are torn.
pub fn torn(feed: &Feed) -> Option<(u32, u64)> {
    feed.torn()
}
