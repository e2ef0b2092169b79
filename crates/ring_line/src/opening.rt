//! Tables of shares, opened side by side: with many indices that takes longer than to start a thread.
ghost use Rattle.std.specs.Prelude.{◌≡◌, ◌<◌, IfOk};
ghost use Rattle.nf_base.specs.Functions.{function_of};
ghost use Rattle.ring_line.specs.Openings.{IsOpenedAt, AreOpenedFrom};

use nf_base::func::Func;
use nf_base::seq::Seq;
use nf_base::workers::Workers;
use rss_table::share;
use std::alloc::{AllocError, Global};
use std::thread::{self, Threads};
use vig_tables::Tables;

/// The tables of one share, if there was memory for them.
pub type Opened = Result<Tables, AllocError>;

/// Opens the tables of a queue's share.
fn open_one(alloc: Global, func: &Func, workers: Workers, queue: usize) -> Opened
    requires { queue < workers }
    ensures { IfOk result (λ tables. IsOpenedAt (function_of func.now) workers queue tables) }
{
    let share = share(queue as u32, workers);
    let tables = Tables::new(alloc, func, share)?;
    Ok(tables)
}

/// Opens the tables of each queue's share, in the order of the queues.
pub fn open_each<R: Threads + Sync>(
    rt: &R,
    alloc: Global,
    func: &Func,
    workers: Workers,
) -> Result<Seq<Opened>, AllocError>
    ensures { IfOk result (λ opened. AreOpenedFrom (function_of func.now) workers 0 opened) }
{
    let open = |queue: usize| -> Opened
        requires { queue < workers }
        ensures { IfOk result (λ tables.
            IsOpenedAt (function_of func.entry.now) workers queue tables) }
    { open_one(alloc, func, workers, queue) };
    let opened = thread::map_indices(rt, alloc, workers.get() as usize, &open)?;
    Ok(Seq::from_vec(opened))
}
