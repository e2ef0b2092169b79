//! A worker is started.
ghost use Rattle.std.specs.Prelude.{◌≡◌, ◌<◌, ◌≤◌, [], None, IfOk, IfSome};
ghost use Rattle.rtrb.specs.Ring.{sent, received, IsPair};
ghost use Rattle.nf_base.specs.Functions.{function_of};
ghost use Rattle.vig_tables.specs.TablesState.{opened_tables};
ghost use Rattle.ring_line.specs.Packs.{empty_pack};
ghost use Rattle.ring_line.specs.ThreadWorkers.{StandsFor, StartsWith};
ghost use Rattle.ring_line.specs.Starts.{IsGiven, AreEnds};

use super::ThreadWorker;
use crate::bell::Looks;
use crate::item::Item;
use crate::pack::{IN_FLIGHT, Pack};
use crate::queue_handler::QueueHandler;
use crate::worker_ends::{RingEnds, WorkerInput, WorkerResult};
use crate::worker_loop::WorkerLoop;
use nf_base::func::Func;
use nf_base::share::Share;
use nf_base::worker_turns::Turns;
use rtrb::{Consumer, Producer, RingBuffer};
use std::alloc::{AllocError, Global};
use std::snapshot::Snapshot;
use std::sync::{Arc, Wait};
use std::thread;
use std::thread::{Parker, PromisedHandle, Threads};
use vig_tables::Tables;

/// The ends of two rings, for whoever sends and collects and for a worker.
#[derive(Drop)]
pub struct Rings {
    pub to: Producer<Item>,
    pub back: Consumer<Pack>,
    pub ends: RingEnds,
}

/// Two rings with a place for each pack: as many as packets are in flight, one that is filled, and
/// one whose answers are collected; and for the end of work.
fn new_rings(alloc: Global) -> Result<Rings, AllocError>
    ensures { IfOk result (λ rings. AreEnds rings) }
{
    let (to, from) = RingBuffer::new(alloc, IN_FLIGHT + 3)?;
    let (answers, back) = RingBuffer::new(alloc, IN_FLIGHT + 3)?;
    let ends = RingEnds { from, to: answers };
    Ok(Rings { to, back, ends })
}

/// Starts a worker's thread: None where none can be started.
fn started<
    R: Threads + Wait + Clone + Send + Drop + 'static,
    G: Turns + Send + Sync + Drop + 'static,
>(
    rt: &R,
    worker_loop: WorkerLoop<G>,
) -> Result<Option<PromisedHandle<WorkerResult, WorkerInput>>, AllocError>
    requires received { received worker_loop.ends.from ≡ [] }
    requires sent { sent worker_loop.ends.to ≡ [] }
    requires running { worker_loop.queue_handler.halt ≡ None }
    ensures { IfOk result
        (λ o. IfSome o (λ child. IsGiven child.promise worker_loop.ends worker_loop.queue_handler)) }
{
    let handle = rt.clone()?;
    let worker_input = WorkerInput {
        ends: Snapshot::of(&worker_loop.ends),
        func: Snapshot::of(worker_loop.queue_handler.func()),
        tables: Snapshot::of(worker_loop.queue_handler.tables()),
    };
    match thread::spawn_with(rt, worker_input, move || worker_loop.run(&handle)) {
        Ok(child) => Ok(Some(child)),
        Err(_) => Ok(None),
    }
}

/// The packs of a worker.
#[derive(Drop)]
struct WorkerPacks {
    filling: Pack,
    current: Pack,
    spares: Vec<Pack>,
}

/// Empty packs, as many as packets may be in flight.
fn new_packs(alloc: Global) -> Result<Vec<Pack>, AllocError> {
    let mut packs = Vec::with_capacity(alloc, IN_FLIGHT)?;
    for _ in 0..IN_FLIGHT {
        match add_pack(alloc, &mut packs) {
            Ok(()) => {}
            Err(fault) => return Err(fault),
        }
    }
    Ok(packs)
}

fn add_pack(alloc: Global, packs: &mut Vec<Pack>) -> Result<(), AllocError> {
    let pack = Pack::new(alloc)?;
    packs.push(pack)?;
    Ok(())
}

/// Two empty packs.
pub(crate) fn pack_pair(alloc: Global) -> Result<(Pack, Pack), AllocError>
    ensures first { IfOk result (λ pair. pair.0 ≡ empty_pack) }
    ensures second { IfOk result (λ pair. pair.1 ≡ empty_pack) }
{
    let first = Pack::new(alloc)?;
    let second = Pack::new(alloc)?;
    Ok((first, second))
}

/// Those packs, and two more.
fn new_worker_packs(alloc: Global) -> Result<WorkerPacks, AllocError>
    ensures filling { IfOk result (λ worker_packs. worker_packs.filling ≡ empty_pack) }
    ensures current { IfOk result (λ worker_packs. worker_packs.current ≡ empty_pack) }
{
    let (filling, current) = pack_pair(alloc)?;
    let spares = new_packs(alloc)?;
    Ok(WorkerPacks {
        filling,
        current,
        spares,
    })
}

/// A worker's bell, and that of whoever collects: each side has both.
#[derive(Drop)]
struct Bells {
    bell: Arc<Parker>,
    own_bell: Arc<Parker>,
    bell_there: Arc<Parker>,
    own_bell_there: Arc<Parker>,
}

fn new_bells(alloc: Global, own_bell: &Arc<Parker>) -> Result<Bells, AllocError> {
    let bell = Arc::new(alloc, Parker::new())?;
    let bell_there = Arc::try_clone(&bell)?;
    Ok(Bells {
        bell,
        own_bell: Arc::try_clone(own_bell)?,
        bell_there,
        own_bell_there: Arc::try_clone(own_bell)?,
    })
}

/// A queue handler of a function and tables of a share of it.
pub(crate) fn new_queue_handler<G: Turns + Drop>(
    func: Func,
    tables: Tables,
    turns: &Arc<G>,
) -> Result<QueueHandler<G>, AllocError>
    requires { tables.decls ≡ func.chains }
    ensures func { IfOk result (λ queue_handler. queue_handler.func ≡ func) }
    ensures tables { IfOk result (λ queue_handler. queue_handler.tables ≡ tables) }
    ensures halt { IfOk result (λ queue_handler. queue_handler.halt ≡ None) }
{
    let turns = Arc::try_clone(turns)?;
    let number = tables.share().queue;
    Ok(QueueHandler::new(func, tables, number, turns))
}

impl ThreadWorker {
    /// Starts a worker of a share, with its opened tables: None where no thread can be started. A pack is
    /// pushed once it has so many packets, 64 at most, or when it is flushed.
    ///
    /// The bell is rung whenever a pack comes back.
    pub(crate) fn start<
        R: Threads + Wait + Clone + Send + Drop + 'static,
        G: Turns + Send + Sync + Drop + 'static,
    >(
        rt: &R,
        alloc: Global,
        func: Func,
        tables: Tables,
        share: Share,
        size: usize,
        turns: &Arc<G>,
        own_bell: &Arc<Parker>,
    ) -> Result<Option<ThreadWorker>, AllocError>
        requires { tables ≡ opened_tables (function_of func) share }
        ensures stands { IfOk result
            (λ o. IfSome o (λ thread_worker. StandsFor thread_worker func share [] [])) }
        ensures none { IfOk result (λ o. IfSome o (λ thread_worker. thread_worker.in_flight ≡ 0)) }
    {
        let queue_handler = new_queue_handler(func, tables, turns)?;
        let worker_packs = new_worker_packs(alloc)?;
        let bells = new_bells(alloc, own_bell)?;
        // The workers, and whoever collects.
        let looks = Looks::of(rt, share.of as usize + 1);
        ThreadWorker::begin(rt, alloc, queue_handler, worker_packs, bells, looks, size)
    }

    /// Starts a worker's thread with its queue handler.
    fn begin<
        R: Threads + Wait + Clone + Send + Drop + 'static,
        G: Turns + Send + Sync + Drop + 'static,
    >(
        rt: &R,
        alloc: Global,
        queue_handler: QueueHandler<G>,
        worker_packs: WorkerPacks,
        bells: Bells,
        looks: Looks,
        size: usize,
    ) -> Result<Option<ThreadWorker>, AllocError>
        requires filling { worker_packs.filling ≡ empty_pack }
        requires current { worker_packs.current ≡ empty_pack }
        requires running { queue_handler.halt ≡ None }
        ensures stands { IfOk result
            (λ o. IfSome o (λ thread_worker. StartsWith thread_worker queue_handler)) }
        ensures none { IfOk result (λ o. IfSome o (λ thread_worker. thread_worker.in_flight ≡ 0)) }
    {
        let Bells {
            bell,
            own_bell,
            bell_there,
            own_bell_there,
        } = bells;
        let Rings { to, back, ends } = new_rings(alloc)?;
        let worker_loop = WorkerLoop {
            ends,
            queue_handler,
            bell: bell_there,
            other: own_bell_there,
            looks,
            alloc,
        };
        let WorkerPacks {
            filling,
            current,
            spares,
        } = worker_packs;
        match started(rt, worker_loop)? {
            Some(child) => Ok(Some(ThreadWorker {
                to,
                back,
                child,
                bell,
                own_bell,
                looks,
                filling,
                current,
                at: 0,
                spares,
                in_flight: 0,
                size,
            })),
            None => Ok(None),
        }
    }
}
