// Workers with the packets of their queues.
ghost use Rattle.std.specs.Prelude.{◌≡◌, ◌≤◌, ◌<◌, ◌+◌, ℕ, List, [], ◌∷◌, ◌++◌, length, OnOk, OnErr, IfOk, IsOk};
ghost use Rattle.shard_core.specs.Apart.{AreWorked, WorkedBack};
ghost use Rattle.shard_core.specs.Held.{Held, SameButRoom, GivenOne};
ghost use Rattle.shard_core.specs.Plays.{SameSize};
ghost use Rattle.shard_laws.specs.Queues.{time_after};
ghost use Rattle.nf_base.specs.Doors.{IsServed};
ghost use Rattle.nf_base.specs.Functions.{function_of};
ghost use Rattle.shard_machine.specs.Machine.{Setup, Machine, new_machine};
ghost use Rattle.shard_machine.specs.Events.{dispatched};
ghost use Rattle.shard_core.specs.Sharded.{StandsFor, IsSetupOf, IsNewSharded, AreNew, AreWorkersOf, IsWhole, with_workers, AreSameButRoom, HaveRoom, SameButRooms, HasRoom, GivenTo, WorkedAt, WorksAt, Takes, Collects, ComesFirst, StopIn, IsStopOf};

mod finishing;

use crate::collected::{Collected, Stop};
use crate::fifo::Fifo;
use crate::worker::Worker;
use nf_base::func::Func;
use nf_base::keys::Keys;
use nf_base::packet::Packet;
use nf_base::seq::Seq;
use nf_base::workers::Workers;
use rss_table::{ByteTables, Table, share};
use shard_machine::{Answer, Worked};
use std::alloc::{AllocError, Global};
use std::marker::Model;
use std::mem;

/// The workers of a function's queues, with the packets that were dispatched to them and not
/// collected yet.
#[derive(Drop)]
pub struct Shards {
    alloc: Global,
    func: Func,
    keys: ByteTables,
    table: Table,
    /// How many queues there are.
    count: Workers,
    /// The worker of each queue: none while they are apart.
    workers: Seq<Worker>,
    /// Of each packet that was dispatched and not collected, in order.
    queues: Fifo<u32>,
    /// That of the last handled packet that was collected, in nanoseconds: 0 before the first.
    time: u64,
}

impl Model for Shards {
    ghost use Rattle.std.specs.Coded.{codes};
    ghost use Rattle.nf_base.specs.contracts.func.Func.{the_row};
    ghost use Rattle.shard_core.specs.Sharded.{Sharded, sharded_of, IsSharded};

    ghost Value = { Sharded };

    ghost coded = { Prim.hlevel (codes, the_row.coded) };

    ghost view = { λ a. sharded_of a.func a.keys a.count a.workers a.queues a.time };

    ghost invariant = { λ a.
        IsSharded a.func a.keys a.count a.workers a.queues.items a.table };
}

impl Shards {
    /// The function.
    pub fn func(&self) -> &Func
        ensures { result.now ≡ self.now.func }
    {
        &self.func
    }

    /// How many packets are dispatched and not collected.
    pub fn left(&self) -> usize
        ensures { result ≡ length self.now.queues.items }
    {
        self.queues.len()
    }

    /// How many queues there are, 1 to 16, with a worker for each.
    pub fn worker_count(&self) -> u32
        ensures value { result ≡ self.now.count }
        ensures above { 1 ≤ result }
        ensures below { result ≤ 16 }
        // No clause that speaks of each setup of a value is empty.
        ensures setup { (x : Setup) × IsSetupOf x self.now }
    {
        self.count.get()
    }

    /// Workers of a function, before the first packet, with a key for each of its ports.
    pub fn new(
        alloc: Global,
        func: &Func,
        keys: Keys,
        workers: Workers,
    ) -> Result<Shards, AllocError>
        requires { length func.now.handlers ≤ length keys.ports }
        ensures new { IfOk result (IsNewSharded (function_of func.now) keys workers) }
        ensures setup { IfOk result (λ shards. (x : Setup) × IsSetupOf x shards) }
        ensures stands { IfOk result (λ shards. (x : Setup) → IsSetupOf x shards →
            StandsFor x (new_machine x.function) shards) }
    {
        make(alloc, func, keys, workers)
    }

    /// Makes room for so many packets more: as many dispatches are then not refused.
    pub fn reserve(&mut self, n: usize) -> Result<(), AllocError>
        ensures same { SameButRooms self.old self.new }
        ensures size { SameSize self.old self.new }
        ensures room { OnOk result (HasRoom n self.new) }
        ensures stands { (x : Setup) → (m : Machine) → StandsFor x m self.old →
            StandsFor x m self.new }
    {
        self.reserve_all(n)
    }

    /// Gives a packet to its queue. It has the room for the packet's answer too.
    pub fn dispatch(&mut self, packet: Packet) -> Result<(), AllocError>
        requires whole { IsWhole self.old }
        requires port { packet.id.port < length self.old.func.handlers }
        requires served { IsServed (function_of self.old.func) packet }
        ensures given { OnOk result (GivenTo packet self.old self.new) }
        ensures err { OnErr result (SameButRooms self.old self.new) }
        ensures stands { (x : Setup) → (m : Machine) → StandsFor x m self.old →
            OnOk result (StandsFor x (dispatched x packet m) self.new) }
        ensures stays { (x : Setup) → (m : Machine) → StandsFor x m self.old →
            OnErr result (StandsFor x m self.new) }
        ensures room { (n : ℕ) → HasRoom (n + 1) self.old → IsOk result × HasRoom n self.new }
        ensures size { SameSize self.old self.new }
    {
        self.give(&packet)
    }

    fn give(&mut self, packet: &Packet) -> Result<(), AllocError>
        requires whole { IsWhole self.old }
        requires port { packet.now.id.port < length self.old.func.handlers }
        requires served { IsServed (function_of self.old.func) packet.now }
        ensures given { OnOk result (GivenTo packet.now self.old self.new) }
        ensures err { OnErr result (SameButRooms self.old self.new) }
        ensures room { (n : ℕ) → HasRoom (n + 1) self.old → IsOk result × HasRoom n self.new }
    {
        let queue = self.table.queue_by(&self.keys, packet);
        give_to(
            self.workers.item_mut(queue as usize),
            &mut self.queues,
            queue,
            packet,
        )
    }

    fn reserve_all(&mut self, n: usize) -> Result<(), AllocError>
        ensures same { SameButRooms self.old self.new }
        ensures room { OnOk result (HasRoom n self.new) }
    {
        reserve_each(&mut self.workers, n)?;
        self.queues.reserve(n)
    }

    /// A worker works the first packet that waits for it.
    ///
    /// `Stopped` comes exactly where it has met its share stop, now or before; else `Idle` exactly
    /// where no packet waits for it. It takes no memory.
    pub fn work(&mut self, w: u32) -> Worked
        requires { w < length self.old.workers }
        ensures works { WorkedAt w result self.old self.new }
        ensures stands { (x : Setup) → (m : Machine) → StandsFor x m self.old →
            WorksAt x m w result self.new }
        ensures room { (n : ℕ) → HasRoom n self.old → HasRoom n self.new }
        ensures size { SameSize self.old self.new }
    {
        self.work_at(w)
    }

    fn work_at(&mut self, w: u32) -> Worked
        requires { w < length self.old.workers }
        ensures works { WorkedAt w result self.old self.new }
        ensures room { (n : ℕ) → HasRoom n self.old → HasRoom n self.new }
    {
        self.workers.item_mut(w as usize).work(&self.func)
    }

    /// The answer of the next packet in the order dispatched.
    ///
    /// None comes exactly where that packet isn't worked yet, or is the stop, or none is left. It
    /// takes no memory.
    pub fn collect(&mut self) -> Option<Collected>
        requires whole { IsWhole self.old }
        ensures takes { Takes result self.old self.new }
        ensures stands { (x : Setup) → (m : Machine) → StandsFor x m self.old →
            Collects x m result self.new }
        ensures room { (n : ℕ) → HasRoom n self.old → HasRoom n self.new }
        ensures size { SameSize self.old self.new }
    {
        self.take_next()
    }

    fn take_next(&mut self) -> Option<Collected>
        requires whole { IsWhole self.old }
        ensures takes { Takes result self.old self.new }
        ensures room { (n : ℕ) → HasRoom n self.old → HasRoom n self.new }
    {
        match self.queues.first() {
            Some(queue) => {
                let queue = *queue;
                self.take_of(queue)
            }
            None => None,
        }
    }

    /// The first answer of the worker whose queue comes first.
    fn take_of(&mut self, queue: u32) -> Option<Collected>
        requires whole { IsWhole self.old }
        requires first { ComesFirst queue self.old.queues.items }
        ensures takes { Takes result self.old self.new }
        ensures room { (n : ℕ) → HasRoom n self.old → HasRoom n self.new }
    {
        match self.workers.item_mut(queue as usize).take() {
            Some(answer) => {
                self.queues.pop();
                let Answer { packet, done } = answer;
                self.time = time_after(self.time, &packet);
                Some(Collected {
                    packet,
                    queue,
                    done,
                })
            }
            None => None,
        }
    }

    /// The packet at which a share has no index left: where all before it are collected, and its
    /// worker was stopped at it.
    pub fn stop(&self) -> Option<Stop>
        requires whole { IsWhole self.now }
        ensures stop { StopIn self.now.queues.items self.now.workers result }
        ensures stands { (x : Setup) → (m : Machine) → StandsFor x m self.now →
            IsStopOf x m result }
    {
        self.stop_next()
    }

    fn stop_next(&self) -> Option<Stop>
        requires { IsWhole self.now }
        ensures { StopIn self.now.queues.items self.now.workers result }
    {
        match self.queues.first() {
            Some(queue) => self.workers.item(*queue as usize).stop(*queue),
            None => None,
        }
    }

    /// Takes the workers out, in number order. Until they are back, only `func` and `together` are
    /// called. It takes no memory.
    pub fn apart(&mut self) -> Vec<Worker>
        requires { IsWhole self.old }
        ensures workers { result.items ≡ self.old.workers }
        ensures rest { self.new ≡ with_workers [] self.old }
        ensures each { AreWorkersOf self.new result.items }
        ensures few { length result.items ≤ 16 }
    {
        mem::replace(&mut self.workers, Seq::new(self.alloc)).into_vec()
    }

    /// Takes workers back, one of each queue, in number order. It takes no memory.
    ///
    /// Where they are those that were taken out, each changed by calls of its `work` alone, these
    /// calls were events of the shards.
    pub fn together(&mut self, workers: Vec<Worker>)
        requires { AreWorkersOf self.old workers.items }
        ensures workers { self.new ≡ with_workers workers.items self.old }
        ensures whole { IsWhole self.new }
        ensures stands { (x : Setup) → (m : Machine) → (before : List Held) → (counts : ℕ → ℕ) →
            StandsFor x m (with_workers before self.old) →
            AreWorked (function_of self.old.func) counts before workers.items →
            WorkedBack x m counts self.new }
        ensures room { (n : ℕ) → (before : List Held) → (counts : ℕ → ℕ) →
            HasRoom n (with_workers before self.old) →
            AreWorked (function_of self.old.func) counts before workers.items →
            HasRoom n self.new }
    {
        self.put_back(workers);
    }

    fn put_back(&mut self, workers: Vec<Worker>)
        requires { AreWorkersOf self.old workers.items }
        ensures { self.new ≡ with_workers workers.items self.old }
    {
        self.workers = Seq::from_vec(workers);
    }
}

/// The time of the last handled packet, in nanoseconds, after one more packet.
fn time_after(time: u64, packet: &Packet) -> u64
    ensures { result ≡ time_after time packet.now }
{
    match packet.fields {
        Some(_) => packet.time,
        None => time,
    }
}

/// Shards before the first packet.
fn make(alloc: Global, func: &Func, keys: Keys, workers: Workers) -> Result<Shards, AllocError>
    requires { length func.now.handlers ≤ length keys.ports }
    ensures { IfOk result (IsNewSharded (function_of func.now) keys workers) }
{
    let func = func.copy(alloc)?;
    let table = Table::even(workers, keys.table);
    let keys = ByteTables::new(alloc, &keys)?;
    let made = make_workers(alloc, &func, workers)?;
    Ok(Shards {
        alloc,
        func,
        keys,
        table,
        count: workers,
        workers: made,
        queues: Fifo::new(alloc),
        time: 0,
    })
}

/// The worker of each queue, before its first packet.
fn make_workers(alloc: Global, func: &Func, workers: Workers) -> Result<Seq<Worker>, AllocError>
    ensures { IfOk result (AreNew (function_of func.now) workers workers) }
{
    let mut made = Seq::new(alloc);
    for w in 0..workers.get() {
        match Worker::new(alloc, func, share(w, workers)) {
            Ok(worker) => match made.push(worker) {
                Ok(()) => {}
                Err(fault) => return Err(fault),
            },
            Err(fault) => return Err(fault),
        }
    }
    Ok(made)
}

/// Makes room in each worker for so many packets more.
fn reserve_each(workers: &mut Seq<Worker>, n: usize) -> Result<(), AllocError>
    ensures same { AreSameButRoom workers.old workers.new }
    ensures room { OnOk result (HaveRoom n (length workers.new) workers.new) }
    ensures grows { (m : ℕ) → HaveRoom m (length workers.old) workers.old →
        HaveRoom m (length workers.new) workers.new }
{
    for w in 0..workers.len() {
        match workers.item_mut(w).reserve(n) {
            Ok(()) => {}
            Err(fault) => return Err(fault),
        }
    }
    Ok(())
}

/// Gives a packet to the worker of its queue.
fn give_to(
    worker: &mut Worker,
    queues: &mut Fifo<u32>,
    queue: u32,
    packet: &Packet,
) -> Result<(), AllocError>
    ensures given { OnOk result (GivenOne packet.now worker.old worker.new) }
    ensures queued { OnOk result (queues.new.items ≡ queues.old.items ++ queue ∷ []) }
    ensures err { OnErr result (SameButRoom worker.old worker.new) }
    ensures unqueued { OnErr result (queues.new.items ≡ queues.old.items) }
    ensures room { (n : ℕ) → n + 1 ≤ worker.old.room → n + 1 ≤ queues.old.room →
        IsOk result × (n ≤ worker.new.room) × (n ≤ queues.new.room) }
{
    worker.reserve(1)?;
    queues.reserve(1)?;
    worker.give(packet);
    queues.push(queue);
    Ok(())
}
