// One worker.
ghost use Rattle.std.specs.Prelude.{◌≡◌, ◌≤◌, ◌<◌, ◌+◌, ℕ, suc, List, [], ◌∷◌, ◌++◌, length, None, IfOk, OnOk, IsOk, IfSome, IfNone, All, option_to_list};
ghost use Rattle.nf_base.specs.Doors.{IsServed};
ghost use Rattle.nf_base.specs.Functions.{function_of};
ghost use Rattle.nf_engine.specs.View.{fixed_of};
ghost use Rattle.shard_core.specs.Held.{Held, WorkedTimes, IsNew, SameButRoom, first_id, StandsFor, StartsWith, HeldWorks, HeldHandles, WorksOn, IsStopIn, IsNoStop};
ghost use Rattle.shard_machine.specs.Machine as machine;
ghost use Rattle.shard_machine.specs.declared.event.Answer as answer;

use crate::collected::Stop;
use crate::fifo::Fifo;
use nf_base::func::Func;
use nf_base::packet::{Packet, PacketId};
use nf_base::share::Share;
use nf_engine::{Handled, handle};
use shard_machine::{Answer, Worked};
use std::alloc::{AllocError, Global};
use std::marker::Model;
use vig_tables::Tables;

/// A worker: tables of its own share, the packets of its queue that wait for it, and its answers
/// that were not taken yet. Once it has met its share stop it works no more.
#[derive(Drop)]
pub struct Worker {
    tables: Tables,
    waiting: Fifo<Packet>,
    answers: Fifo<Answer>,
    /// The number of the chain.
    stopped: Option<u32>,
}

impl Model for Worker {
    ghost use Rattle.std.specs.Prelude.{◌≤◌, length};
    ghost use Rattle.shard_core.specs.Held.{Held, held_of};

    ghost Value = { Held };

    ghost view = { λ a. held_of a.tables a.waiting a.answers a.stopped };

    ghost invariant = { λ a. length a.waiting.items ≤ a.answers.room };
}

impl Worker {
    /// A worker with tables of a function for this share, before its first packet.
    pub fn new(alloc: Global, func: &Func, share: Share) -> Result<Worker, AllocError>
        ensures { IfOk result (IsNew (function_of func.now) share) }
    {
        let tables = Tables::new(alloc, func, share)?;
        Ok(Worker {
            tables,
            waiting: Fifo::new(alloc),
            answers: Fifo::new(alloc),
            stopped: None,
        })
    }

    /// The first packet that waits, and None where none does.
    pub fn waiting(&self) -> Option<PacketId>
        ensures { result ≡ first_id self.now.waiting }
    {
        match self.waiting.first() {
            Some(packet) => Some(packet.id),
            None => None,
        }
    }

    /// Makes room for so many more packets and their answers.
    pub fn reserve(&mut self, n: usize) -> Result<(), AllocError>
        ensures same { SameButRoom self.old self.new }
        ensures room { OnOk result (n ≤ self.new.room) }
        ensures grows { self.old.room ≤ self.new.room }
        ensures succeeds { n ≤ self.old.room → IsOk result }
    {
        reserve_behind(&mut self.answers, self.waiting.len(), n)?;
        self.waiting.reserve(n)
    }

    /// A packet more waits.
    pub fn give(&mut self, packet: &Packet)
        requires { 0 < self.old.room }
        ensures waiting { self.new.waiting ≡ self.old.waiting ++ packet.now ∷ [] }
        ensures rest { let waiting = self.new.waiting in let room = self.new.room in
            self.new ≡ record self.old { waiting = waiting; room = room } }
        ensures room { self.new.room + 1 ≡ self.old.room }
    {
        let Packet { id, time, fields } = *packet;
        self.waiting.push(Packet { id, time, fields });
    }

    /// Takes the first of the answers that were not taken yet.
    pub fn take(&mut self) -> Option<Answer>
        ensures answers { self.old.answers ≡ option_to_list result ++ self.new.answers }
        ensures none { IfNone result (self.old.answers ≡ []) }
        ensures rest { let answers = self.new.answers in let room = self.new.room in
            self.new ≡ record self.old { answers = answers; room = room } }
        ensures room { self.old.room ≤ self.new.room }
    {
        if self.answers.is_empty() {
            None
        } else {
            Some(self.answers.pop())
        }
    }

    /// Works the first packet that waits.
    ///
    /// `Stopped` comes exactly where the worker has met its share stop, now or before; else `Idle`
    /// exactly where no packet waits. It takes no memory.
    pub fn work(&mut self, func: &Func) -> Worked
        requires of_func { self.old.tables.decls ≡ func.now.chains }
        requires ports { All (λ p. p.id.port < length func.now.handlers) self.old.waiting }
        requires served { All (IsServed (function_of func.now)) self.old.waiting }
        ensures works { HeldWorks (function_of func.now) result self.old self.new }
        // Whatever packets it was given and whatever answers were taken of it.
        ensures stands { (worker : machine.Worker) → (taken : List answer.Answer) →
            let share = self.old.tables.share in
            StandsFor self.old worker taken →
            WorksOn (function_of func.now) result share worker self.new taken }
        ensures fixed { fixed_of self.new.tables ≡ fixed_of self.old.tables }
        ensures room { self.old.room ≤ self.new.room }
        // One call more, behind so many before it.
        ensures times { (n : ℕ) → (first : Held) →
            WorkedTimes (function_of func.now) first n self.old →
            WorkedTimes (function_of func.now) first (suc n) self.new }
    {
        self.work_once(func)
    }

    fn work_once(&mut self, func: &Func) -> Worked
        requires of_func { self.old.tables.decls ≡ func.now.chains }
        requires ports { All (λ p. p.id.port < length func.now.handlers) self.old.waiting }
        requires served { All (IsServed (function_of func.now)) self.old.waiting }
        ensures works { HeldWorks (function_of func.now) result self.old self.new }
        ensures fixed { fixed_of self.new.tables ≡ fixed_of self.old.tables }
        ensures room { self.old.room ≤ self.new.room }
    {
        match self.stopped {
            Some(_) => Worked::Stopped,
            None => self.work_next(func),
        }
    }

    /// Works the first packet that waits, where no share stop was met.
    fn work_next(&mut self, func: &Func) -> Worked
        requires of_func { self.old.tables.decls ≡ func.now.chains }
        requires ports { All (λ p. p.id.port < length func.now.handlers) self.old.waiting }
        requires served { All (IsServed (function_of func.now)) self.old.waiting }
        requires running { self.old.stopped ≡ None }
        ensures works { HeldWorks (function_of func.now) result self.old self.new }
        ensures fixed { fixed_of self.new.tables ≡ fixed_of self.old.tables }
        ensures room { self.old.room ≤ self.new.room }
    {
        match self.waiting.first() {
            Some(packet) => {
                let packet = *packet;
                self.work_on(func, packet)
            }
            None => Worked::Idle,
        }
    }

    /// Works a packet that waits.
    fn work_on(&mut self, func: &Func, packet: Packet) -> Worked
        requires of_func { self.old.tables.decls ≡ func.now.chains }
        requires port { packet.id.port < length func.now.handlers }
        requires served { IsServed (function_of func.now) packet }
        requires running { self.old.stopped ≡ None }
        requires first { StartsWith packet self.old.waiting }
        ensures works { HeldWorks (function_of func.now) result self.old self.new }
        ensures fixed { fixed_of self.new.tables ≡ fixed_of self.old.tables }
        ensures room { self.old.room ≤ self.new.room }
    {
        match handle(&mut self.tables, func, &packet) {
            Handled::Done(done) => {
                self.waiting.pop();
                self.answers.push(Answer { packet, done });
                Worked::Done
            }
            Handled::ShareFull(chain) => {
                self.stopped = Some(chain);
                Worked::Stopped
            }
        }
    }

    /// Handles a packet at once, before those that wait.
    ///
    /// At `ShareFull` the tables are given up, and the worker has met its share stop.
    pub fn handle(&mut self, func: &Func, packet: &Packet) -> Handled
        requires of_func { self.old.tables.decls ≡ func.now.chains }
        requires port { packet.now.id.port < length func.now.handlers }
        requires served { IsServed (function_of func.now) packet.now }
        requires running { self.old.stopped ≡ None }
        ensures handles { HeldHandles (function_of func.now) packet.now result self.old self.new }
        ensures fixed { fixed_of self.new.tables ≡ fixed_of self.old.tables }
        ensures rest { let tables = self.new.tables in let stopped = self.new.stopped in
            self.new ≡ record self.old { tables = tables; stopped = stopped } }
    {
        let handled = handle(&mut self.tables, func, packet);
        if let Handled::ShareFull(chain) = &handled {
            self.stopped = Some(*chain);
        }
        handled
    }

    /// The packet at which the worker stopped, where all its answers were taken: of this queue.
    pub fn stop(&self, queue: u32) -> Option<Stop>
        ensures some { IfSome result (IsStopIn self.now queue) }
        ensures none { IfNone result (IsNoStop self.now) }
    {
        if self.answers.is_empty() {
            self.stop_behind(queue)
        } else {
            None
        }
    }

    fn stop_behind(&self, queue: u32) -> Option<Stop>
        requires { self.now.answers ≡ [] }
        ensures some { IfSome result (IsStopIn self.now queue) }
        ensures none { IfNone result (IsNoStop self.now) }
    {
        match (self.stopped, self.waiting.first()) {
            (Some(chain), Some(packet)) => Some(Stop {
                chain,
                queue,
                packet: *packet,
            }),
            _ => None,
        }
    }

    /// The tables, where no share stop was met.
    pub fn into_tables(self) -> Tables
        requires { self.stopped ≡ None }
        ensures { result ≡ self.tables }
    {
        self.take_tables()
    }

    /// The tables, also where a share stop was met.
    pub(crate) fn take_tables(self) -> Tables
        ensures { result ≡ self.tables }
    {
        let Worker {
            tables,
            waiting: _,
            answers: _,
            stopped: _,
        } = self;
        tables
    }
}

/// Makes room for as many answers as packets wait, and for so many more.
fn reserve_behind(answers: &mut Fifo<Answer>, waiting: usize, n: usize) -> Result<(), AllocError>
    requires { waiting ≤ answers.old.room }
    ensures items { answers.new.items ≡ answers.old.items }
    ensures room { OnOk result (waiting + n ≤ answers.new.room) }
    ensures grows { answers.old.room ≤ answers.new.room }
    ensures succeeds { waiting + n ≤ answers.old.room → IsOk result }
{
    if n <= answers.room() - waiting {
        return Ok(());
    }
    match waiting.checked_add(n) {
        Some(all) => answers.reserve(all),
        None => Err(AllocError),
    }
}
