//! The judge of a journal's lines.
ghost use Rattle.std.specs.Prelude.{◌≡◌, ◌≢◌, ◌<◌, ◌↔◌, ℕ, length, IsTrue, IfOk, IfSome, IfNone};
ghost use Rattle.nf_base.specs.Doors.{IsServed};
ghost use Rattle.nf_base.specs.Functions.{function_of};
ghost use Rattle.nf_base.specs.Step.{StepResult};
ghost use Rattle.vig_tables.specs.TablesState.{opened_tables};
ghost use Rattle.run_history.specs.declared.line.Mode.TheVariants.{Shard};
ghost use Rattle.nf_engine.specs.View.{fixed_of};
ghost use Rattle.shard_laws.specs.Rule.{AreOfQueue};
ghost use Rattle.journal_check.specs.Judging.{Steps, line_of};
ghost use Rattle.journal_check.specs.Telling.{Replays, Goes};

use crate::told::{is_same, told, worker_by};
use nf_base::done::{Action, Done};
use nf_base::func::Func;
use nf_base::packet::Packet;
use nf_base::picks::Picks;
use nf_base::share::Share;
use nf_base::state::State;
use nf_engine::{replay, replay_granted};
use run_history::header::Header;
use run_history::line::{JournalLine, Mode};
use std::alloc::{AllocError, Global};
use std::marker::Model;
use vig_tables::Tables;

// Whether indices are a queue's own, of so many.
fn are_of_queue(picks: &Picks, count: u32, queue: u32) -> bool
    requires { 0 < count }
    ensures { IsTrue result ↔ AreOfQueue count queue picks.now }
{
    picks.as_slice().iter().all(|i| *i % count == queue)
}

// Handles a packet of a queue with given choices, where no `new` is to answer that its chain is full;
// None where one does, or where the choices are not legal or not the queue's own.
fn replayed_in_share(
    tables: &mut Tables,
    header: &Header,
    func: &Func,
    packet: &Packet,
    queue: u32,
    picks: &Picks,
) -> Option<Done>
    requires mode { header.now.mode ≡ Shard }
    requires of_func { tables.old.decls ≡ func.now.chains }
    requires whole { tables.old.share.of ≡ 1 }
    requires port { packet.now.id.port < length func.now.handlers }
    requires served { IsServed (function_of func.now) packet.now }
    ensures replays { Replays (function_of func.now) header.now queue tables.old.state packet.now picks.now
        tables.new.state result }
    ensures stays { fixed_of tables.new ≡ fixed_of tables.old }
{
    if are_of_queue(picks, header.workers().get(), queue) {
        replay_granted(tables, func, packet, picks)
    } else {
        None
    }
}

// Handles a packet with given choices; None where it has no step with them, or what the mode asks for
// doesn't hold.
fn replayed(
    tables: &mut Tables,
    header: &Header,
    func: &Func,
    packet: &Packet,
    queue: u32,
    picks: &Picks,
) -> Option<Done>
    requires of_func { tables.old.decls ≡ func.now.chains }
    requires whole { tables.old.share.of ≡ 1 }
    requires port { packet.now.id.port < length func.now.handlers }
    requires served { IsServed (function_of func.now) packet.now }
    ensures replays { Replays (function_of func.now) header.now queue tables.old.state packet.now picks.now
        tables.new.state result }
    ensures stays { fixed_of tables.new ≡ fixed_of tables.old }
{
    match header.mode() {
        Mode::One => replay(tables, func, packet, picks),
        Mode::Shard => replayed_in_share(tables, header, func, packet, queue, picks),
        Mode::Lock => replay(tables, func, packet, picks),
    }
}

// An answer that has this action.
fn going(done: Option<Done>, action: Action) -> Option<Done>
    ensures { Goes done action result }
{
    match done {
        Some(done) => if is_same(done.action, action) {
            Some(done)
        } else {
            None
        },
        None => None,
    }
}

/// The lines of a journal so far: the tables that their packets were handled on, with the choices that
/// the lines tell.
#[derive(Drop)]
pub struct Judge {
    tables: Tables,
    header: Header,
}

impl Model for Judge {
    ghost use Rattle.std.specs.Prelude.{◌≡◌};
    ghost use Rattle.journal_check.specs.Judging.{Judging};

    ghost Value = { Judging };

    ghost view = { λ j. record { tables = j.tables; heading = j.header } };

    ghost invariant = { λ j. j.tables.share.of ≡ 1 };
}

impl Judge {
    /// A journal of which the first line was read.
    pub fn new(alloc: Global, func: &Func, header: Header) -> Result<Judge, AllocError>
        ensures tables { IfOk result (λ j. j.tables
            ≡ opened_tables (function_of func.now) j.tables.share) }
        ensures heading { IfOk result (λ j. j.heading ≡ header) }
    {
        let tables = Tables::new(alloc, func, Share { queue: 0, of: 1 })?;
        Ok(Judge { tables, header })
    }

    /// Judges the next line, which has to be one of this packet, of which the queue is told; None
    /// where it isn't, where it tells of another worker or action, where its choices are not legal, or
    /// in mode `shard` not the queue's own, and where some `new` answers there that its chain is full.
    ///
    /// In modes `one` and `shard` the packet is the next one in capture order, in mode `lock` the next
    /// one of the port that the line tells; only mode `shard` looks at the queue. After None the judge
    /// is given up.
    pub fn judge(
        &mut self,
        func: &Func,
        packet: &Packet,
        queue: u32,
        line: &JournalLine,
    ) -> Option<Done>
        requires of_func { self.old.tables.decls ≡ func.now.chains }
        requires port { packet.now.id.port < length func.now.handlers }
        requires served { IsServed (function_of func.now) packet.now }
        // It is the packet's step, from the state that the lines before left.
        ensures steps { IfSome result (λ done. Steps (function_of func.now) self.old.heading queue
            self.old.tables.state packet.now
            (record { state = self.new.tables.state; done = done })) }
        ensures tells { IfSome result (λ done. line.now
            ≡ line_of self.old.heading queue (record { packet = packet.now; done = done })) }
        // It has no step with this line.
        ensures none { IfNone result ((next : StepResult) →
            Steps (function_of func.now) self.old.heading queue self.old.tables.state packet.now next →
            line.now ≢ line_of self.old.heading queue (record { packet = packet.now; done = next.done })) }
        ensures same { fixed_of self.new.tables ≡ fixed_of self.old.tables }
        ensures same_heading { self.new.heading ≡ self.old.heading }
    {
        let by = worker_by(&self.header, queue, packet.id.port);
        let Some((action, picks)) = told(line, packet.id, by) else {
            return None;
        };
        let done = replayed(&mut self.tables, &self.header, func, packet, queue, picks);
        going(done, action)
    }

    /// The state that the packets of all lines left.
    pub fn state(&self, alloc: Global) -> Result<State, AllocError>
        ensures { IfOk result (λ state. state ≡ self.now.tables.state) }
    {
        self.tables.state(alloc)
    }
}
