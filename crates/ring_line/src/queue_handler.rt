//! By what a worker handles its packets.
ghost use Rattle.std.specs.Prelude.{◌≡◌, ◌<◌, ℕ, Bool, true, false, List, [], ◌∷◌, ◌++◌, length, Some, None, All};
ghost use Rattle.nf_base.specs.declared.packet.Packet as arrival;
ghost use Rattle.nf_base.specs.declared.state.State.{State};
ghost use Rattle.nf_base.specs.Functions.{function_of};
ghost use Rattle.nf_engine.specs.View.{fixed_of};
ghost use Rattle.shard_machine.specs.declared.event.Answer.{Answer};
ghost use Rattle.ring_line.specs.Packs.{Packed, answers_of};
ghost use Rattle.ring_line.specs.Handled.{CanServe, HandledBy, Handles, CameTo};
ghost use Rattle.ring_line.specs.QueueHandlers.{HandlerState, WentOn};
ghost use Rattle.ring_line.specs.FunctionRunners.{IsFunctionRunnerOf, come_to};

use crate::halt::Halt;
use crate::pack::Pack;
use crate::runner::FunctionRunner;
use nf_base::done::Action;
use nf_base::func::Func;
use nf_base::packet::Packet;
use nf_base::value::door_of;
use nf_base::worker_turns::Turns;
use std::marker::Model;
use std::sync::Arc;
use vig_tables::Tables;

/// A function and tables of a share of it, which handle the packets of one queue; and the packet at
/// which the share ended, if it did: no more packets are handled then.
#[derive(Drop)]
pub struct QueueHandler<G> {
    func: Func,
    tables: Tables,
    halt: Option<Halt>,
    /// The worker's, which is told with each packet.
    number: u32,
    turns: Arc<G>,
}

impl<G> Model for QueueHandler<G> {
    ghost use Rattle.std.specs.Prelude.{◌≡◌};
    ghost use Rattle.std.specs.Coded.{codes};
    ghost use Rattle.nf_base.specs.contracts.func.Func.{the_row};
    ghost use Rattle.ring_line.specs.QueueHandlers.{HandlerState};

    ghost Value = { HandlerState };

    ghost coded = { Prim.hlevel (codes, the_row.coded) };

    ghost view = { λ d. record { func = d.func; tables = d.tables; halt = d.halt } };

    ghost invariant = { λ d. d.tables.decls ≡ d.func.chains };
}

impl<G: Turns + Drop> QueueHandler<G> {
    pub fn new(func: Func, tables: Tables, number: u32, turns: Arc<G>) -> QueueHandler<G>
        requires { tables.decls ≡ func.chains }
        ensures { result ≡ record { func = func; tables = tables; halt = None } }
    {
        QueueHandler {
            func,
            tables,
            halt: None,
            number,
            turns,
        }
    }

    pub fn func(&self) -> &Func
        ensures { result.now ≡ self.now.func }
    {
        &self.func
    }

    pub fn tables(&self) -> &Tables
        ensures { result.now ≡ self.now.tables }
    {
        &self.tables
    }

    /// Where the share ended.
    pub fn halt(&self) -> Option<Halt>
        ensures { result ≡ self.now.halt }
    {
        self.halt
    }

    pub fn into_tables(self) -> Tables
        ensures tables { result ≡ self.tables }
        ensures decls { result.decls ≡ self.func.chains }
    {
        let QueueHandler {
            func: _,
            tables,
            halt: _,
            number: _,
            turns: _,
        } = self;
        tables
    }

    /// Whether the function has a handler for a packet.
    fn serves(&self, packet: &Packet) -> bool
        ensures served { result ≡ true → CanServe self.now.func packet.now }
        ensures all { CanServe self.now.func packet.now → result ≡ true }
    {
        if packet.id.port >= self.func.handlers.len() {
            return false;
        }
        match &packet.fields {
            Some(fields) => self
                .func
                .handler_at(door_of(packet.id.port, fields))
                .is_some(),
            None => true,
        }
    }

    /// Handles a packet: what the runner's context has then, with this action; or the chain whose share has
    /// no index left. A packet without a handler is skipped: none such is sent.
    fn handle(&mut self, runner: &mut FunctionRunner, packet: &Packet) -> Result<Action, u32>
        requires { IsFunctionRunnerOf runner.old self.old.func }
        ensures handles { CanServe self.old.func packet.now →
            let share = self.old.tables.share in let state = self.old.tables.state in
            HandledBy (function_of self.old.func) share state packet.now
            (come_to runner.new.context result) self.new.tables.state }
        ensures runner { runner.new.ready ≡ runner.old.ready }
        ensures func { self.new.func ≡ self.old.func }
        ensures fixed { fixed_of self.new.tables ≡ fixed_of self.old.tables }
        ensures halt { self.new.halt ≡ self.old.halt }
    {
        if self.serves(packet) {
            runner.handle(&mut self.tables, &self.func, packet)
        } else {
            runner.skip();
            Ok(Action::Skip)
        }
    }

    /// Answers the first packet of a pack that has no answer, and tells whether the share goes on.
    fn answer_next(&mut self, runner: &mut FunctionRunner, pack: &mut Pack) -> bool
        requires runner { IsFunctionRunnerOf runner.old self.old.func }
        requires left { length pack.old.answers < length pack.old.packets }
        requires none { pack.old.halt ≡ None }
        requires running { self.old.halt ≡ None }
        ensures went { WentOn result self.old pack.old self.new pack.new }
        ensures runner { runner.new.ready ≡ runner.old.ready }
        ensures func { self.new.func ≡ self.old.func }
        ensures fixed { fixed_of self.new.tables ≡ fixed_of self.old.tables }
    {
        let packet = pack.next();
        let id = packet.id;
        self.turns.before(self.number, id);
        match self.handle(runner, packet) {
            Ok(action) => {
                self.turns.after(self.number, id);
                pack.answer(action, runner.edits(), runner.picks());
                true
            }
            Err(chain) => {
                let packet = *pack.next();
                pack.end_at(chain, &packet);
                self.halt = pack.halt();
                false
            }
        }
    }

    /// Answers the packets of a pack in order, all of them or those before the share's end.
    pub fn answer(&mut self, runner: &mut FunctionRunner, pack: &mut Pack)
        requires runner { IsFunctionRunnerOf runner.old self.old.func }
        requires running { self.old.halt ≡ None }
        ensures runner { runner.new.ready ≡ runner.old.ready }
        ensures packets { pack.new.packets ≡ pack.old.packets }
        ensures halt { pack.new.halt ≡ self.new.halt }
        ensures func { self.new.func ≡ self.old.func }
        ensures fixed { fixed_of self.new.tables ≡ fixed_of self.old.tables }
        // Behind whatever it came to before.
        ensures came { (first : State) → (packets : List arrival.Packet) → (told : List Answer) →
            let f = function_of self.old.func in let share = self.old.tables.share in
            All (CanServe self.old.func) pack.old.packets →
            CameTo f share first packets told None self.old.tables.state →
            CameTo f share first (packets ++ pack.new.packets) (told ++ answers_of pack.new)
            self.new.halt self.new.tables.state }
    {
        pack.forget_answers();
        while pack.answered() < pack.len() {
            if !self.answer_next(runner, pack) {
                return;
            }
        }
    }
}
