//! A queue handler's packets, worked when one would wait for them.
ghost use Rattle.std.specs.Prelude.{◌≡◌, ◌≤◌, ◌<◌, ◌+◌, true, None, List, [], ◌∷◌, ◌++◌, length, All};
ghost use Rattle.nf_base.specs.declared.func.Func.{Func};
ghost use Rattle.nf_base.specs.declared.packet.Packet as arrival;
ghost use Rattle.nf_base.specs.declared.share.Share.{Share};
ghost use Rattle.nf_base.specs.declared.state.State.{State};
ghost use Rattle.nf_base.specs.Functions.{function_of};
ghost use Rattle.vig_tables.specs.TablesState.{opened_tables};
ghost use Rattle.shard_machine.specs.declared.event.Answer as answer;
ghost use Rattle.short_answers.specs.Answers.{done_told};
ghost use Rattle.ring_line.specs.Packs.{empty_pack};
ghost use Rattle.ring_line.specs.Handled.{CanServe, CameTo};
ghost use Rattle.ring_line.specs.Handed.{IsNext, Finishes};
ghost use Rattle.ring_line.specs.InlineWorkers.{InlineWorkerStands, InlineWorkerHasAnswer, InlineWorkerFirstAnswer, InlineWorkerHalted, CameOn};

use super::InlineWorker;
use crate::pack::{AnswerRef, IN_FLIGHT, Pack};
use crate::queue_handler::QueueHandler;
use crate::runner::FunctionRunner;
use crate::thread_worker::Next;
use nf_base::packet::Packet;
use nf_base::worker_turns::Turns;
use std::mem;
use vig_tables::Tables;

impl<G: Turns + Drop> InlineWorker<G> {
    /// A worker with its queue handler, to which nothing was sent.
    pub(crate) fn new(
        queue_handler: QueueHandler<G>,
        filling: Pack,
        current: Pack,
    ) -> InlineWorker<G>
        requires filling { filling ≡ empty_pack }
        requires current { current ≡ empty_pack }
        requires running { queue_handler.halt ≡ None }
        ensures stands { (share : Share) → queue_handler.tables ≡ opened_tables (function_of queue_handler.func) share →
            InlineWorkerStands result queue_handler.func share [] [] }
        ensures none { result.in_flight ≡ 0 }
    {
        InlineWorker {
            queue_handler,
            filling,
            current,
            at: 0,
            in_flight: 0,
        }
    }

    pub(crate) fn has_room(&self) -> bool
        ensures yes { result ≡ true → self.now.in_flight < 64 }
        ensures all { self.now.in_flight < 64 → result ≡ true }
    {
        self.in_flight < IN_FLIGHT
    }

    /// A packet waits to be worked.
    pub(crate) fn send(&mut self, packet: &Packet)
        requires { self.old.in_flight < 64 }
        ensures stands { (func : Func) → (share : Share) → (packets : List arrival.Packet) →
            (answers : List answer.Answer) →
            InlineWorkerStands self.old func share packets answers →
            CanServe func packet.now →
            InlineWorkerStands self.new func share (packets ++ packet.now ∷ []) answers }
        ensures in_flight { self.new.in_flight ≡ self.old.in_flight + 1 }
    {
        self.in_flight += 1;
        self.filling.push(packet);
    }

    /// Whether an answer of the packets that were worked last lies ready, or the share ends behind all of
    /// them.
    pub(crate) fn next(&self) -> Next
        ensures { IsNext result (InlineWorkerHasAnswer self.now) (InlineWorkerHalted self.now) }
    {
        if self.at < self.current.answered() {
            if self.filling.len() < self.in_flight {
                Next::Ready
            } else {
                Next::Nothing
            }
        } else {
            match self.current.halt() {
                Some(halt) => Next::Halted(halt),
                None => Next::Nothing,
            }
        }
    }

    /// Whether an answer of the packets that were worked last lies ready.
    #[inline]
    pub(crate) fn is_ready(&self) -> bool
        ensures yes { result ≡ true → InlineWorkerHasAnswer self.now }
        ensures all { InlineWorkerHasAnswer self.now → result ≡ true }
    {
        if self.at < self.current.answered() {
            self.filling.len() < self.in_flight
        } else {
            false
        }
    }

    /// The answer that lies ready.
    #[inline]
    pub(crate) fn answer(&self) -> AnswerRef<'_>
        requires { InlineWorkerHasAnswer self.now }
        ensures { InlineWorkerFirstAnswer self.now
            (record { packet = result.packet.now; done = done_told result.told }) }
    {
        self.current.answer_at(self.at)
    }

    /// Goes on behind the answer that lies ready: it is collected.
    pub(crate) fn pass(&mut self)
        requires { InlineWorkerHasAnswer self.old }
        ensures stands { (func : Func) → (share : Share) → (packets : List arrival.Packet) →
            (answers : List answer.Answer) → (one : answer.Answer) →
            InlineWorkerStands self.old func share packets answers →
            InlineWorkerFirstAnswer self.old one →
            InlineWorkerStands self.new func share packets (answers ++ one ∷ []) }
        ensures in_flight { self.old.in_flight ≡ self.new.in_flight + 1 }
    {
        prove!(self.at < self.current.answered());
        self.at += 1;
        self.in_flight -= 1;
    }

    /// Works the packets that wait, where all answers of the last ones are collected and the share goes
    /// on.
    pub(crate) fn turn(&mut self)
        ensures stands { (func : Func) → (share : Share) → (packets : List arrival.Packet) →
            (answers : List answer.Answer) →
            InlineWorkerStands self.old func share packets answers →
            InlineWorkerStands self.new func share packets answers }
        ensures in_flight { self.new.in_flight ≡ self.old.in_flight }
    {
        if self.at < self.current.answered() {
            return;
        }
        match self.queue_handler.halt() {
            Some(_) => {}
            None => self.turn_over(),
        }
    }

    fn turn_over(&mut self)
        requires past { length self.old.current.answers ≤ self.old.at }
        requires running { self.old.queue_handler.halt ≡ None }
        ensures stands { (func : Func) → (share : Share) → (packets : List arrival.Packet) →
            (answers : List answer.Answer) →
            InlineWorkerStands self.old func share packets answers →
            InlineWorkerStands self.new func share packets answers }
        ensures in_flight { self.new.in_flight ≡ self.old.in_flight }
    {
        mem::swap(&mut self.filling, &mut self.current);
        self.filling.clear();
        self.at = 0;
        self.queue_handler
            .answer(&mut FunctionRunner::by_text(), &mut self.current);
    }

    /// Works the packets that wait, and hands the tables out.
    pub(crate) fn finish(self) -> Tables
        ensures { (func : Func) → (share : Share) → (packets : List arrival.Packet) →
            (answers : List answer.Answer) → InlineWorkerStands self func share packets answers →
            Finishes (InlineWorkerHalted self) (function_of func) share packets answers result }
    {
        let InlineWorker {
            queue_handler,
            filling,
            current: _,
            at: _,
            in_flight: _,
        } = self;
        match queue_handler.halt() {
            Some(_) => queue_handler.into_tables(),
            None => work_rest(queue_handler, filling),
        }
    }
}

/// Works packets behind those that a queue handler has worked, and hands its tables out.
fn work_rest<G: Turns + Drop>(queue_handler: QueueHandler<G>, pack: Pack) -> Tables
    requires { queue_handler.halt ≡ None }
    ensures decls { result.decls ≡ queue_handler.func.chains }
    ensures share { result.share ≡ queue_handler.tables.share }
    ensures came { (first : State) → (packets : List arrival.Packet) → (told : List answer.Answer) →
        let f = function_of queue_handler.func in let share = queue_handler.tables.share in
        All (CanServe queue_handler.func) pack.packets →
        CameTo f share first packets told None queue_handler.tables.state →
        CameOn f share first (packets ++ pack.packets) told result.state }
{
    let mut queue_handler = queue_handler;
    let mut pack = pack;
    queue_handler.answer(&mut FunctionRunner::by_text(), &mut pack);
    queue_handler.into_tables()
}
