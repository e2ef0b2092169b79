//! What a worker does in its thread: it answers packs until the end of work comes.
ghost use Rattle.std.specs.Prelude.{◌≡◌, Bool, None, List, [], ◌∷◌, ◌++◌};
ghost use Rattle.rtrb.specs.Ring.{sent, received, SameConsumer, SameProducer};
ghost use Rattle.ring_line.specs.Packs.{Packed};
ghost use Rattle.ring_line.specs.FunctionRunners.{IsFunctionRunnerOf};
ghost use Rattle.ring_line.specs.WorkerLoops.{Given, Told, AtWork, AtEnd, AtItem, Returned, begun};

use crate::bell::{Looks, give, take};
use crate::item::Item;
use crate::pack::Pack;
use crate::queue_handler::QueueHandler;
use crate::runner::FunctionRunner;
use crate::worker_ends::{RingEnds, WorkerResult};
use nf_base::worker_turns::Turns;
use std::alloc::Global;
use std::sync::{Arc, Wait};
use std::thread::Parker;

/// A queue handler between its two rings.
#[derive(Drop)]
pub struct WorkerLoop<G> {
    pub ends: RingEnds,
    pub queue_handler: QueueHandler<G>,
    /// Rung when something comes.
    pub bell: Arc<Parker>,
    /// To be rung when something went back.
    pub other: Arc<Parker>,
    /// How often it looks again before it sleeps.
    pub looks: Looks,
    pub alloc: Global,
}

impl<G: Turns + Drop> WorkerLoop<G> {
    /// Answers a pack and sends it back; one that comes behind the share's end is let go.
    fn serve<R: Wait>(&mut self, rt: &R, runner: &mut FunctionRunner, pack: Pack)
        requires { IsFunctionRunnerOf runner.old self.old.queue_handler.func }
        ensures runner { runner.new.ready ≡ runner.old.ready }
        ensures from { self.new.ends.from ≡ self.old.ends.from }
        ensures to { SameProducer self.old.ends.to self.new.ends.to }
        ensures func { self.new.queue_handler.func ≡ self.old.queue_handler.func }
        ensures told { (given : Given) → (packs : List Packed) →
            Told given packs (sent self.old.ends.to) self.old.queue_handler →
            Told given (packs ++ pack ∷ []) (sent self.new.ends.to) self.new.queue_handler }
    {
        match self.queue_handler.halt() {
            Some(_) => {}
            None => {
                let mut pack = pack;
                self.queue_handler.answer(runner, &mut pack);
                give(rt, &mut self.ends.to, pack, &*self.other);
            }
        }
    }

    /// Waits for what comes next, and tells whether it was not the end of work.
    pub fn step<R: Wait>(&mut self, rt: &R, runner: &mut FunctionRunner) -> bool
        requires { IsFunctionRunnerOf runner.old self.old.queue_handler.func }
        ensures runner { IsFunctionRunnerOf runner.new self.new.queue_handler.func }
        ensures came { (given : Given) → AtWork given self.old.ends self.old.queue_handler →
            AtItem result given self.new.ends self.new.queue_handler }
    {
        match take(rt, &mut self.ends.from, &*self.bell, &mut self.looks) {
            Item::Work(pack) => {
                self.serve(rt, runner, pack);
                true
            }
            Item::End => false,
        }
    }

    fn close(self) -> WorkerResult
        ensures { (given : Given) → AtEnd given self.ends self.queue_handler →
            Returned given result }
    {
        let WorkerLoop {
            ends,
            queue_handler,
            bell: _,
            other: _,
            looks: _,
            alloc: _,
        } = self;
        let halt = queue_handler.halt();
        WorkerResult {
            ends,
            tables: queue_handler.into_tables(),
            halt,
        }
    }

    /// Answers each pack, until the end of work comes.
    pub fn work<R: Wait>(self, rt: &R, runner: FunctionRunner) -> WorkerResult
        requires { IsFunctionRunnerOf runner self.queue_handler.func }
        ensures { (given : Given) → AtWork given self.ends self.queue_handler →
            Returned given result }
    {
        let mut worker_loop = self;
        let mut runner = runner;
        for _ in rt.forever() {
            if !worker_loop.step(rt, &mut runner) {
                return worker_loop.close();
            }
        }
        unreachable!()
    }

    /// The same from the beginning on, by a function made ready where there is memory for that.
    pub fn run<R: Wait>(self, rt: &R) -> WorkerResult
        requires received { received self.ends.from ≡ [] }
        requires sent { sent self.ends.to ≡ [] }
        requires running { self.queue_handler.halt ≡ None }
        ensures { Returned (begun self.ends self.queue_handler) result }
    {
        match self.queue_handler.func().copy(self.alloc) {
            Ok(func) => {
                let runner = FunctionRunner::of(self.alloc, &func);
                self.work(rt, runner)
            }
            Err(_) => self.work(rt, FunctionRunner::by_text()),
        }
    }
}
