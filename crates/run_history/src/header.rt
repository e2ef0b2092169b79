//! The first line of a journal.
ghost use Rattle.std.specs.Prelude.{◌≡◌, ◌≤◌, MatchOption};
ghost use Rattle.run_history.specs.Headings.{Heading, IsHeading, least_workers};

use crate::line::Mode;
use nf_base::card::Card;
use nf_base::workers::Workers;
use std::marker::Model;

/// How a run's packets were handled, by how many workers, and what the network card has: 1 to 16
/// workers, and 2 at least where each queue has its own worker or workers share their tables.
#[derive(Debug, Drop)]
pub struct Header {
    mode: Mode,
    workers: Workers,
    card: Card,
}

impl Model for Header {
    ghost use Rattle.run_history.specs.Headings.{Heading, IsHeading};

    ghost Value = { Heading };

    ghost view = { λ h. record { mode = h.mode; workers = h.workers; card = h.card } };

    ghost invariant = { λ h.
        IsHeading (record { mode = h.mode; workers = h.workers; card = h.card }) };
}

/// The least number of workers of a mode.
fn least_workers(mode: Mode) -> u32
    ensures { result ≡ least_workers mode }
{
    match mode {
        Mode::One => 1,
        Mode::Shard | Mode::Lock => 2,
    }
}

impl Header {
    pub fn new(mode: Mode, workers: Workers, card: Card) -> Header
        requires { IsHeading (record { mode = mode; workers = workers; card = card }) }
        ensures { result ≡ record { mode = mode; workers = workers; card = card } }
    {
        Header {
            mode,
            workers,
            card,
        }
    }

    /// A mode and a number of workers that it may have, and a card; None where they are none.
    pub fn of(mode: Mode, workers: u32, card: Card) -> Option<Header>
        ensures { let heading : Heading = record { mode = mode; workers = workers; card = card } in
            MatchOption result (IsHeading heading → ⊥) (λ h. (h ≡ heading) × IsHeading heading) }
    {
        if least_workers(mode) <= workers && workers <= 16 {
            Some(Header::new(mode, Workers::new(workers), card))
        } else {
            None
        }
    }

    pub fn mode(&self) -> Mode
        ensures value { result ≡ self.now.mode }
        ensures heading { IsHeading self.now }
    {
        self.mode
    }

    pub fn workers(&self) -> Workers
        ensures { result ≡ self.now.workers }
    {
        self.workers
    }

    pub fn card(&self) -> Card
        ensures { result ≡ self.now.card }
    {
        self.card
    }
}
