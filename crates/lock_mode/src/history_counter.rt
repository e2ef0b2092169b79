//! The one history of all seats, and beginnings of it that were seen. It has no bytes but a count.
ghost use Rattle.std.specs.Prelude.{◌≡◌, ◌+◌, ◌==◌, ◌<◌, ◌≤◌, ◌^◌, ◌++◌, ◌∷◌, ◌⊎◌, [], length, MatchBool};
ghost use mathlib.Core.List.{IsPrefix};
ghost use Rattle.lock_core.specs.Histories.{AreNumbered};
ghost use Rattle.lock_mode.specs.Books.{IsLonger, MayFollow, head_of};

use lock_core::Entry;
use logbook::{Gain, Offer, Plain, Play, Rule, Seen, Start, Word};
use std::marker::{Brand, Model, PhantomData};

/// The rule of the book: a word counts its entries, and each seat's are numbered from 0.
pub struct CounterRule;

impl Rule<Entry, u64> for CounterRule {
    ghost use Rattle.std.specs.Prelude.{[]};
    ghost use base.Fml.{ftrue};
    ghost use Rattle.lock_mode.specs.Books.{IsKept};

    ghost holds = { λ cells log. IsKept cells log };

    ghost first = { [] };

    ghost hinted = { λ n log. Unit {0} };

    ghost shows = { λ log. [] };

    ghost keeps = { λ names log. ftrue };

    ghost moves = { λ ask before after answer. Unit {0} };
}

/// Callers trade nothing.
pub struct Nothing;

impl Gain<Entry, u64> for Nothing {
    ghost use base.Fml.{ftrue};

    ghost after = { λ names about answer. ftrue };
}

/// A step that adds an entry.
pub struct Add;

impl Play<Entry, u64> for Add {
    ghost use Rattle.lock_mode.specs.Books.{Adds};

    ghost then = { Adds };
}

impl Plain<Entry, Entry, u64> for Add {
    ghost use Rattle.std.specs.Prelude.{None};

    ghost ask = { λ entry. entry };

    ghost state = { λ entry. None };
}

/// Which history it is, which function it is run on, and by how many seats. Each call of a program
/// picks them.
pub trait Naming {
    ghost use Rattle.logbook.specs.Pages.{Book};
    ghost use Rattle.nf_base.specs.Text.{Function};
    ghost use Rattle.std.specs.Prelude.{ℕ};

    ghost book: { Book };

    ghost function: { Function };

    /// How many seats there are.
    ghost seats: { ℕ };
}

impl Naming for Brand {
    ghost use Rattle.std.specs.Prelude.{[]};

    ghost book = { record { number = 0; log_name = 0; cells_name = 0 } };

    ghost function = { record { name = []; chains = []; arrays = []; objects = []; handlers = [] } };

    ghost seats = { 0 };
}

/// A counter of an empty history, which has no name yet.
pub struct NewCounter {
    head: Word<Entry, u64, CounterRule>,
    seen: Seen<Entry, u64, CounterRule>,
    pub ghost empty: { seen.log ≡ [] },
    pub ghost head_is: { head ≡ head_of seen.book },
}

impl NewCounter {
    /// A counter of which there is one.
    pub fn new() -> NewCounter
        ensures { result.seen.log ≡ [] }
    {
        let (seen, mut first, _second) = Seen::open(Start::alone(), 0, 0);
        NewCounter {
            head: Word::tracked(0, &mut first),
            seen,
        }
    }

    /// The counter under a name, and the beginning in which nothing has been done.
    pub fn named<J: Naming>(self) -> (HistoryCounter<J>, SeenHistory<J>)
        requires { self.seen.book ≡ J.book }
        ensures { result.1 ≡ [] }
    {
        let NewCounter { head, seen } = self;
        (
            HistoryCounter {
                head,
                of: PhantomData,
            },
            SeenHistory {
                entries: 0,
                seen,
                of: PhantomData,
            },
        )
    }
}

/// The word that all threads share: how many entries the history has.
#[derive(Drop)]
pub struct HistoryCounter<J: Naming> {
    head: Word<Entry, u64, CounterRule>,
    of: PhantomData<J>,
    ghost head_is: { head ≡ head_of J.book },
}

/// A beginning of the history that was seen. Contracts see it as its entries.
#[derive(Drop)]
pub struct SeenHistory<J: Naming> {
    entries: u64,
    seen: Seen<Entry, u64, CounterRule>,
    of: PhantomData<J>,
}

impl<J: Naming> Model for SeenHistory<J> {
    ghost use Rattle.std.specs.Prelude.{◌≡◌, List, length};
    ghost use Rattle.lock_core.specs.declared.call.Entry.{Entry};
    ghost use Rattle.lock_core.specs.Histories.{AreNumbered};

    ghost Value = { List Entry };

    ghost view = { λ f. f.seen.log };

    ghost invariant = { λ f. (f.entries ≡ length f.seen.log) × (f.seen.book ≡ J.book) × AreNumbered f.seen.log };
}

impl<J: Naming> SeenHistory<J> {
    /// How many entries it has.
    pub fn len(&self) -> u64
        ensures length { result ≡ length self.now }
        ensures numbered { AreNumbered self.now }
    {
        self.entries
    }

    /// The same once more.
    pub fn again(&self) -> SeenHistory<J>
        ensures { result ≡ self.now }
    {
        SeenHistory {
            entries: self.entries,
            seen: self.seen.again(),
            of: PhantomData,
        }
    }

    /// The longer of two beginnings, which begins with the other.
    pub fn longer(&self, other: &SeenHistory<J>) -> SeenHistory<J>
        ensures one { (result ≡ self.now) ⊎ (result ≡ other.now) }
        ensures this { IsPrefix self.now result }
        ensures that { IsPrefix other.now result }
    {
        let mut both = self.seen.again();
        both.learn(&other.seen);
        if self.entries < other.entries {
            other.again()
        } else {
            self.again()
        }
    }

    /// Adds an entry to all that was seen, and says whether it did. It did not where the history is
    /// longer.
    pub fn add(&mut self, book: &HistoryCounter<J>, entry: &Entry) -> bool
        requires room { length self.old < 2 ^ 62 }
        requires next { MayFollow self.old entry.now }
        ensures { MatchBool result (self.new ≡ self.old ++ entry.now ∷ []) (IsLonger self.old self.new) }
    {
        let mut offer: Offer<Entry, u64, CounterRule, Nothing> = self
            .seen
            .plain::<Nothing, Entry, Add>(entry);
        let mut pen = self.seen.no_pen();
        let entries = self.entries;
        let found = book
            .head
            .compare_exchange::<Add, Nothing>(
                entries,
                entries + 1,
                &mut self.seen,
                &mut offer,
                &mut pen,
            );
        self.entries = if found == entries { entries + 1 } else { found };
        found == entries
    }
}
