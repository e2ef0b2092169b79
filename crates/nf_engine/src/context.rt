// A handler in its context, beside the tables.
ghost use Rattle.std.specs.Prelude.{◌≡◌, [], false};
ghost use Rattle.nf_base.specs.Step.{no_edits};
ghost use Rattle.nf_engine.specs.Handlings.{done_of};

use crate::kept_edits::KeptEdits;
use crate::vars::Vars;
use nf_base::done::{Action, Done, Edits};
use nf_base::picks::Picks;

/// A handler in its context, beside the tables. A worker keeps it from packet to packet, and it is
/// emptied by its lengths: what a packet left is never set to zero.
#[derive(Drop)]
pub struct Context {
    pub(crate) vars: Vars,
    pub(crate) edits: KeptEdits,
    /// The indices of the entries made so far.
    pub(crate) picks: Picks,
}

impl Context {
    /// What a handler begins with.
    pub fn new() -> Context
        ensures { result ≡ record { vars = []; edits = no_edits; picks = [] } }
    {
        Context {
            vars: Vars::new(),
            edits: KeptEdits::new(),
            picks: Picks::new(),
        }
    }

    /// What a handler begins with once more.
    #[inline]
    pub(crate) fn clear(&mut self)
        ensures { self.new ≡ record { vars = []; edits = no_edits; picks = [] } }
    {
        self.vars.clear();
        self.edits.clear();
        if self.picks.len() > 0 {
            self.picks = Picks::new();
        }
    }

    /// The values that the handler gave to fields of the outgoing frame.
    #[inline]
    pub fn edits(&self) -> &Edits
        ensures { result.now ≡ self.now.edits }
    {
        self.edits.edits()
    }

    /// Whether it may have given some: where not, nothing is to be edited.
    #[inline]
    pub fn is_edited(&self) -> bool
        ensures { result ≡ false → self.now.edits ≡ no_edits }
    {
        self.edits.is_some()
    }

    /// The indices of the entries that the handler made, in order.
    #[inline]
    pub fn picks(&self) -> &Picks
        ensures { result.now ≡ self.now.picks }
    {
        &self.picks
    }

    /// What a packet came to with this action.
    pub(crate) fn done(self, action: Action) -> Done
        ensures { result ≡ done_of action self }
    {
        let Context {
            vars: _,
            edits,
            picks,
        } = self;
        Done {
            action,
            edits: *edits.edits(),
            picks,
        }
    }
}

/// How a block went that came to its end.
#[derive(Clone, Copy)]
pub enum Flow {
    /// It fell off its end.
    Falls,
    /// A statement ended the handler: the packet goes nowhere.
    Drop,
    /// Likewise: it goes out at every port but its own.
    Flood,
    /// Likewise: it goes out at this port.
    To(u32),
}

/// How a block went, or why it came to no end. It has no enum in it, so that it stays in registers.
#[derive(Clone, Copy)]
pub enum BlockResult {
    /// It fell off its end.
    Falls,
    /// A statement ended the handler: the packet goes nowhere.
    Drop,
    /// Likewise: it goes out at every port but its own.
    Flood,
    /// Likewise: it goes out at this port.
    To(u32),
    /// A `new` of the chain of this number is to make an entry, and no index of the share is
    /// vacant: the share is one of several, or no `new` is to be told that its chain is full.
    ShareFull(u32),
    /// A `new` is to make an entry, and the next choice is not vacant, not own, or missing.
    BadChoice,
}

/// What the handling of a packet in a context came to, which has its edits and the indices of the
/// entries that it made.
#[derive(Clone, Copy, Debug, PartialEq, Eq)]
pub enum Outcome {
    /// It goes nowhere.
    Drop,
    /// It goes out at every port but the one that it came in at.
    Flood,
    /// It goes out at this port.
    To(u32),
    /// It came to a `new` of the chain of this number, no key is taken, and no index of the share
    /// is vacant: the tables are given up.
    ShareFull(u32),
}

/// What a look at a packet came to.
#[derive(Debug, Drop)]
pub enum Look {
    /// It is done, and nothing had to be written.
    Done(Done),
    /// Something past its lifetime is to be given up, or an operation of the handler would change
    /// something.
    NeedsWrite,
}
