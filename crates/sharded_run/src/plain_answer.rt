//! An answer that is an action alone.
ghost use Rattle.std.specs.Prelude.{◌≡◌, []};
ghost use Rattle.nf_base.specs.Step.{no_edits};
ghost use Rattle.short_answers.specs.Answers.{plain};

use nf_base::done::{Action, Done};
use short_answers::plain;

/// An answer that is an action alone, made once: what a packet may come to takes some 250 bytes.
#[derive(Drop)]
pub(crate) struct PlainAnswer {
    done: Done,
    ghost unedited: { done.edits ≡ no_edits },
    ghost unpicked: { done.picks ≡ [] },
}

impl PlainAnswer {
    pub(crate) fn new() -> PlainAnswer {
        PlainAnswer {
            done: plain(Action::Skip),
        }
    }

    /// The answer that is another action.
    #[inline]
    pub(crate) fn set(&mut self, action: Action)
        ensures { self.new.done ≡ plain action }
    {
        self.done.action = action;
    }

    #[inline]
    pub(crate) fn done(&self) -> &Done
        ensures { result.now ≡ self.now.done }
    {
        &self.done
    }
}
