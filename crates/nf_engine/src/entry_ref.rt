ghost use Rattle.std.specs.Prelude.{◌≡◌};

use std::marker::Model;

/// Where an entry stands. Contracts see it as its chain and its index there.
#[derive(Clone, Copy)]
pub struct EntryRef {
    chain: u32,
    index: u32,
}

impl Model for EntryRef {
    ghost use Rattle.nf_base.specs.Context as context;

    ghost Value = { context.EntryRef };

    ghost view = { λ a. record { chain = a.chain; index = a.index } };

    ghost inverse = { λ at. record { chain = at.chain; index = at.index } };
}

impl EntryRef {
    ghost use Rattle.nf_base.specs.Operations.{unless_at};

    pub fn new(chain: u32, index: u32) -> EntryRef
        ensures { result ≡ record { chain = chain; index = index } }
    {
        EntryRef { chain, index }
    }

    pub fn chain(self) -> u32
        ensures { result ≡ self.chain }
    {
        self.chain
    }

    pub fn index(self) -> u32
        ensures { result ≡ self.index }
    {
        self.index
    }

    /// A variable, unless it stands for this entry.
    pub fn unless_here(self, var: Option<EntryRef>) -> Option<EntryRef>
        ensures { result ≡ unless_at self var }
    {
        match var {
            None => None,
            Some(at) => {
                if at.chain == self.chain && at.index == self.index {
                    None
                } else {
                    Some(at)
                }
            }
        }
    }
}
