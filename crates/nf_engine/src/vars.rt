ghost use Rattle.std.specs.Prelude.{◌≡◌, ℕ, ◌+◌, ◌<◌, ◌≤◌, [], ◌∷◌, ◌++◌, length, take, map, None, Some};
ghost use Rattle.nf_base.specs.Context.{var_at};
ghost use Rattle.nf_base.specs.Operations.{unless_at};

use crate::entry_ref::EntryRef;
use std::marker::Model;

/// The variables in scope, at most 32: by number where an entry stands, or None once it was freed.
#[derive(Drop)]
pub struct Vars {
    entries: [Option<EntryRef>; 32],
    len: u32,
}

impl Model for Vars {
    ghost use Rattle.std.specs.Prelude.{List, take, ◌≤◌};
    ghost use Rattle.nf_base.specs.Context.{Var};

    ghost Value = { List Var };

    ghost view = { λ a. take a.len a.entries };

    ghost invariant = { λ a. a.len ≤ 32 };
}

impl Vars {
    pub fn new() -> Vars
        ensures { result ≡ [] }
    {
        Vars {
            entries: [None; 32],
            len: 0,
        }
    }

    /// No variable is in scope any more.
    #[inline]
    pub fn clear(&mut self)
        ensures { self.new ≡ [] }
    {
        self.len = 0;
    }

    fn as_slice(&self) -> &[Option<EntryRef>]
        ensures { result.now ≡ self.now }
    {
        &self.entries[..self.len as usize]
    }

    /// Where the live entry of a variable stands.
    pub fn at(&self, var: u32) -> Option<EntryRef>
        ensures { result ≡ var_at self.now var }
    {
        match self.as_slice().get(var as usize) {
            None => None,
            Some(at) => *at,
        }
    }

    fn truncate(&mut self, len: u32)
        ensures { self.new ≡ take len self.old }
    {
        if len < self.len {
            self.len = len;
        }
    }

    fn push(&mut self, at: EntryRef)
        requires { length self.old < 32 }
        ensures { self.new ≡ self.old ++ Some at ∷ [] }
    {
        self.entries[self.len as usize] = Some(at);
        self.len += 1;
    }

    /// Binds the variable of a number, and forgets those after it.
    pub fn bind(&mut self, var: u32, at: EntryRef)
        requires { length self.old < 32 }
        ensures bound { self.new ≡ take var self.old ++ Some at ∷ [] }
        ensures longer { length self.new ≤ length self.old + 1 }
    {
        self.truncate(var);
        self.push(at);
    }

    /// Forgets an entry, which is freed.
    pub fn forget(&mut self, gone: EntryRef)
        ensures { self.new ≡ map (unless_at gone) self.old }
    {
        forget_in(&mut self.entries, gone);
    }
}

fn forget_in(entries: &mut [Option<EntryRef>; 32], gone: EntryRef)
    ensures { entries.new ≡ map (unless_at gone) entries.old }
{
    for k in 0..32 {
        entries[k] = gone.unless_here(entries[k]);
    }
}
