// One packet in its handler.
ghost use Rattle.std.specs.Prelude.{◌≡◌, ◌++◌, ◌∷◌, [], List, ℕ, take, OnOk, Some};
ghost use Rattle.nf_base.specs.Context.{var_at};
ghost use Rattle.nf_base.specs.Operations.{bound};
ghost use Rattle.nf_meaning.specs.View.{context_of};

use crate::entry_ref::EntryRef;
use nf_base::decl::ChainDecl;
use nf_base::done::{Action, Edits};
use nf_base::packet::Fields;
use nf_base::picks::Picks;
use nf_base::seq::Seq;
use nf_base::state::State;
use std::alloc::AllocError;

/// A handler in its context.
#[derive(Drop)]
pub struct Context {
    /// The packet's own copy, without what is past its lifetime.
    pub state: State,
    /// By number where an entry stands, or None once it was freed.
    pub vars: Seq<Option<EntryRef>>,
    pub edits: Edits,
    /// The choices taken so far.
    pub picks: Picks,
    /// Whether some `new` found no index vacant.
    pub full: bool,
}

/// What does not change while a handler runs.
#[derive(Drop)]
pub struct Input<'a> {
    pub decls: &'a [ChainDecl],
    /// How many ports the function has.
    pub ports: u32,
    /// In nanoseconds.
    pub time: u64,
    pub fields: Fields,
    /// The indices of the entries to be made, in order. Where none are given, an entry gets the
    /// least vacant index of its chain.
    pub choices: Option<&'a Picks>,
}

/// How a block went.
#[derive(Clone, Copy)]
pub enum Flow {
    /// It fell off its end.
    Falls,
    /// A statement ended the handler.
    Ends(Action),
}

/// Where the live entry of a variable stands.
pub fn var_at(vars: &[Option<EntryRef>], var: u32) -> Option<EntryRef>
    ensures { result ≡ var_at vars.now var }
{
    match vars.get(var as usize) {
        None => None,
        Some(at) => *at,
    }
}

/// Binds a variable to the entry at an index of a chain.
pub fn bind(context: &mut Context, var: u32, chain: u32, i: u32) -> Result<(), AllocError>
    ensures bound { OnOk result ((left : List ℕ) →
        context_of left context.new ≡ bound var chain (context_of left context.old) i) }
    ensures picks { context.new.picks ≡ context.old.picks }
    ensures full { context.new.full ≡ context.old.full }
{
    context.vars.truncate(var as usize);
    context.vars.push(Some(EntryRef::new(chain, i)))
}
