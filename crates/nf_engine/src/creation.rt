// The entry that a `new` makes.
ghost use Rattle.std.specs.Prelude.{◌≡◌, ◌<◌, ◌≤◌, ◌+◌, length, slice_get, Some};
ghost use Rattle.nf_base.specs.Limits.{AreFor, CreationFits};
ghost use Rattle.nf_base.specs.View.{creation_of};
ghost use Rattle.vig_tables.specs.TablesState.{slots_at};
ghost use Rattle.nf_engine.specs.View.{fixed_of, fixed_in, all_given};
ghost use Rattle.nf_engine.specs.Creations.{without_vacant, Finds, IfMade, IfIllegal, IsClosed, entered, result_with, ComesTo, Makes};

use crate::context::Context;
use crate::entry_ref::EntryRef;
use crate::input::Input;
use crate::reads::Reads;
use crate::values::{fill_key, labels_of};
use nf_base::block::Creation;
use nf_base::key::Key;
use nf_base::picks::Picks;
use vig_tables::{Created, Tables};

/// What a `new` comes to.
#[derive(Clone, Copy)]
pub enum NewResult {
    /// An entry at this index.
    Made(u32),
    /// One of its keys is bound.
    Taken,
    /// No index is vacant.
    Full,
    /// The next choice is not vacant, not own, or missing.
    Illegal,
    /// No index of the share is vacant.
    Stopped,
}

/// What a `new` comes to that finds no own index vacant: the whole share is then full, unless that
/// stops it too.
fn without_vacant<R: Reads>(p: &Input<R>) -> NewResult
    ensures { result ≡ without_vacant p.now }
{
    if p.strict() || p.share().of > 1 {
        NewResult::Stopped
    } else {
        NewResult::Full
    }
}

/// Makes an entry at an index that the tables choose.
fn make_anywhere<R: Reads>(
    tables: &mut Tables,
    p: &Input<R>,
    chain: u32,
    labels: &[u128],
) -> NewResult
    requires over { fixed_of tables.old ≡ fixed_in p.now }
    requires each { AreFor (length labels.now) (slice_get p.now.decls chain) }
    ensures cause { Finds result p.now chain labels.now (slots_at tables.old chain) }
    ensures legal { IfIllegal result ⊥ }
    ensures changes { tables.new ≡ entered result p.now chain labels.now tables.old }
{
    match tables.create(chain, labels, p.time()) {
        Created::Made(i) => NewResult::Made(i),
        Created::Taken => NewResult::Taken,
        Created::Full => without_vacant(p),
    }
}

/// Makes an entry at an index, if one is given.
fn make_at<R: Reads>(
    tables: &mut Tables,
    p: &Input<R>,
    next: Option<u32>,
    chain: u32,
    labels: &[u128],
) -> NewResult
    requires over { fixed_of tables.old ≡ fixed_in p.now }
    requires each { AreFor (length labels.now) (slice_get p.now.decls chain) }
    ensures cause { Finds result p.now chain labels.now (slots_at tables.old chain) }
    ensures next { IfMade result (λ i. next ≡ Some i) }
    ensures illegal { IfIllegal result (IsClosed p.now.share (slots_at tables.old chain) next) }
    ensures changes { tables.new ≡ entered result p.now chain labels.now tables.old }
{
    if let Some(i) = next {
        if tables.create_at(chain, i, labels, p.time()) {
            return NewResult::Made(i);
        }
    }
    if tables.is_taken(chain, labels) {
        NewResult::Taken
    } else if tables.is_full(chain) {
        without_vacant(p)
    } else {
        NewResult::Illegal
    }
}

/// The choice after those that were taken.
fn next_choice(choices: &Picks, picks: &Picks) -> Option<u32>
    ensures { result ≡ slice_get choices.now (length picks.now) }
{
    let i = choices.as_slice().get(picks.len() as usize)?;
    Some(*i)
}

/// Makes an entry with these labels, if one can be made: at the next of the choices where they are
/// given.
fn enter<R: Reads>(
    tables: &mut Tables,
    p: &Input<R>,
    picks: &Picks,
    chain: u32,
    labels: &[u128],
) -> NewResult
    requires over { fixed_of tables.old ≡ fixed_in p.now }
    requires each { AreFor (length labels.now) (slice_get p.now.decls chain) }
    ensures comes { let meant = result_with p.now chain labels.now tables.old.state.chains in
        ComesTo result p.now picks.now meant }
    ensures changes { tables.new ≡ entered result p.now chain labels.now tables.old }
{
    match p.choices() {
        None => make_anywhere(tables, p, chain, labels),
        Some(choices) => make_at(tables, p, next_choice(choices, picks), chain, labels),
    }
}

/// Makes an entry with these labels and binds its variable, if an entry can be made.
fn make_with<R: Reads>(
    tables: &mut Tables,
    context: &mut Context,
    p: &Input<R>,
    creation: &Creation,
    labels: &[u128],
) -> NewResult
    requires over { fixed_of tables.old ≡ fixed_in p.now }
    requires fits { CreationFits p.now.decls (creation_of creation.now) }
    requires vars { length context.old.vars < 32 }
    requires picks { length context.old.picks < 16 }
    requires labels { let n = creation_of creation.now in
        labels.now ≡ all_given p.now tables.old context.old n.labels }
    ensures makes { Makes result p.now (creation_of creation.now)
        tables.old context.old tables.new context.new }
    ensures vars { length context.new.vars ≤ length context.old.vars + 1 }
    ensures picks { length context.new.picks ≤ length context.old.picks + 1 }
    ensures stays { fixed_of tables.new ≡ fixed_of tables.old }
{
    let result = enter(tables, p, &context.picks, creation.chain, labels);
    if let NewResult::Made(i) = result {
        context.picks.push(i);
        context
            .vars
            .bind(creation.var, EntryRef::new(creation.chain, i));
    }
    result
}

/// Makes an entry and binds its variable, if an entry can be made.
///
/// Few labels are gathered in the room of a key, which is a small part of that for all that there
/// may be.
pub fn make<R: Reads>(
    tables: &mut Tables,
    context: &mut Context,
    p: &Input<R>,
    creation: &Creation,
) -> NewResult
    requires over { fixed_of tables.old ≡ fixed_in p.now }
    requires fits { CreationFits p.now.decls (creation_of creation.now) }
    requires vars { length context.old.vars < 32 }
    requires picks { length context.old.picks < 16 }
    ensures makes { Makes result p.now (creation_of creation.now)
        tables.old context.old tables.new context.new }
    ensures vars { length context.new.vars ≤ length context.old.vars + 1 }
    ensures picks { length context.new.picks ≤ length context.old.picks + 1 }
    ensures stays { fixed_of tables.new ≡ fixed_of tables.old }
{
    let given = creation.labels.as_slice();
    if given.len() <= 8 {
        let mut few = Key::new();
        fill_key(&mut few, tables, context, p, given);
        make_with(tables, context, p, creation, few.as_slice())
    } else {
        let all = labels_of(tables, context, p, given);
        make_with(tables, context, p, creation, all.as_slice())
    }
}
