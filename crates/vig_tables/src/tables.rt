//! The tables of a function.
ghost use Rattle.std.specs.Prelude.{◌≡◌, ◌≤◌, ◌-◌, length, map, not, IfOk, option_and_then, slice_get, slice_set};
ghost use Rattle.std.specs.Bool.{OnTrue, OnFalse};
ghost use Rattle.std.specs.Option.{option_map};
ghost use Rattle.nf_base.specs.Chains.{all_none_due, array_at, chain_at, entry_at, expired, fresh, freed, is_taken, lifetime_of, maps_of, none_due, stamped, touched, written, zeros_of};
ghost use Rattle.nf_base.specs.Context.{or_zero, label_of, column_of};
ghost use Rattle.nf_base.specs.Functions.{function_of};
ghost use Rattle.nf_base.specs.Limits.{AreFor, HaveAllShortKeys};
ghost use Rattle.nf_base.specs.Shares.{owns, none_vacant};
ghost use Rattle.nf_base.specs.Step.{opening_cells};
ghost use Rattle.vig_tables.specs.Table.{opened, index_under, index_with, CauseOf, if_made, can_make_at, cell_of, without_past};
ghost use Rattle.vig_tables.specs.TablesState.{opened_tables, decls_of, chains_of, with_chains, slots_at, changed, with_cell, label_count, index_over, IsTableAt};

mod merged;

use crate::chain_tables::ChainTables;
use crate::created::Created;
use nf_base::decl::{ArrayDecl, ChainDecl};
use nf_base::func::Func;
use nf_base::indexed::Indexed;
use nf_base::key::Key;
use nf_base::seq::Seq;
use nf_base::share::Share;
use nf_base::state::{Chain, State};
use std::alloc::{AllocError, Global};
use std::marker::Model;

/// What a function remembers, in tables.
///
/// Contracts see them as a state, by index, beside the declarations of its chains and the share
/// whose indices are given out. Chains and arrays go by number, from 0, in text order, and maps
/// over all chains. A number past the last chain stands for one with no index and no map, a number
/// past the last array for one with no cell. Times and stamps are in nanoseconds. No call but
/// `new`, `state`, `copy` and `merge` takes memory.
#[derive(Drop)]
pub struct Tables {
    chains: Seq<ChainTables>,
    arrays: Seq<Indexed<u128>>,
    share: Share,
}

impl Model for Tables {
    ghost use Rattle.std.specs.Prelude.{All};
    ghost use Rattle.vig_tables.specs.TablesState.{TablesState, state_of, IsOfShare};

    ghost Value = { TablesState };

    ghost view = { λ a. state_of a.chains a.arrays a.share };

    ghost invariant = { λ a. All (IsOfShare a.share) a.chains };
}

impl Tables {
    /// The tables of a function that has handled nothing yet.
    pub fn new(alloc: Global, func: &Func, share: Share) -> Result<Tables, AllocError>
        ensures { IfOk result (λ tables. tables ≡ opened_tables (function_of func.now) share) }
    {
        let chains = new_chains(alloc, func.chains.as_slice(), share)?;
        let arrays = new_arrays(alloc, func.arrays.as_slice())?;
        Ok(Tables {
            chains,
            arrays,
            share,
        })
    }

    /// The share whose indices are given out.
    pub fn share(&self) -> Share
        ensures { result ≡ self.now.share }
    {
        self.share
    }

    /// How many chains there are.
    pub fn chain_count(&self) -> usize
        ensures decls { result ≡ length self.now.decls }
        ensures chains { result ≡ length self.now.state.chains }
    {
        self.chains.len()
    }

    /// The tables of a chain: none past the last.
    fn table(&self, chain: u32) -> Option<&ChainTables>
        ensures { IsTableAt self.now chain result }
    {
        self.chains.as_slice().get(chain as usize)
    }

    /// How many labels each entry of a chain has, 0 where there is no such chain.
    pub fn label_count(&self, chain: u32) -> u32
        ensures { result ≡ label_count self.now.decls chain }
    {
        match self.table(chain) {
            Some(tables) => tables.label_count(),
            None => 0,
        }
    }

    /// The index to which a key is bound in a map, by the map's number over all chains.
    pub fn lookup(&self, map: u32, key: &Key) -> Option<u32>
        ensures { result ≡ index_over self.now.decls self.now.state.chains map key.now }
    {
        lookup(self.chains.as_slice(), map, key)
    }

    /// The index to which a key is bound in a map of a chain, by the map's number in the chain.
    pub fn lookup_in(&self, chain: u32, map: u32, key: &Key) -> Option<u32>
        ensures { let maps = maps_of self.now.decls chain in
            result ≡ index_under maps map key.now (slots_at self.now chain) }
    {
        self.lookup_parts(chain, map, key.as_slice())
    }

    /// The same for a key by its parts.
    #[inline]
    pub fn lookup_parts(&self, chain: u32, map: u32, key: &[u128]) -> Option<u32>
        ensures { let maps = maps_of self.now.decls chain in
            result ≡ index_under maps map key.now (slots_at self.now chain) }
    {
        match self.table(chain) {
            Some(tables) => tables.lookup_parts(map, key),
            None => None,
        }
    }

    /// An index of a chain, if it is one of the chain's, is live and its entry has these labels,
    /// each with its number.
    pub fn find_at(&self, chain: u32, index: u128, guards: &[(u32, u128)]) -> Option<u32>
        ensures { result ≡ index_with index guards.now (entry_at (slots_at self.now chain) index) }
    {
        match self.table(chain) {
            Some(tables) => tables.find_at(index, guards),
            None => None,
        }
    }

    /// Whether no own index of a chain is vacant.
    pub fn is_full(&self, chain: u32) -> bool
        ensures { result ≡ none_vacant (owns self.now.share) (slots_at self.now chain) }
    {
        match self.table(chain) {
            Some(tables) => tables.is_full(),
            None => true,
        }
    }

    /// Whether some entry of a chain is past its lifetime.
    pub fn due(&self, chain: u32, time: u64) -> bool
        ensures { let lifetime = lifetime_of self.now.decls chain in
            result ≡ not (none_due time lifetime (slots_at self.now chain)) }
    {
        match self.table(chain) {
            Some(tables) => tables.due(time),
            None => false,
        }
    }

    /// Whether some entry of some chain is past its lifetime.
    pub fn any_due(&self, time: u64) -> bool
        ensures { let lifetimes = lifetime_of self.now.decls in
            result ≡ not (all_none_due time lifetimes self.now.state.chains) }
    {
        any_due(self.chains.as_slice(), time)
    }

    /// Whether a key of some labels is bound in a chain.
    pub fn is_taken(&self, chain: u32, labels: &[u128]) -> bool
        ensures { let maps = maps_of self.now.decls chain in
            result ≡ is_taken maps labels.now (slots_at self.now chain) }
    {
        match self.table(chain) {
            Some(tables) => tables.is_taken(labels),
            None => false,
        }
    }

    /// The stamp of the entry at an index of a chain: none where there is no entry.
    pub fn stamp(&self, chain: u32, i: u32) -> Option<u64>
        ensures { result ≡ option_map (λ e. e.stamp) (entry_at (slots_at self.now chain) i) }
    {
        match self.table(chain) {
            Some(tables) => tables.stamp(i),
            None => None,
        }
    }

    /// The greatest stamp that a chain gave so far, 0 before the first.
    pub fn greatest(&self, chain: u32) -> u64
        ensures { result ≡ (chain_at self.now.state.chains chain).greatest }
    {
        match self.table(chain) {
            Some(tables) => tables.greatest(),
            None => 0,
        }
    }

    /// A column of the entry at an index of a chain, 0 where there is none: the labels come first,
    /// then the free columns.
    pub fn cell(&self, chain: u32, i: u32, column: u32) -> u128
        ensures { let entry = entry_at (slots_at self.now chain) i in
            result ≡ cell_of (label_count self.now.decls chain) column entry }
    {
        let labels = self.label_count(chain);
        if column < labels {
            self.label(chain, i, column)
        } else {
            self.column(chain, i, column - labels)
        }
    }

    /// A label of the entry at an index of a chain, 0 where there is none.
    pub fn label(&self, chain: u32, i: u32, label: u32) -> u128
        ensures { result ≡ label_of label (entry_at (slots_at self.now chain) i) }
    {
        match self.table(chain) {
            Some(tables) => tables.label(i, label),
            None => 0,
        }
    }

    /// A free column of the entry at an index of a chain, by its number among the free columns, 0
    /// where there is none.
    pub fn column(&self, chain: u32, i: u32, column: u32) -> u128
        ensures { result ≡ column_of column (entry_at (slots_at self.now chain) i) }
    {
        match self.table(chain) {
            Some(tables) => tables.column(i, column),
            None => 0,
        }
    }

    /// A free column of the entry at an index of a chain, by its number among the free columns, if
    /// there are both.
    pub fn free_column(&self, chain: u32, i: u32, column: u32) -> Option<u128>
        ensures { let entry = entry_at (slots_at self.now chain) i in
            result ≡ option_and_then (λ e. slice_get e.columns column) entry }
    {
        match self.table(chain) {
            Some(tables) => tables.free_column(i, column),
            None => None,
        }
    }

    /// A cell of an array, if there is one.
    pub fn array_cell(&self, array: u32, i: u128) -> Option<u128>
        ensures { result ≡ slice_get (array_at self.now.state.arrays array) i }
    {
        match self.arrays.as_slice().get(array as usize) {
            Some(cells) => cell(cells, i),
            None => None,
        }
    }

    /// A cell of an array, 0 where there is none.
    pub fn read(&self, array: u32, i: u128) -> u128
        ensures { result ≡ or_zero (slice_get (array_at self.now.state.arrays array) i) }
    {
        match self.array_cell(array, i) {
            Some(value) => value,
            None => 0,
        }
    }

    /// Makes an entry of a chain with these labels at an own vacant index, and with zeros in its
    /// free columns.
    ///
    /// Its stamp is the time, or the chain's greatest stamp so far where that is later.
    pub fn create(&mut self, chain: u32, labels: &[u128], time: u64) -> Created
        requires { AreFor (length labels.now) (slice_get self.old.decls chain) }
        ensures cause { let old = self.old in
            let maps = maps_of old.decls chain in
            CauseOf result maps labels.now old.share (slots_at old chain) }
        ensures changes { let entry = fresh labels.now (zeros_of self.old.decls chain) in
            let old = self.old in
            self.new ≡ if_made result (λ i. changed chain (stamped time i entry) old) old }
    {
        if (chain as usize) < self.chains.len() {
            self.chains.item_mut(chain as usize).create(labels, time)
        } else {
            Created::Full
        }
    }

    /// Makes an entry of a chain at an index, as `create` does: false where the index is not own or
    /// is live, where a key is bound, or where there is no such chain.
    pub fn create_at(&mut self, chain: u32, i: u32, labels: &[u128], time: u64) -> bool
        requires { AreFor (length labels.now) (slice_get self.old.decls chain) }
        ensures cause { let old = self.old in
            let maps = maps_of old.decls chain in
            result ≡ can_make_at maps labels.now old.share (slots_at old chain) i }
        ensures made { let entry = fresh labels.now (zeros_of self.old.decls chain) in
            OnTrue result (self.new ≡ changed chain (stamped time i entry) self.old) }
        ensures unchanged { OnFalse result (self.new ≡ self.old) }
    {
        if (chain as usize) < self.chains.len() {
            self.chains
                .item_mut(chain as usize)
                .create_at(i, labels, time)
        } else {
            false
        }
    }

    /// Gives the entry at an index of a chain the stamp that `create` gives; where there is none,
    /// nothing changes.
    pub fn touch(&mut self, chain: u32, i: u32, time: u64)
        ensures { self.new ≡ changed chain (touched time i) self.old }
    {
        if (chain as usize) < self.chains.len() {
            self.chains.item_mut(chain as usize).touch(i, time);
        }
    }

    /// Gives up the entry at an index of a chain, if there is one.
    pub fn free(&mut self, chain: u32, i: u32)
        ensures { self.new ≡ changed chain (freed i) self.old }
    {
        if (chain as usize) < self.chains.len() {
            self.chains.item_mut(chain as usize).free(i);
        }
    }

    /// Writes a free column of the entry at an index of a chain, if there are both; the labels come
    /// before the free columns.
    pub fn set_cell(&mut self, chain: u32, i: u32, column: u32, value: u128)
        requires { label_count self.old.decls chain ≤ column }
        ensures { let free = column - label_count self.old.decls chain in
            self.new ≡ changed chain (written free value i) self.old }
    {
        let labels = self.label_count(chain);
        self.set_column(chain, i, column - labels, value);
    }

    /// Writes a free column of the entry at an index of a chain, by its number among the free
    /// columns, if there are both.
    pub fn set_column(&mut self, chain: u32, i: u32, column: u32, value: u128)
        ensures { self.new ≡ changed chain (written column value i) self.old }
    {
        if (chain as usize) < self.chains.len() {
            self.chains
                .item_mut(chain as usize)
                .set_column(i, column, value);
        }
    }

    /// Writes a cell of an array, if there is one.
    pub fn write(&mut self, array: u32, i: u128, value: u128)
        ensures { self.new ≡ with_cell array i value self.old }
    {
        if (array as usize) < self.arrays.len() {
            write(self.arrays.item_mut(array as usize), i, value);
        }
    }

    /// Gives up each entry that is past its lifetime at a time.
    pub fn expire(&mut self, time: u64)
        ensures { let chains = expired time (lifetime_of self.old.decls) self.old.state.chains in
            self.new ≡ with_chains chains self.old }
    {
        expire_all(&mut self.chains, time);
    }

    /// The state that this is.
    pub fn state(&self, alloc: Global) -> Result<State, AllocError>
        ensures { IfOk result (λ state. state ≡ self.now.state) }
    {
        let chains = states(alloc, self.chains.as_slice())?;
        let arrays = copied_arrays(alloc, self.arrays.as_slice())?;
        Ok(State { chains, arrays })
    }

    /// The same tables once more.
    pub fn copy(&self, alloc: Global) -> Result<Tables, AllocError>
        ensures { IfOk result (λ copy. copy ≡ self.now) }
    {
        let chains = copied_chains(alloc, self.chains.as_slice())?;
        let arrays = copied_arrays(alloc, self.arrays.as_slice())?;
        Ok(Tables {
            chains,
            arrays,
            share: self.share,
        })
    }
}

/// The index to which a key is bound in a map, by the map's number over some chains.
fn lookup(chains: &[ChainTables], map: u32, key: &Key) -> Option<u32>
    ensures { result ≡ index_over (decls_of chains.now) (chains_of chains.now) map key.now }
{
    let mut left = map;
    for chain in chains {
        let maps = chain.map_count();
        if left < maps {
            return chain.lookup(left, key);
        }
        left -= maps;
    }
    None
}

/// Whether some entry of some chains is past its lifetime.
fn any_due(chains: &[ChainTables], time: u64) -> bool
    ensures { let lifetimes = lifetime_of (decls_of chains.now) in
        result ≡ not (all_none_due time lifetimes (chains_of chains.now)) }
{
    for chain in chains {
        if chain.due(time) {
            return true;
        }
    }
    false
}

/// A cell, none past the end.
fn cell(cells: &Indexed<u128>, i: u128) -> Option<u128>
    ensures { result ≡ slice_get cells.now i }
{
    if i < u128::from(cells.len()) {
        Some(*cells.item(i as u32))
    } else {
        None
    }
}

/// Writes a cell; past the end nothing.
fn write(cells: &mut Indexed<u128>, i: u128, value: u128)
    ensures { cells.new ≡ slice_set cells.old i value }
{
    if i < u128::from(cells.len()) {
        cells.set(i as u32, value);
    }
}

/// Gives up each entry that is past its lifetime at a time, chain by chain.
fn expire_all(chains: &mut Seq<ChainTables>, time: u64)
    ensures { chains.new ≡ map (without_past time) chains.old }
{
    for k in 0..chains.len() {
        chains.item_mut(k).expire(time);
    }
}

/// The chains of the state.
fn states(alloc: Global, chains: &[ChainTables]) -> Result<Seq<Chain>, AllocError>
    ensures { IfOk result (λ states. states ≡ chains_of chains.now) }
{
    let mut states = Seq::new(alloc);
    for chain in chains {
        states.push(chain.state(alloc)?)?;
    }
    Ok(states)
}

/// The same chains once more.
fn copied_chains(alloc: Global, chains: &[ChainTables]) -> Result<Seq<ChainTables>, AllocError>
    ensures { IfOk result (λ copy. copy ≡ chains.now) }
{
    let mut copy = Seq::new(alloc);
    for chain in chains {
        copy.push(chain.copy(alloc)?)?;
    }
    Ok(copy)
}

/// The same arrays once more.
fn copied_arrays(alloc: Global, arrays: &[Indexed<u128>]) -> Result<Seq<Indexed<u128>>, AllocError>
    ensures { IfOk result (λ copy. copy ≡ arrays.now) }
{
    let mut copy = Seq::new(alloc);
    for cells in arrays {
        copy.push(cells.copy(alloc)?)?;
    }
    Ok(copy)
}

/// Tables without entries, for each chain.
fn new_chains(
    alloc: Global,
    decls: &[ChainDecl],
    share: Share,
) -> Result<Seq<ChainTables>, AllocError>
    requires { HaveAllShortKeys decls.now }
    ensures { IfOk result (λ chains. chains ≡ map (λ decl. opened decl share) decls.now) }
{
    let mut chains = Seq::new(alloc);
    for decl in decls {
        chains.push(ChainTables::new(alloc, decl, share)?)?;
    }
    Ok(chains)
}

/// The opening cells of each array.
fn new_arrays(alloc: Global, decls: &[ArrayDecl]) -> Result<Seq<Indexed<u128>>, AllocError>
    ensures { IfOk result (λ arrays. arrays ≡ map opening_cells decls.now) }
{
    let mut arrays = Seq::new(alloc);
    for decl in decls {
        arrays.push(decl.cells.copy(alloc)?)?;
    }
    Ok(arrays)
}
