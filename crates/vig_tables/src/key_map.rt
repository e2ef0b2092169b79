//! A map of a chain.
ghost use Rattle.std.specs.Prelude.{◌≡◌, ℕ, ◌≤◌, ◌<◌, ◌↔◌, [], length, take, drop, IsTrue, IfOk, All, map, Some};
ghost use Rattle.std.specs.List.{AllZip, list_any};
ghost use Rattle.nf_base.specs.Chains.{key_in};
ghost use Rattle.hash_slots.specs.Tags.{tags_of};
ghost use Rattle.vig_map.specs.Bindings.{value_of, is_bindable};
ghost use Rattle.vig_tables.specs.Grid.{row_at};
ghost use Rattle.vig_tables.specs.Keyed.{key_of, value_for, IsBoundTo, IsUnbound};
ghost use Rattle.vig_tables.specs.Tagged.{Tagged, keys_in, keyed_in, IsTagged, IsReady, IsBoundIn, IsBoundAt, IsUnboundIn, HasRoom, opened_map, is_bound_in};

use crate::rows::Rows;
use hash_slots::{Slots, tag_of};
use nf_base::decl::MapDecl;
use nf_base::size::Size;
use std::alloc::{AllocError, Global};
use std::marker::Model;

/// A map of a chain: from a key, which is a part of an entry's labels, to the entry's index.
#[derive(Drop)]
pub struct KeyMap {
    decl: MapDecl,
    slots: Slots,
}

impl Model for KeyMap {
    ghost use Rattle.vig_tables.specs.Tagged.{Tagged};

    ghost Value = { Tagged };

    ghost view = { λ a. record { decl = a.decl; tags = a.slots } };
}

/// The numbers from a place on, as many as there are up to a count.
#[inline]
fn part(numbers: &[u128], first: u32, count: u32) -> &[u128]
    ensures { result.now ≡ take count (drop first numbers.now) }
{
    let start = (first as usize).min(numbers.len());
    let rest = &numbers[start..];
    let end = (count as usize).min(rest.len());
    &rest[..end]
}

/// The key of a row.
#[inline]
fn key_at<'a>(decl: &MapDecl, labels: &'a Rows, i: u32) -> &'a [u128]
    requires { i < length labels.now.rows }
    ensures value { result.now ≡ key_in decl.now (row_at labels.now i) }
    ensures few { i < 65536 }
{
    part(labels.row(i), decl.first, decl.parts)
}

/// Whether two keys are equal.
///
/// Keys of four parts, as those of flows, are compared without a loop.
#[inline]
fn is_same(a: &[u128], b: &[u128]) -> bool
    ensures { IsTrue result ↔ (a.now ≡ b.now) }
{
    if a.len() != b.len() {
        return false;
    }
    if let ([x, y, z, w], [e, f, g, h]) = (a, b) {
        return *x == *e && *y == *f && *z == *g && *w == *h;
    }
    for i in 0..a.len() {
        if a[i] != b[i] {
            return false;
        }
    }
    true
}

impl KeyMap {
    /// The index to which a key is bound.
    #[inline(always)]
    pub fn get(&self, labels: &Rows, key: &[u128]) -> Option<u32>
        requires { IsTagged labels.now self.now }
        ensures { result ≡ value_of (keyed_in labels.now self.now).map.pairs key.now }
    {
        let decl = &self.decl;
        let is_key = |i: u32|
            requires { i < length labels.now.rows }
            ensures { IsTrue result ↔ (keys_in decl.entry.now labels.entry.now i ≡ key.entry.now) }
        { is_same(key_at(decl, labels, i), key) };
        self.slots.find(tag_of(key), is_key)
    }

    /// Whether the key of some labels is bound.
    fn is_bound(&self, labels: &Rows, row: &[u128]) -> bool
        requires { IsTagged labels.now self.now }
        ensures { result ≡ is_bound_in labels.now row.now self.now }
    {
        self.get(labels, part(row, self.decl.first, self.decl.parts))
            .is_some()
    }

    /// Binds the key of a row to the row's index.
    fn bind(&mut self, labels: &Rows, i: u32)
        requires ready { IsReady labels.now i self.old }
        requires within { i < length labels.now.rows }
        ensures { IsBoundIn labels.now i self.old self.new }
    {
        let tag = tag_of(key_at(&self.decl, labels, i));
        self.slots.put(tag, i);
    }

    /// Unbinds the key of a row from the row's index.
    fn unbind(&mut self, labels: &Rows, i: u32)
        requires bound { IsBoundAt labels.now i self.old }
        requires within { i < length labels.now.rows }
        ensures { IsUnboundIn labels.now i self.old self.new }
    {
        let tag = tag_of(key_at(&self.decl, labels, i));
        self.slots.erase(tag, i);
    }

    /// A map in which no key is bound, with room for so many.
    fn new(alloc: Global, decl: &MapDecl, size: Size) -> Result<KeyMap, AllocError>
        ensures { IfOk result (λ map. map ≡ opened_map decl.now size) }
    {
        Ok(KeyMap {
            decl: decl.copy(alloc)?,
            slots: Slots::new(alloc, size)?,
        })
    }

    /// The same map once more, with room for so many.
    fn copy(&self, alloc: Global, size: Size) -> Result<KeyMap, AllocError>
        requires { HasRoom size self.now }
        ensures { IfOk result (λ copy. copy ≡ self.now) }
    {
        let decl = self.decl.copy(alloc)?;
        let mut slots = Slots::new(alloc, size)?;
        slots.copy_from(&self.slots);
        Ok(KeyMap { decl, slots })
    }
}

/// Binds the keys of a row to the row's index.
pub fn bind_all(maps: &mut Vec<KeyMap>, labels: &Rows, i: u32)
    requires ready { All (IsReady labels.now i) maps.old.items }
    requires within { i < length labels.now.rows }
    ensures { AllZip (IsBoundIn labels.now i) maps.old.items maps.new.items }
{
    for k in 0..maps.len() {
        maps[k].bind(labels, i);
    }
}

/// Unbinds the keys of a row from the row's index.
pub fn unbind_all(maps: &mut Vec<KeyMap>, labels: &Rows, i: u32)
    requires bound { All (IsBoundAt labels.now i) maps.old.items }
    requires within { i < length labels.now.rows }
    ensures { AllZip (IsUnboundIn labels.now i) maps.old.items maps.new.items }
{
    for k in 0..maps.len() {
        maps[k].unbind(labels, i);
    }
}

/// Maps for a chain of so many indices.
pub fn new_maps(alloc: Global, decls: &[MapDecl], size: Size) -> Result<Vec<KeyMap>, AllocError>
    ensures { IfOk result (λ maps.
        maps.items ≡ map (λ decl. opened_map decl size) decls.now) }
{
    let mut maps = Vec::with_capacity(alloc, decls.len())?;
    for decl in decls {
        maps.push(KeyMap::new(alloc, decl, size)?)?;
    }
    Ok(maps)
}

/// The same maps once more, of a chain of so many indices.
pub fn copied_maps(alloc: Global, maps: &[KeyMap], size: Size) -> Result<Vec<KeyMap>, AllocError>
    requires { All (HasRoom size) maps.now }
    ensures { IfOk result (λ copy. copy.items ≡ maps.now) }
{
    let mut copy = Vec::with_capacity(alloc, maps.len())?;
    for map in maps {
        copy.push(map.copy(alloc, size)?)?;
    }
    Ok(copy)
}

/// Whether the key of some labels is bound in one of some maps.
pub fn is_any_bound(maps: &[KeyMap], labels: &Rows, row: &[u128]) -> bool
    requires { All (IsTagged labels.now) maps.now }
    ensures { result ≡ list_any (is_bound_in labels.now row.now) maps.now }
{
    for k in 0..maps.len() {
        if maps[k].is_bound(labels, row) {
            return true;
        }
    }
    false
}
