// Look-ups in a chain, and operations on one.
ghost use Rattle.std.specs.Prelude.{◌≡◌, ℕ, ◌+◌, ◌≤◌, ◌<◌, [], length, take, drop, IfOk, IfSome, IsSome, OnOk, map, slice_get, slice_set, Some, None, false, true};
ghost use Rattle.nf_base.specs.Chains.{chain_at, maps_of, zeros_of, key_in, has_key, found, is_taken, is_full, is_vacant, stamped, fresh, touched, freed, written};
ghost use Rattle.nf_meaning.specs.Choices.{least_vacant};

use nf_base::decl::{ChainDecl, ColumnDecl, MapDecl};
use nf_base::indexed::Indexed;
use nf_base::seq::Seq;
use nf_base::state::{Chain, Entry};
use std::alloc::{AllocError, Global};

/// What stands at the indices of the chain of a number; past the last one there are none.
pub fn slots_of(chains: &[Chain], chain: u32) -> &[Option<Entry>]
    ensures value { result.now ≡ (chain_at chains.now chain).slots }
    ensures within { length result.now ≤ 65536 }
{
    match chains.get(chain as usize) {
        None => &[],
        Some(chain) => {
            let _len = chain.slots.len();
            chain.slots.as_slice()
        }
    }
}

/// The maps of the chain of a number.
pub fn maps_of(decls: &[ChainDecl], chain: u32) -> &[MapDecl]
    ensures { result.now ≡ maps_of decls.now chain }
{
    match decls.get(chain as usize) {
        None => &[],
        Some(decl) => decl.maps.as_slice(),
    }
}

/// A zero for each column of a chain.
pub fn zeros_of(alloc: Global, decls: &[ChainDecl], chain: u32) -> Result<Vec<u128>, AllocError>
    ensures { IfOk result (λ v. v.items ≡ zeros_of decls.now chain) }
{
    match decls.get(chain as usize) {
        None => Ok(Vec::new(alloc)),
        Some(decl) => decl.columns.as_slice().iter().map(|_| 0u128).collect(alloc),
    }
}

/// The numbers from a place on, as many as there are up to a count.
fn part(numbers: &[u128], first: u32, count: u32) -> &[u128]
    ensures { result.now ≡ take count (drop first numbers.now) }
{
    let start = (first as usize).min(numbers.len());
    let rest = &numbers[start..];
    let end = (count as usize).min(rest.len());
    &rest[..end]
}

fn has_key(m: &MapDecl, key: &[u128], slot: &Option<Entry>) -> bool
    ensures { result ≡ has_key m.now key.now slot.now }
{
    match slot {
        None => false,
        Some(entry) => part(entry.labels.as_slice(), m.first, m.parts) == key,
    }
}

/// The first index whose entry has a key.
pub fn found(m: &MapDecl, key: &[u128], slots: &[Option<Entry>]) -> Option<u32>
    requires { length slots.now ≤ 65536 }
    ensures { result ≡ found m.now key.now slots.now }
{
    let mut i: u32 = 0;
    for slot in slots {
        if has_key(m, key, slot) {
            return Some(i);
        }
        i += 1;
    }
    None
}

/// Whether one of these labels' keys is bound in its map.
pub fn is_taken(maps: &[MapDecl], labels: &[u128], slots: &[Option<Entry>]) -> bool
    requires { length slots.now ≤ 65536 }
    ensures { result ≡ is_taken maps.now labels.now slots.now }
{
    for m in maps {
        if found(m, part(labels, m.first, m.parts), slots).is_some() {
            return true;
        }
    }
    false
}

pub fn is_full(slots: &[Option<Entry>]) -> bool
    ensures { result ≡ is_full slots.now }
{
    for slot in slots {
        if slot.is_none() {
            return false;
        }
    }
    true
}

/// The least index that holds no entry; where none is vacant, how many there are.
pub fn least_vacant(slots: &[Option<Entry>]) -> u32
    requires { length slots.now ≤ 65536 }
    ensures { result ≡ least_vacant slots.now }
{
    let mut i: u32 = 0;
    for slot in slots {
        if slot.is_none() {
            return i;
        }
        i += 1;
    }
    i
}

pub fn is_vacant(slots: &[Option<Entry>], i: u32) -> bool
    ensures { result ≡ is_vacant (slice_get slots.now i) }
{
    match slots.get(i as usize) {
        None => false,
        Some(None) => true,
        Some(Some(_)) => false,
    }
}

/// Puts a new entry at an index.
pub fn put(chain: &mut Chain, time: u64, i: u32, labels: Seq<u128>, columns: Seq<u128>)
    requires { i < length chain.old.slots }
    ensures { chain.new ≡ stamped time i (fresh labels columns) chain.old }
{
    let stamp = time.max(chain.greatest);
    chain.slots.set(
        i,
        Some(Entry {
            stamp,
            labels,
            columns,
        }),
    );
    chain.greatest = stamp;
}

pub fn touch(chain: &mut Chain, time: u64, i: u32)
    ensures { chain.new ≡ touched time i chain.old }
{
    if i >= chain.slots.len() {
        return;
    }
    let stamp = time.max(chain.greatest);
    match chain.slots.item_mut(i) {
        None => {}
        Some(entry) => {
            entry.stamp = stamp;
            chain.greatest = stamp;
        }
    }
}

pub fn free(chain: &mut Chain, i: u32)
    ensures { chain.new ≡ freed i chain.old }
{
    if i < chain.slots.len() {
        chain.slots.set(i, None);
    }
}

pub fn write(chain: &mut Chain, i: u32, column: u32, v: u128)
    ensures { chain.new ≡ written column v i chain.old }
{
    if i >= chain.slots.len() {
        return;
    }
    match chain.slots.item_mut(i) {
        None => {}
        Some(entry) => write_column(entry, column, v),
    }
}

fn write_column(entry: &mut Entry, column: u32, v: u128)
    ensures { entry.new ≡ record entry.old { columns = slice_set entry.old.columns column v } }
{
    if (column as usize) < entry.columns.len() {
        entry.columns.set(column as usize, v);
    }
}
