//! Calls on tables, which promise nothing: what the answers are is compared, and not proved.
use nf_base::func::Func;
use nf_base::key::Key;
use nf_base::share::Share;
use nf_base::state::State;
use std::alloc::{AllocError, Global};
use test_samples::functions::function;
use vig_tables::{Created, Tables};

/// The function that a text is.
pub fn read(alloc: Global, text: &str) -> Result<Func, AllocError> {
    match function(alloc, text.as_bytes()) {
        Some(func) => Ok(func),
        None => Err(AllocError),
    }
}

/// The tables of a text's function that has handled nothing yet.
pub fn open(alloc: Global, text: &str, share: Share) -> Result<Tables, AllocError> {
    let func = read(alloc, text)?;
    Tables::new(alloc, &func, share)
}

pub fn copy(alloc: Global, tables: &Tables) -> Result<Tables, AllocError> {
    tables.copy(alloc)
}

pub fn state(alloc: Global, tables: &Tables) -> Result<State, AllocError> {
    tables.state(alloc)
}

fn key(parts: &[u128]) -> Key {
    let mut key = Key::new();
    for part in parts {
        if key.len() < 8 {
            key.push(*part);
        }
    }
    key
}

pub fn lookup(tables: &Tables, map: u32, parts: &[u128]) -> Option<u32> {
    tables.lookup(map, &key(parts))
}

pub fn lookup_in(tables: &Tables, chain: u32, map: u32, parts: &[u128]) -> Option<u32> {
    tables.lookup_in(chain, map, &key(parts))
}

pub fn find_at(tables: &Tables, chain: u32, index: u128, guards: &[(u32, u128)]) -> Option<u32> {
    tables.find_at(chain, index, guards)
}

/// Makes an entry, if each label has a value.
pub fn create(tables: &mut Tables, chain: u32, labels: &[u128], time: u64) -> Option<Created> {
    if labels.len() == tables.label_count(chain) as usize {
        Some(tables.create(chain, labels, time))
    } else {
        None
    }
}

pub fn create_at(tables: &mut Tables, chain: u32, i: u32, labels: &[u128], time: u64) -> bool {
    labels.len() == tables.label_count(chain) as usize && tables.create_at(chain, i, labels, time)
}

pub fn touch(tables: &mut Tables, chain: u32, i: u32, time: u64) {
    tables.touch(chain, i, time);
}

pub fn free(tables: &mut Tables, chain: u32, i: u32) {
    tables.free(chain, i);
}

pub fn expire(tables: &mut Tables, time: u64) {
    tables.expire(time);
}

pub fn is_full(tables: &Tables, chain: u32) -> bool {
    tables.is_full(chain)
}

pub fn due(tables: &Tables, chain: u32, time: u64) -> bool {
    tables.due(chain, time)
}

pub fn stamp(tables: &Tables, chain: u32, i: u32) -> Option<u64> {
    tables.stamp(chain, i)
}

pub fn greatest(tables: &Tables, chain: u32) -> u64 {
    tables.greatest(chain)
}

pub fn label(tables: &Tables, chain: u32, i: u32, label: u32) -> u128 {
    tables.label(chain, i, label)
}

pub fn column(tables: &Tables, chain: u32, i: u32, column: u32) -> u128 {
    tables.column(chain, i, column)
}

pub fn cell(tables: &Tables, chain: u32, i: u32, column: u32) -> u128 {
    tables.cell(chain, i, column)
}

/// Writes a column, if it is a free one.
pub fn set_cell(tables: &mut Tables, chain: u32, i: u32, column: u32, value: u128) -> bool {
    let is_free = tables.label_count(chain) <= column;
    if is_free {
        tables.set_cell(chain, i, column, value);
    }
    is_free
}

pub fn set_column(tables: &mut Tables, chain: u32, i: u32, column: u32, value: u128) {
    tables.set_column(chain, i, column, value);
}

pub fn read_cell(tables: &Tables, array: u32, i: u128) -> u128 {
    tables.read(array, i)
}

pub fn write_cell(tables: &mut Tables, array: u32, i: u128, value: u128) {
    tables.write(array, i, value);
}

/// The queue and the number of queues of the share whose indices are given out.
pub fn share(tables: &Tables) -> (u32, u32) {
    let share = tables.share();
    (share.queue, share.of)
}
