//! Tables of a function with two chains and an array.
use crate::table_calls::{
    cell, column, copy, create, create_at, due, expire, find_at, free, greatest, is_full, label,
    lookup, lookup_in, open, read_cell, set_cell, set_column, share, stamp, state, touch,
    write_cell,
};
use nf_base::share::Share;
use nf_base::state::{Chain, Entry, State};
use std::alloc::{AllocError, Global};
use std::test::Fail;
use vig_tables::{Created, Tables};

/// Five flows by two keys, with a fixed and a free column; three hosts by one; and four cells, of which the first opens
/// with 7 and the last with 9.
const TEXT: &str = "nf tables { ports 1; \
chain flows 5 lifetime 10 { map inside(a: 32, b: 32); map outside(c: 32); fixed d: 32; free e: 32; } \
chain hosts 3 lifetime 100 { map by_host(a: 32); } \
array cells 4: 64 = { 7, 0, 0, 9 }; \
on 0 { drop; } }";

/// The tables of the second of two queues: of the flows 1 and 3 are its own, of the hosts 1.
fn second_of_two(alloc: Global) -> Result<Tables, AllocError> {
    open(alloc, TEXT, Share { queue: 1, of: 2 })
}

/// The index of an entry that was made.
fn made(created: Option<Created>) -> Option<u32> {
    match created? {
        Created::Made(i) => Some(i),
        Created::Taken => None,
        Created::Full => None,
    }
}

/// Makes two flows, and gives their indices.
fn two_flows(tables: &mut Tables) -> Option<(u32, u32)> {
    let a = made(create(tables, 0, &[10, 80, 5000, 2], 7))?;
    let b = made(create(tables, 0, &[11, 80, 5001, 2], 3))?;
    Some((a, b))
}

/// What is found by keys of each map, and of one that is not there.
fn found_by_each_map(tables: &Tables) -> [Option<u32>; 6] {
    [
        lookup(tables, 0, &[10, 80]),
        lookup(tables, 1, &[5001]),
        lookup(tables, 1, &[80]),
        lookup(tables, 2, &[10]),
        lookup(tables, 3, &[10]),
        lookup_in(tables, 0, 1, &[5000]),
    ]
}

#[test]
fn own_indices_are_given_out_and_found_by_each_key(rt: HostRuntime) -> Result<(), Fail> {
    let mut tables = second_of_two(rt.alloc())?;
    let (a, b) = two_flows(&mut tables).ok_or("no index")?;
    let found = found_by_each_map(&tables);
    assert_eq!(rt; (a.min(b), a.max(b)), (1, 3));
    assert_eq!(rt;
        found.as_slice(),
        [Some(a), Some(b), None, None, None, Some(a)].as_slice()
    );
    assert_eq!(rt;
        (
            stamp(&tables, 0, b),
            greatest(&tables, 0),
            greatest(&tables, 1)
        ),
        (Some(7), 7, 0)
    );
    Ok(())
}

#[test]
fn a_bound_key_is_told_before_a_full_share(rt: HostRuntime) -> Result<(), Fail> {
    let mut tables = second_of_two(rt.alloc())?;
    let made = made(create(&mut tables, 0, &[10, 80, 5000, 2], 7)).is_some();
    let by_first = create(&mut tables, 0, &[10, 80, 5001, 2], 8);
    let by_second = create(&mut tables, 0, &[11, 80, 5000, 2], 8);
    let again = create(&mut tables, 0, &[11, 80, 5001, 2], 8).is_some();
    let full = create(&mut tables, 0, &[12, 1, 1, 1], 9);
    let bound = create(&mut tables, 0, &[10, 80, 1, 1], 9);
    assert!(rt; made && again && is_full(&tables, 0) && !is_full(&tables, 1));
    assert_eq!(rt;
        (by_first, by_second),
        (Some(Created::Taken), Some(Created::Taken))
    );
    assert_eq!(rt; (full, bound), (Some(Created::Full), Some(Created::Taken)));
    Ok(())
}

#[test]
fn an_expired_entry_is_found_by_no_key(rt: HostRuntime) -> Result<(), Fail> {
    let mut tables = second_of_two(rt.alloc())?;
    let made = create_at(&mut tables, 0, 1, &[10, 80, 5000, 2], 7)
        && create_at(&mut tables, 0, 3, &[11, 80, 5001, 2], 7);
    touch(&mut tables, 0, 3, 15);
    touch(&mut tables, 0, 0, 40);
    // The last tick counts.
    let are_due = (due(&tables, 0, 17), due(&tables, 0, 18));
    expire(&mut tables, 18);
    let stamps = (
        stamp(&tables, 0, 1),
        stamp(&tables, 0, 3),
        greatest(&tables, 0),
    );
    let found = (
        lookup(&tables, 0, &[10, 80]),
        lookup(&tables, 1, &[5000]),
        lookup(&tables, 1, &[5001]),
    );
    assert!(rt; made && !due(&tables, 0, 18));
    assert_eq!(rt; are_due, (false, true));
    assert_eq!(rt; stamps, (None, Some(15), 15));
    assert_eq!(rt; found, (None, None, Some(3)));
    Ok(())
}

#[test]
fn an_index_is_taken_where_it_is_own_and_free(rt: HostRuntime) -> Result<(), Fail> {
    let mut tables = second_of_two(rt.alloc())?;
    let taken = [
        create_at(&mut tables, 0, 3, &[11, 80, 5001, 2], 15),
        create_at(&mut tables, 0, 0, &[10, 80, 5000, 2], 18),
        create_at(&mut tables, 0, 3, &[10, 80, 5000, 2], 18),
        create_at(&mut tables, 0, 1, &[10, 80, 5001, 2], 18),
        create_at(&mut tables, 0, 1, &[10, 80, 5000, 2], 12),
    ];
    free(&mut tables, 0, 3);
    free(&mut tables, 0, 3);
    let found = (lookup(&tables, 0, &[11, 80]), lookup(&tables, 0, &[10, 80]));
    assert_eq!(rt;
        taken.as_slice(),
        [true, false, false, false, true].as_slice()
    );
    assert_eq!(rt; found, (None, Some(1)));
    assert_eq!(rt;
        (stamp(&tables, 0, 1), stamp(&tables, 0, 3)),
        (Some(15), None)
    );
    Ok(())
}

#[test]
fn columns_are_read_as_they_were_written(rt: HostRuntime) -> Result<(), Fail> {
    let mut tables = second_of_two(rt.alloc())?;
    let made = create_at(&mut tables, 0, 1, &[10, 80, 5000, 2], 7)
        && create_at(&mut tables, 0, 3, &[11, 81, 5001, 4], 7);
    // A free column, one past the columns, and one of an index that is not live.
    let set = set_cell(&mut tables, 0, 1, 4, 99)
        && set_cell(&mut tables, 0, 1, 5, 98)
        && set_cell(&mut tables, 0, 2, 4, 97);
    let labels = (cell(&tables, 0, 1, 0), cell(&tables, 0, 3, 3));
    let free = (cell(&tables, 0, 1, 4), cell(&tables, 0, 3, 4));
    let none = (
        cell(&tables, 0, 1, 5),
        cell(&tables, 0, 2, 4),
        cell(&tables, 5, 1, 0),
    );
    assert!(rt; made && set);
    assert_eq!(rt; (labels, free, none), ((10, 4), (99, 0), (0, 0, 0)));
    Ok(())
}

/// The same columns by their numbers among the labels or among the free columns.
#[test]
fn labels_and_free_columns_go_by_their_own_numbers(rt: HostRuntime) -> Result<(), Fail> {
    let mut tables = second_of_two(rt.alloc())?;
    let made = create_at(&mut tables, 0, 1, &[10, 80, 5000, 2], 7);
    set_column(&mut tables, 0, 1, 0, 99);
    set_column(&mut tables, 0, 1, 1, 98);
    set_column(&mut tables, 0, 3, 0, 97);
    let labels = (
        label(&tables, 0, 1, 0),
        label(&tables, 0, 1, 3),
        label(&tables, 0, 1, 4),
    );
    let free = (
        column(&tables, 0, 1, 0),
        column(&tables, 0, 1, 1),
        cell(&tables, 0, 1, 4),
    );
    let none = (
        label(&tables, 0, 3, 0),
        column(&tables, 0, 3, 0),
        column(&tables, 5, 1, 0),
    );
    assert!(rt; made);
    assert_eq!(rt; (labels, free, none), ((10, 2, 0), (99, 0, 99), (0, 0, 0)));
    Ok(())
}

#[test]
fn an_index_is_found_with_its_labels(rt: HostRuntime) -> Result<(), Fail> {
    let mut tables = second_of_two(rt.alloc())?;
    let made = create_at(&mut tables, 0, 1, &[10, 80, 5000, 2], 7);
    let found = [
        find_at(&tables, 0, 1, &[(0, 10), (3, 2)]),
        find_at(&tables, 0, 1, &[(0, 10), (3, 4)]),
        find_at(&tables, 0, 1, &[]),
        find_at(&tables, 0, 2, &[]),
        find_at(&tables, 0, 0x1_0000_0001, &[]),
    ];
    assert!(rt; made);
    assert_eq!(rt;
        found.as_slice(),
        [Some(1), None, Some(1), None, None].as_slice()
    );
    Ok(())
}

#[test]
fn past_an_array_is_nothing(rt: HostRuntime) -> Result<(), Fail> {
    let mut tables = second_of_two(rt.alloc())?;
    write_cell(&mut tables, 0, 1, 5);
    write_cell(&mut tables, 0, 4, 6);
    write_cell(&mut tables, 1, 0, 6);
    let within = (
        read_cell(&tables, 0, 0),
        read_cell(&tables, 0, 1),
        read_cell(&tables, 0, 3),
    );
    let past = (
        read_cell(&tables, 0, 4),
        read_cell(&tables, 0, 0x1_0000_0000),
        read_cell(&tables, 1, 0),
    );
    assert_eq!(rt; (within, past), ((7, 5, 9), (0, 0, 0)));
    Ok(())
}

#[test]
fn a_copy_goes_on_by_itself(rt: HostRuntime) -> Result<(), Fail> {
    let mut tables = second_of_two(rt.alloc())?;
    let made = create_at(&mut tables, 0, 3, &[11, 81, 5001, 4], 7);
    let mut copy = copy(rt.alloc(), &tables)?;
    let another = create_at(&mut copy, 1, 1, &[10], 8);
    free(&mut copy, 0, 3);
    let found = (lookup(&copy, 0, &[11, 81]), lookup(&copy, 2, &[10]));
    let left = (lookup(&tables, 0, &[11, 81]), lookup(&tables, 2, &[10]));
    assert!(rt; made && another);
    assert_eq!(rt; (found, left), ((None, Some(1)), (Some(3), None)));
    assert_eq!(rt; share(&copy), (1, 2));
    Ok(())
}

/// Whether an array of a state has these cells.
fn has_cells(state: &State, array: usize, cells: &[u128]) -> bool {
    match state.arrays.as_slice().get(array) {
        Some(found) => found.as_slice() == cells,
        None => false,
    }
}

/// Whether an entry has these labels, these free columns and this stamp.
fn is_entry(entry: &Entry, labels: &[u128], free: &[u128], stamp: u64) -> bool {
    entry.labels.as_slice() == labels && entry.columns.as_slice() == free && entry.stamp == stamp
}

/// Whether a chain has such an entry at index 3.
fn has_entry(chain: &Chain, labels: &[u128], free: &[u128], stamp: u64) -> bool {
    match chain.slots.as_slice().get(3) {
        Some(Some(entry)) => is_entry(entry, labels, free, stamp),
        Some(None) => false,
        None => false,
    }
}

/// Whether the flows of a state have five indices, this greatest stamp, and at index 3 such an
/// entry.
fn has_flow(state: &State, labels: &[u128], free: &[u128], stamp: u64, greatest: u64) -> bool {
    match state.chains.as_slice().first() {
        Some(flows) => {
            flows.slots.len() == 5
                && flows.greatest == greatest
                && has_entry(flows, labels, free, stamp)
        }
        None => false,
    }
}

#[test]
fn a_state_has_each_entry_with_its_parts(rt: HostRuntime) -> Result<(), Fail> {
    let mut tables = second_of_two(rt.alloc())?;
    let made = create_at(&mut tables, 0, 3, &[11, 81, 5001, 4], 7);
    let set = set_cell(&mut tables, 0, 3, 4, 99);
    let state = state(rt.alloc(), &tables)?;
    assert!(rt; made && set);
    assert!(rt; has_cells(&state, 0, &[7, 0, 0, 9]));
    assert!(rt; has_flow(&state, &[11, 81, 5001, 4], &[99], 7, 7));
    Ok(())
}
