//! The tables of shares as those of the whole.
ghost use Rattle.std.specs.Prelude.{◌≡◌, ◌≤◌, length, IfOk};
ghost use Rattle.vig_tables.specs.Union.{AreOf};

use crate::table_calls::{
    column, create, due, expire, greatest, is_full, label, lookup, read, read_cell, share, stamp,
};
use nf_base::func::Func;
use nf_base::share::Share;
use std::alloc::{AllocError, Global};
use std::test::Fail;
use vig_tables::{Created, Tables};

/// 64 hosts by address, for 10 nanoseconds, with what each used; and four cells.
const POLICER: &str = "nf policer { ports 1; \
chain hosts 64 lifetime 10 { map by_host(a: 32); free used: 32; } \
array cells 4: 64 = { 7, 0, 0, 9 }; \
on 0 { drop; } }";

/// A host at an index, what it used, and when.
#[derive(Clone, Copy)]
struct Host {
    index: u32,
    address: u128,
    used: u128,
    time: u64,
}

/// A cell that a queue's packets wrote.
#[derive(Clone, Copy)]
struct Change {
    queue: u32,
    cell: u128,
    value: u128,
}

/// Makes a host's entry, if its index is own.
fn enter(tables: &mut Tables, host: &Host)
    ensures { tables.new.decls ≡ tables.old.decls }
{
    if tables.label_count(0) != 1 {
        return;
    }
    if tables.create_at(0, host.index, &[host.address], host.time) {
        tables.set_column(0, host.index, 0, host.used);
    }
}

fn write_cell(tables: &mut Tables, one: &Change)
    ensures { tables.new.decls ≡ tables.old.decls }
{
    if tables.share().queue == one.queue {
        tables.write(0, one.cell, one.value);
    }
}

/// The tables of a share, with those of some hosts whose indices are own, and what it wrote.
fn part(
    alloc: Global,
    func: &Func,
    share: Share,
    hosts: &[Host],
    changes: &[Change],
) -> Result<Tables, AllocError>
    ensures { IfOk result (λ tables. tables.decls ≡ func.now.chains) }
{
    let mut tables = Tables::new(alloc, func, share)?;
    for host in hosts {
        enter(&mut tables, host);
    }
    for one in changes {
        write_cell(&mut tables, one);
    }
    Ok(tables)
}

/// The tables of each of so many shares.
fn parts(
    alloc: Global,
    func: &Func,
    of: u32,
    hosts: &[Host],
    changes: &[Change],
) -> Result<Vec<Tables>, AllocError>
    requires { of ≤ 16 }
    ensures count { IfOk result (λ parts. length parts.items ≡ of) }
    ensures of_one { IfOk result (λ parts. AreOf func.now.chains parts.items) }
{
    let mut parts = Vec::new(alloc);
    for queue in 0..of {
        parts.push(part(alloc, func, Share { queue, of }, hosts, changes)?)?;
    }
    Ok(parts)
}

/// The tables of the whole, from those of so many shares.
fn merged(
    alloc: Global,
    of: u32,
    hosts: &[Host],
    changes: &[Change],
    time: u64,
) -> Result<Tables, AllocError>
    requires some { 1 ≤ of }
    requires most { of ≤ 16 }
{
    let func = read(alloc, POLICER)?;
    let parts = parts(alloc, &func, of, hosts, changes)?;
    Tables::merge(alloc, &func, parts.as_slice(), time)
}

/// What stands at an index: stamp, address and what was used.
fn entry(tables: &Tables, i: u32) -> Option<(u64, u128, u128)> {
    let stamp = stamp(tables, 0, i)?;
    Some((stamp, label(tables, 0, i, 0), column(tables, 0, i, 0)))
}

fn found(tables: &Tables, address: u128) -> Option<u32> {
    lookup(tables, 0, &[address])
}

/// Two hosts of two queues: of the second nothing was seen since it came.
const TWO: [Host; 2] = [
    Host {
        index: 1,
        address: 0x8000_0001,
        used: 42,
        time: 0,
    },
    Host {
        index: 2,
        address: 0x0a00_0001,
        used: 42,
        time: 11,
    },
];

#[test]
fn each_share_expires_at_the_last_packets_time(rt: HostRuntime) -> Result<(), Fail> {
    let tables = merged(rt.alloc(), 2, &TWO, &[], 11)?;
    assert_eq!(rt;
        (entry(&tables, 1), entry(&tables, 2)),
        (None, Some((11, 0x0a00_0001, 42)))
    );
    assert_eq!(rt;
        (found(&tables, 0x8000_0001), found(&tables, 0x0a00_0001)),
        (None, Some(2))
    );
    assert_eq!(rt; (greatest(&tables, 0), share(&tables).1), (11, 1));
    Ok(())
}

#[test]
fn the_last_tick_counts_in_each_share(rt: HostRuntime) -> Result<(), Fail> {
    let tables = merged(rt.alloc(), 2, &TWO, &[], 10)?;
    assert_eq!(rt;
        (entry(&tables, 1), entry(&tables, 2)),
        (Some((0, 0x8000_0001, 42)), Some((11, 0x0a00_0001, 42)))
    );
    assert_eq!(rt;
        (found(&tables, 0x8000_0001), found(&tables, 0x0a00_0001)),
        (Some(1), Some(2))
    );
    Ok(())
}

/// What the four cells of the array hold.
fn cells_of(tables: &Tables) -> [u128; 4] {
    [
        read_cell(tables, 0, 0),
        read_cell(tables, 0, 1),
        read_cell(tables, 0, 2),
        read_cell(tables, 0, 3),
    ]
}

#[test]
fn a_cell_is_the_changed_copy_of_whichever_share(rt: HostRuntime) -> Result<(), Fail> {
    let changes = [
        Change {
            queue: 0,
            cell: 1,
            value: 5,
        },
        Change {
            queue: 2,
            cell: 0,
            value: 0,
        },
        Change {
            queue: 1,
            cell: 3,
            value: 9,
        },
        Change {
            queue: 2,
            cell: 2,
            value: 8,
        },
    ];
    let tables = merged(rt.alloc(), 3, &[], &changes, 0)?;
    assert_eq!(rt; cells_of(&tables).as_slice(), [0, 5, 8, 9].as_slice());
    Ok(())
}

/// When the host of an index of sixteen shares came: later ones of one share later, those of others
/// before and after it.
fn came(index: u32) -> u64 {
    let number = u64::from(index);
    100 + number / 16 * 2 + number % 16 * 7 % 5
}

/// A host at each of 64 indices.
fn sixty_four(alloc: Global) -> Result<Vec<Host>, AllocError> {
    let mut hosts = Vec::with_capacity(alloc, 64)?;
    for index in 0..64u32 {
        let number = u128::from(index);
        hosts.push(Host {
            index,
            address: 1000 + number,
            used: number,
            time: came(index),
        })?;
    }
    Ok(hosts)
}

/// How many of 64 hosts are found at their index with what they used.
fn found_as_made(tables: &Tables) -> u32 {
    let mut count = 0u32;
    for i in 0..64u32 {
        let number = u128::from(i);
        let stands = entry(tables, i) == Some((came(i), 1000 + number, number));
        if stands && found(tables, 1000 + number) == Some(i) {
            count = count.saturating_add(1);
        }
    }
    count
}

/// How many of 64 indices are live after an expiry.
fn live_after(tables: &mut Tables, time: u64) -> u32 {
    expire(tables, time);
    let mut count = 0u32;
    for i in 0..64u32 {
        if stamp(tables, 0, i).is_some() {
            count = count.saturating_add(1);
        }
    }
    count
}

#[test]
fn sixteen_shares_stand_in_the_order_of_their_stamps(rt: HostRuntime) -> Result<(), Fail> {
    let hosts = sixty_four(rt.alloc())?;
    let mut tables = merged(rt.alloc(), 16, hosts.as_slice(), &[], 110)?;
    assert_eq!(rt; (found_as_made(&tables), greatest(&tables, 0)), (64, 110));
    assert!(rt; is_full(&tables, 0) && !due(&tables, 0, 110) && due(&tables, 0, 111));
    // At 114 what was stamped before 104 is past its lifetime.
    assert_eq!(rt; live_after(&mut tables, 114), 44);
    assert_eq!(rt; live_after(&mut tables, 118), 12);
    assert_eq!(rt; live_after(&mut tables, 121), 0);
    Ok(())
}

#[test]
fn the_whole_goes_on_where_the_shares_left_off(rt: HostRuntime) -> Result<(), Fail> {
    let mut tables = merged(rt.alloc(), 2, &TWO, &[], 11)?;
    let taken = create(&mut tables, 0, &[0x0a00_0001], 12);
    let made = create(&mut tables, 0, &[0x8000_0001], 5);
    assert_eq!(rt; taken, Some(Created::Taken));
    assert!(rt; matches!(made, Some(Created::Made(_))));
    assert_eq!(rt;
        found(&tables, 0x8000_0001).and_then(|i| stamp(&tables, 0, i)),
        Some(11)
    );
    Ok(())
}
