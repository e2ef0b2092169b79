//! How many paths blocks have that are made up, listed or counted, or why they are not listed; and how many statements
//! they come to.

mod blocks;

use crate::paths::blocks::{hub, nested, numbers, tests};
use nf_base::block::Block;
use nf_base::packet::{Door, Family};
use path_walk::{
    WalkFault, all_statements, block_path_count, block_paths, count_paths, paths, reached,
};
use std::alloc::{AllocError, Global};
use std::io;

/// How many paths a block has.
fn count(alloc: Global, block: Result<Block, AllocError>) -> Result<usize, WalkFault> {
    let block = block?;
    let all = block_paths(alloc, &block)?;
    Ok(all.len())
}

/// The handler of a port for IPv4.
fn door_at(port: u32) -> Door {
    Door {
        port,
        family: Family::Four,
    }
}

/// How many paths a port of a function has.
fn count_port(alloc: Global, port: u32) -> Result<usize, WalkFault> {
    let func = hub(alloc)?;
    let all = paths(alloc, &func, door_at(port))?;
    Ok(all.len())
}

/// The number of a block's paths, which are not listed.
fn number(alloc: Global, block: Result<Block, AllocError>) -> Result<usize, WalkFault> {
    let block = block?;
    Ok(block_path_count(alloc, &block)? as usize)
}

/// And of a port's.
fn port_number(alloc: Global, port: u32) -> Result<usize, WalkFault> {
    let func = hub(alloc)?;
    Ok(count_paths(alloc, &func, door_at(port))? as usize)
}

fn print_count(rt: &HostRuntime, name: &str, count: Result<usize, WalkFault>) -> io::Result<()> {
    match count {
        Ok(count) => println!(rt; "{name}: {count}"),
        Err(fault) => println!(rt; "{name}: {fault}"),
    }
}

/// How many of a block's statements its feasible paths come to, and how many it has.
fn reached_of(
    alloc: Global,
    block: Result<Block, AllocError>,
) -> Result<(usize, usize), AllocError> {
    let block = block?;
    let marks = reached(alloc, &block)?;
    let count = marks.as_slice().iter().filter(|mark| **mark).count();
    Ok((count, all_statements(alloc, &block)?.len()))
}

fn print_reached(rt: &HostRuntime, name: &str, block: Result<Block, AllocError>) -> io::Result<()> {
    match reached_of(rt.alloc(), block) {
        Ok((count, all)) => println!(rt; "{name}, reached: {count} of {all} statements"),
        Err(_) => println!(rt; "{name}: out of memory"),
    }
}

/// How many paths are listed.
fn print_all_listed(rt: &HostRuntime) -> io::Result<()> {
    let alloc = rt.alloc();
    print_count(
        rt,
        "131072 tests of one text",
        count(alloc, tests(alloc, 131_072, 1)),
    )?;
    print_count(rt, "12 texts", count(alloc, tests(alloc, 12, 12)))?;
    print_count(rt, "13 texts", count(alloc, tests(alloc, 13, 13)))?;
    print_count(
        rt,
        "40000 tests of 12 texts",
        count(alloc, tests(alloc, 40_000, 12)),
    )?;
    print_count(
        rt,
        "100000 texts",
        count(alloc, tests(alloc, 100_000, 100_000)),
    )?;
    print_count(
        rt,
        "two numbers of a field",
        count(alloc, numbers(alloc, 2)),
    )?;
    print_count(
        rt,
        "4095 numbers of a field",
        count(alloc, numbers(alloc, 4095)),
    )?;
    print_count(
        rt,
        "4096 numbers of a field",
        count(alloc, numbers(alloc, 4096)),
    )?;
    print_count(
        rt,
        "40 bounds of a field",
        count(alloc, tests(alloc, 40, 40)),
    )?;
    print_count(rt, "64 blocks deep", count(alloc, nested(alloc, 64)))?;
    print_count(rt, "port 0 of a hub", count_port(alloc, 0))?;
    print_count(rt, "port 1 of it", count_port(alloc, 1))
}

/// How many paths are counted.
fn print_all_counted(rt: &HostRuntime) -> io::Result<()> {
    let alloc = rt.alloc();
    print_count(
        rt,
        "40000 tests of 12 texts, counted",
        number(alloc, tests(alloc, 40_000, 12)),
    )?;
    print_count(rt, "13 texts, counted", number(alloc, tests(alloc, 13, 13)))?;
    print_count(
        rt,
        "100000 texts, counted",
        number(alloc, tests(alloc, 100_000, 100_000)),
    )?;
    print_count(
        rt,
        "4095 numbers of a field, counted",
        number(alloc, numbers(alloc, 4095)),
    )?;
    print_count(
        rt,
        "4096 numbers of a field, counted",
        number(alloc, numbers(alloc, 4096)),
    )?;
    print_count(rt, "port 0 of a hub, counted", port_number(alloc, 0))?;
    print_count(rt, "port 1 of it, counted", port_number(alloc, 1))
}

/// How many statements their paths come to.
fn print_all_reached(rt: &HostRuntime) -> io::Result<()> {
    let alloc = rt.alloc();
    print_reached(rt, "131072 tests of one text", tests(alloc, 131_072, 1))?;
    print_reached(rt, "40000 tests of 12 texts", tests(alloc, 40_000, 12))?;
    print_reached(rt, "4095 numbers of a field", numbers(alloc, 4095))?;
    print_reached(rt, "64 blocks deep", nested(alloc, 64))
}

/// Prints how many paths and statements each block has.
pub fn print_all(rt: &HostRuntime) -> io::Result<()> {
    print_all_listed(rt)?;
    print_all_counted(rt)?;
    print_all_reached(rt)
}
