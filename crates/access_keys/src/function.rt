//! The sites of a function.
ghost use Rattle.std.specs.Prelude.{◌≡◌, ◌++◌, ◌<◌, IfOk, OnOk, length, map};
ghost use Rattle.nf_base.specs.Functions.{function_of};
ghost use Rattle.nf_base.specs.Doors.{handler_at, doors_at};
ghost use Rattle.nf_base.specs.View.{block_of};
ghost use Rattle.std.specs.Prelude.{Some};
ghost use Rattle.std.specs.List.{flat_map};
ghost use Rattle.nf_sites.specs.OnPaths.{door_sites, sites_of};
ghost use Rattle.nf_sites.specs.CoverLaws.{Covers};
ghost use Rattle.access_keys.specs.Together.{new_seen, all_set};
ghost use Rattle.access_keys.specs.Told.{IsTold, sites_told};

use crate::access::Here;
use crate::creation::{NewFields, all_new};
use crate::places::places_marked;
use crate::site::Site;
use crate::statement::put_statements;
use nf_base::block::Block;
use nf_base::func::Func;
use nf_base::packet::{Door, Family};
use path_walk::{all_statements, reached};
use std::alloc::{AllocError, Global};

/// The sites of a handler's text that stand on its feasible paths, behind others.
fn put_text(
    alloc: Global,
    func: &Func,
    all: &[NewFields],
    door: Door,
    block: &Block,
    sites: &mut Vec<Site>,
) -> Result<(), AllocError>
    requires here { handler_at (function_of func.now) door ≡ Some (block_of block.now) }
    requires all { map new_seen all.now ≡ all_set (function_of func.now) }
    ensures { OnOk result (sites.new.items ≡ sites.old.items ++ sites_told (function_of func.now)
        (door_sites (function_of func.now) door)) }
{
    let statements = all_statements(alloc, block)?;
    let lines = statements.as_slice();
    let marks = reached(alloc, block)?;
    let places = places_marked(alloc, lines, marks.as_slice())?;
    let here = Here::of(door, func.chains.as_slice(), all, &places);
    put_statements(alloc, &here, lines, sites)
}

/// The sites of a handler, where there is one, behind others.
fn put_handler(
    alloc: Global,
    func: &Func,
    all: &[NewFields],
    door: Door,
    sites: &mut Vec<Site>,
) -> Result<(), AllocError>
    requires all { map new_seen all.now ≡ all_set (function_of func.now) }
    ensures { OnOk result (sites.new.items ≡ sites.old.items ++ sites_told (function_of func.now)
        (door_sites (function_of func.now) door)) }
{
    match func.handler_at(door) {
        None => Ok(()),
        Some(handler) => put_text(alloc, func, all, door, &handler.block, sites),
    }
}

/// The sites of a port's handlers, behind others.
fn put_port(
    alloc: Global,
    func: &Func,
    all: &[NewFields],
    port: u32,
    sites: &mut Vec<Site>,
) -> Result<(), AllocError>
    requires all { map new_seen all.now ≡ all_set (function_of func.now) }
    ensures { OnOk result (sites.new.items ≡ sites.old.items ++ sites_told (function_of func.now)
        (flat_map (door_sites (function_of func.now)) (doors_at port))) }
{
    let four = Door {
        port,
        family: Family::Four,
    };
    put_handler(alloc, func, all, four, sites)?;
    let six = Door {
        port,
        family: Family::Six,
    };
    put_handler(alloc, func, all, six, sites)
}

/// The sites of a function by port, those of its IPv4 handler first, and then in text order, each with the labels that it knows. A
/// `new` is followed at once by its look-ups, one of each map of its chain. Only want of memory is
/// an error.
///
/// The work is bounded by the feasible paths times the text's length, and by the sites times the
/// labels of a chain. No path is kept. Of a function of untold origin count the paths first
/// (`path_walk::count_paths`): their number may be two to the number of its tests.
pub fn sites(alloc: Global, func: &Func) -> Result<Vec<Site>, AllocError>
    ensures all { IfOk result (λ all. all.items ≡ sites_told (function_of func.now)
        (sites_of (function_of func.now))) }
    // Whatever the state, the choices and the numbers of entries, each location that a handled
    // packet touches it touches at one of these.
    ensures cover { IfOk result (λ all. Covers (function_of func.now)
        (IsTold (function_of func.now) all.items)) }
{
    let all = all_new(alloc, func)?;
    let mut sites = Vec::new(alloc);
    for port in 0..func.handlers.len() {
        put_port(alloc, func, all.as_slice(), port, &mut sites)?;
    }
    Ok(sites)
}
