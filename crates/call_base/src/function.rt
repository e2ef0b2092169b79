//! The network function, from its text.
ghost use Rattle.std.specs.Prelude.{◌≡◌, ◌≤◌, [], IfOk, OnOk, IfErr, IfSome, Some, map, length};
ghost use Rattle.nf_base.specs.Functions.{function_of};
ghost use Rattle.nf_tree.specs.View.{handler_of, tree_of};
ghost use Rattle.nf_types.specs.Function.{function, is_at};
ghost use Rattle.nf_types.specs.TextFaults.{faults};
ghost use Rattle.call_base.specs.Source.{six_door, path_count, six_count, port_counts, path_counts, HasFewPaths, Reads};
ghost use Rattle.call_base.specs.Walking.{HasFewAt, IsPast, IsUncountedAt, FindsHandler, IsUncounted, Checks};

use crate::status::{Fault, TextFault};
use nf_base::func::Func;
use nf_base::packet::{Door, Family};
use nf_syntax::{ParseFault, parse};
use nf_tokens::Place;
use nf_tree::{HandlerTree, Tree};
use nf_types::{CheckFault, check};
use path_walk::{WalkFault, count_paths};
use std::alloc::Global;

/// How many feasible paths the handlers of a port have.
#[derive(Clone, Copy, Debug, PartialEq, Eq)]
pub struct PathCounts {
    /// Of its handler for IPv4.
    pub four: u32,
    /// Of its handler for IPv6, where it has one.
    pub six: Option<u32>,
}

/// A network function, with how many feasible paths the handlers of each port have.
#[derive(Drop)]
pub struct Source {
    pub func: Func,
    pub paths: Vec<PathCounts>,
}

/// Why a text is no function.
#[derive(Clone, Copy, Debug, PartialEq, Eq)]
pub enum Unread {
    /// It breaks the grammar, a rule, or the limit of paths.
    Text(TextFault),
    Memory,
}

/// Why paths are not counted.
#[derive(Clone, Copy, Debug, PartialEq, Eq)]
pub enum Uncounted {
    /// This handler is the first that has more than 4,096: by port, and at a port that for IPv4
    /// before that for IPv6.
    TooMany { door: Door },
    Memory,
}

// How many feasible paths a handler has: none where there is no such handler.
#[tactic(auto, using(crate::proofs::Walked::counted_at))]
fn handler_counted(alloc: Global, func: &Func, door: Door) -> Result<u32, Uncounted>
    ensures count { IfOk result (λ n. n ≡ path_count (function_of func.now) door) }
    ensures few { OnOk result (path_count (function_of func.now) door ≤ 4096) }
    ensures many { IfErr result (IsPast (function_of func.now) door) }
{
    match count_paths(alloc, func, door) {
        Ok(count) => Ok(count),
        Err(WalkFault::TooManyPaths) => Err(Uncounted::TooMany { door }),
        Err(WalkFault::Memory) => Err(Uncounted::Memory),
    }
}

// How many feasible paths a port's handler for IPv6 has, where it has one.
#[tactic(auto, using(crate::proofs::Walked::no_six))]
fn six_counted(alloc: Global, func: &Func, port: u32) -> Result<Option<u32>, Uncounted>
    ensures count { IfOk result (λ n. n ≡ six_count (function_of func.now) port) }
    ensures few { OnOk result (path_count (function_of func.now) (six_door port) ≤ 4096) }
    ensures many { IfErr result (IsPast (function_of func.now) (six_door port)) }
{
    let door = Door {
        port,
        family: Family::Six,
    };
    if func.has_six(port) {
        match handler_counted(alloc, func, door) {
            Ok(count) => Ok(Some(count)),
            Err(uncounted) => Err(uncounted),
        }
    } else {
        Ok(None)
    }
}

// How many feasible paths the handlers of a port have.
#[tactic(auto, using(crate::proofs::Walked::few_both, crate::proofs::Walked::past_four, crate::proofs::Walked::past_six))]
fn port_counted(alloc: Global, func: &Func, port: u32) -> Result<PathCounts, Uncounted>
    ensures counts { IfOk result (λ counts. counts ≡ port_counts (function_of func.now) port) }
    ensures few { OnOk result (HasFewAt (function_of func.now) port) }
    ensures many { IfErr result (IsUncountedAt (function_of func.now) port) }
{
    let door = Door {
        port,
        family: Family::Four,
    };
    match handler_counted(alloc, func, door) {
        Ok(four) => match six_counted(alloc, func, port) {
            Ok(six) => Ok(PathCounts { four, six }),
            Err(uncounted) => Err(uncounted),
        },
        Err(uncounted) => Err(uncounted),
    }
}

// How many feasible paths the handlers of each port have.
fn counted(alloc: Global, func: &Func) -> Result<Vec<PathCounts>, Uncounted>
    ensures counts { IfOk result (λ counts. counts.items ≡ path_counts (function_of func.now)) }
    ensures few { OnOk result (HasFewPaths (function_of func.now)) }
    ensures many { IfErr result (IsUncounted (function_of func.now)) }
{
    let mut counts = Vec::new(alloc);
    'ports: for port in 0..func.handlers.len() {
        match port_counted(alloc, func, port) {
            Ok(count) => match counts.push(count) {
                Ok(()) => {}
                Err(_) => return Err(Uncounted::Memory),
            },
            Err(uncounted) => return Err(uncounted),
        }
    }
    Ok(counts)
}

// Whether a handler is that of a port for a family.
fn is_at(handler: &HandlerTree, door: Door) -> bool
    ensures { result ≡ is_at door.port door.family (handler_of handler.now) }
{
    let same = match (handler.family, door.family) {
        (Family::Four, Family::Four) | (Family::Six, Family::Six) => true,
        (Family::Four, Family::Six) | (Family::Six, Family::Four) => false,
    };
    handler.port.value == u64::from(door.port) && same
}

// Where the handler of a port for a family stands in a text.
fn handler_place(handlers: &[HandlerTree], door: Door) -> Option<Place>
    ensures { FindsHandler (map handler_of handlers.now) door result }
{
    for one in handlers {
        if is_at(one, door) {
            return Some(one.place);
        }
    }
    None
}

// A function, with how many feasible paths its handlers have.
fn walked(alloc: Global, tree: &Tree, func: Func) -> Result<Source, Unread>
    requires faultless { faults (tree_of tree.now) ≡ [] }
    requires stands_for { function_of func ≡ function (tree_of tree.now) }
    ensures { Checks (tree_of tree.now) result }
{
    match counted(alloc, &func) {
        Ok(paths) => Ok(Source { func, paths }),
        Err(Uncounted::Memory) => Err(Unread::Memory),
        Err(Uncounted::TooMany { door }) => match handler_place(tree.handlers.as_slice(), door) {
            Some(place) => Err(Unread::Text(TextFault {
                kind: Fault::TooManyPaths,
                line: place.line,
                column: place.column,
            })),
            // A handler that has paths stands in the text.
            None => unreachable!(),
        },
    }
}

// The network function that a tree stands for.
fn function_of_tree(alloc: Global, tree: &Tree) -> Result<Source, Unread>
    ensures { Checks (tree_of tree.now) result }
{
    match check(alloc, tree) {
        Ok(func) => walked(alloc, tree, func),
        Err(CheckFault::Typing { kind, line, column }) => Err(Unread::Text(TextFault {
            kind: Fault::Typing(kind),
            line,
            column,
        })),
        Err(CheckFault::Memory) => Err(Unread::Memory),
    }
}

/// The network function that a text is.
pub fn function_in(alloc: Global, text: &[u8]) -> Result<Source, Unread>
    ensures { Reads text.now result }
{
    match parse(alloc, text) {
        Ok(tree) => function_of_tree(alloc, &tree),
        Err(ParseFault::Syntax { kind, line, column }) => Err(Unread::Text(TextFault {
            kind: Fault::Syntax(kind),
            line,
            column,
        })),
        Err(ParseFault::Memory) => Err(Unread::Memory),
    }
}
