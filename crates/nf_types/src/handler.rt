//! The checked handlers of a function, by port.

ghost use Rattle.std.specs.Prelude.{◌≡◌, ◌+◌, ◌<◌, ◌≤◌, ◌^◌, nat_lt, length, map, IfOk, IfSome};
ghost use Rattle.std.specs.List.{range_with_len};
ghost use Rattle.std.specs.Option.{option_map};
ghost use Rattle.nf_base.specs.Handlers.{blocks_of};
ghost use Rattle.nf_base.specs.View as checked;
ghost use Rattle.nf_tree.specs.View as syntax;
ghost use Rattle.nf_types.specs.Places.{places};
ghost use Rattle.nf_types.specs.Function.{is_at, all_places, block_at, checked_found, four_at, six_at, handlers_of};
ghost use Rattle.nf_types.specs.Small.{IsSmall, AreSmall};

use crate::block::block;
use crate::field::same_family;
use crate::objects::Objects;
use crate::places::{places, places_left};
use crate::variables::Variables;
use nf_base::block::{Block, Ending};
use nf_base::handler::Handler;
use nf_base::limited::Limited;
use nf_base::packet::Family;
use nf_base::port_handlers::PortHandlers;
use nf_tree::HandlerTree;
use std::alloc::{AllocError, Global};

/// Whether a handler is that of a port for a version of IP.
pub fn is_at(handler: &HandlerTree, port: u64, family: Family) -> bool
    ensures { result ≡ is_at port family (syntax.handler_of handler.now) }
{
    handler.port.value == port && same_family(handler.family, family)
}

/// Whether the places of all handlers are less than 2^32.
pub fn can_be_numbered(handlers: &[HandlerTree]) -> bool
    ensures { result ≡ nat_lt (all_places (map syntax.handler_of handlers.now)) (2 ^ 32) }
{
    let mut left = u32::MAX;
    for one in handlers {
        match places_left(left, &one.block) {
            Some(behind) => left = behind,
            None => return false,
        }
    }
    true
}

/// The handler of a port for a version of IP, and how many places stand before it.
fn tree_at(handlers: &[HandlerTree], port: u64, family: Family) -> Option<(u32, &HandlerTree)>
    requires places { all_places (map syntax.handler_of handlers.now) < 2 ^ 32 }
    requires small { AreSmall (map syntax.handler_of handlers.now) }
    ensures found { option_map (λ x. (x.0, syntax.block_of x.1.now.block)) result
        ≡ block_at port family 0 (map syntax.handler_of handlers.now) }
    ensures small { IfSome result (λ x. IsSmall (syntax.block_of x.1.now.block)) }
    ensures places { IfSome result (λ x. x.0 + places (syntax.block_of x.1.now.block) < 2 ^ 32) }
{
    let mut before = 0;
    let mut rest = handlers;
    while let [first, others @ ..] = rest {
        if is_at(first, port, family) {
            return Some((before, first));
        }
        before += places(&first.block);
        rest = others;
    }
    None
}

/// A handler that was found, with so many places before it.
fn handler(
    alloc: Global,
    objects: &Objects,
    before: u32,
    text: &HandlerTree,
) -> Result<Handler, AllocError>
    requires places { before + places (syntax.block_of text.now.block) < 2 ^ 32 }
    requires small { IsSmall (syntax.block_of text.now.block) }
    ensures { IfOk result (λ h. checked.block_of h.block
        ≡ checked_found objects.now (before, syntax.block_of text.now.block)) }
{
    let (block, _) = block(alloc, before, objects, &Variables::Empty, &text.block)?;
    Ok(Handler { block })
}

/// The handler of a port for IPv4.
#[tactic(auto, unfolding(crate::specs::Function::four_at))]
fn four(
    alloc: Global,
    objects: &Objects,
    handlers: &[HandlerTree],
    port: u32,
) -> Result<Handler, AllocError>
    requires places { all_places (map syntax.handler_of handlers.now) < 2 ^ 32 }
    requires small { AreSmall (map syntax.handler_of handlers.now) }
    ensures { IfOk result (λ h. checked.block_of h.block
        ≡ four_at objects.now (map syntax.handler_of handlers.now) port) }
{
    match tree_at(handlers, u64::from(port), Family::Four) {
        Some((before, text)) => handler(alloc, objects, before, text),
        None => Ok(Handler {
            block: Block::End(Ending::FallsOff),
        }),
    }
}

/// The handler of a port for IPv6, where it has one.
#[tactic(auto, unfolding(crate::specs::Function::six_at))]
fn six(
    alloc: Global,
    objects: &Objects,
    handlers: &[HandlerTree],
    port: u32,
) -> Result<Option<Handler>, AllocError>
    requires places { all_places (map syntax.handler_of handlers.now) < 2 ^ 32 }
    requires small { AreSmall (map syntax.handler_of handlers.now) }
    ensures { IfOk result (λ six. option_map (λ h. checked.block_of h.block) six
        ≡ six_at objects.now (map syntax.handler_of handlers.now) port) }
{
    match tree_at(handlers, u64::from(port), Family::Six) {
        Some((before, text)) => Ok(Some(handler(alloc, objects, before, text)?)),
        None => Ok(None),
    }
}

/// The handlers of a function, by port.
pub fn handlers(
    alloc: Global,
    objects: &Objects,
    ports: u32,
    handlers: &[HandlerTree],
) -> Result<Limited<PortHandlers, 4>, AllocError>
    requires few_ports { ports ≤ 4 }
    requires places { all_places (map syntax.handler_of handlers.now) < 2 ^ 32 }
    requires small { AreSmall (map syntax.handler_of handlers.now) }
    ensures found { IfOk result (λ hs. map blocks_of hs
        ≡ handlers_of objects.now ports (map syntax.handler_of handlers.now)) }
    ensures all { IfOk result (λ hs. length hs ≡ ports) }
{
    let mut all = Limited::new(alloc);
    for port in 0..ports {
        let four = four(alloc, objects, handlers, port)?;
        let six = six(alloc, objects, handlers, port)?;
        all.push(PortHandlers { four, six })?;
    }
    Ok(all)
}
