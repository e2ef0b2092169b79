//! What is wrong with the handlers of a function.

ghost use Rattle.std.specs.Prelude.{◌≡◌, ◌++◌, [], map, IfOk};
ghost use Rattle.nf_tree.specs.View as syntax;
ghost use Rattle.nf_types.specs.declared.fault.TypingKind.TheVariants.{NoHandler};
ghost use Rattle.nf_types.specs.Faults.{first, fault_in, fault_if, each_behind};
ghost use Rattle.nf_types.specs.Small.{AreSmall};
ghost use Rattle.nf_types.specs.TextFaults.{is_handled, lacks_handler, handler_faults};

use crate::block_rules::block;
use crate::fault::{Fault, TypingKind, refuse_if};
use crate::handler::is_at;
use crate::objects::Objects;
use crate::room::Room;
use crate::variables::Variables;
use nf_base::packet::Family;
use nf_tokens::Place;
use nf_tree::HandlerTree;

/// Whether a port has a handler for a version of IP among these.
fn is_handled(handlers: &[HandlerTree], port: u64, family: Family) -> bool
    ensures { result ≡ is_handled port family (map syntax.handler_of handlers.now) }
{
    for one in handlers {
        if is_at(one, port, family) {
            return true;
        }
    }
    false
}

/// A handler behind those before it.
#[tactic(auto, using(crate::proofs::First::first_append), unfolding(crate::specs::TextFaults::handler_faults))]
fn handler(
    ports: u64,
    objects: &Objects,
    before: &[HandlerTree],
    one: &HandlerTree,
) -> Result<(), Fault>
    ensures { first (handler_faults ports objects.now (map syntax.handler_of before.now)
        (syntax.handler_of one.now)) ≡ fault_in result }
{
    let port = one.port.value;
    let is_second = is_handled(before, port, one.family);
    refuse_if(is_second, TypingKind::Twice, one.port.place)?;
    refuse_if(ports <= port, TypingKind::Limit, one.port.place)?;
    block(
        one.family,
        objects,
        Room::whole(),
        &Variables::Empty,
        &one.block,
    )?;
    Ok(())
}

/// The handlers one by one.
fn each_handler(ports: u64, objects: &Objects, handlers: &[HandlerTree]) -> Result<(), Fault>
    ensures { first (each_behind (handler_faults ports objects.now) []
        (map syntax.handler_of handlers.now)) ≡ fault_in result }
{
    for (i, one) in handlers.iter().enumerate() {
        handler(ports, objects, &handlers[..i], one)?;
    }
    Ok(())
}

/// Whether some port has no handler for IPv4.
fn lacks_handler(ports: u64, handlers: &[HandlerTree]) -> bool
    ensures { result ≡ lacks_handler ports (map syntax.handler_of handlers.now) }
{
    for port in 0..ports {
        if !is_handled(handlers, port, Family::Four) {
            return true;
        }
    }
    false
}

/// The handlers of a function: one for IPv4 at each port, and one for IPv6 at most.
#[tactic(auto, using(crate::proofs::First::first_append, crate::proofs::Small::are_small))]
pub fn handlers(
    ports: u64,
    objects: &Objects,
    handlers: &[HandlerTree],
    end: Place,
) -> Result<(), Fault>
    ensures fault { first
        (each_behind (handler_faults ports objects.now) [] (map syntax.handler_of handlers.now)
        ++ fault_if (lacks_handler ports (map syntax.handler_of handlers.now)) NoHandler end)
        ≡ fault_in result }
    ensures small { IfOk result (λ _. AreSmall (map syntax.handler_of handlers.now)) }
{
    each_handler(ports, objects, handlers)?;
    refuse_if(lacks_handler(ports, handlers), TypingKind::NoHandler, end)
}
