//! The checked block that a block of the text stands for. Questions and creations are dropped by
//! calls, as values are in `value`.

ghost use Rattle.std.specs.Prelude.{◌≡◌, ◌+◌, ◌<◌, ◌≤◌, ◌^◌, length, IfOk};
ghost use Rattle.nf_base.specs.View as checked;
ghost use Rattle.nf_tree.specs.declared.block.Block.{size-Block};
ghost use Rattle.nf_tree.specs.View as syntax;
ghost use Rattle.nf_types.specs.Blocks.{checked_block};
ghost use Rattle.nf_types.specs.Parts.{in_front, rest_of, checked_rest, rest_places, rest_seen, rest_size};
ghost use Rattle.nf_types.specs.Places.{places};
ghost use Rattle.nf_types.specs.View.{variables_of};

use crate::creation::creation;
use crate::ending::ending;
use crate::objects::Objects;
use crate::operation::operation;
use crate::part::{Part, joined};
use crate::places::{creation_places, ending_places, operation_places, question_places};
use crate::question::question;
use crate::variables::{Variables, bound, bound_by};
use nf_base::block::Block as Checked;
use nf_tree::Block;
use std::alloc::{AllocError, Global};

/// What follows a statement.
fn behind(text: &Block) -> Option<&Block>
    ensures same { rest_seen result ≡ rest_of (syntax.block_of text.now) }
    ensures smaller { rest_size result ≤ size-Block text.now }
{
    match text {
        Block::End(_) => None,
        Block::Do { next, .. } => Some(next),
        Block::Ask { next, .. } => Some(next),
        Block::Make { next, .. } => Some(next),
    }
}

/// A block in a box, and how many places stand before what follows it.
#[cycle(blocks)]
fn boxed(
    alloc: Global,
    place: u32,
    objects: &Objects,
    scope: &Variables,
    text: &Block,
) -> Result<(Box<Checked>, u32), AllocError>
    requires places { place + places (syntax.block_of text.now) < 2 ^ 32 }
    requires in_scope { length (variables_of scope.now) ≤ place }
    ensures made { IfOk result (λ r. checked.block_of r.0.value
        ≡ checked_block place objects.now (variables_of scope.now) (syntax.block_of text.now)) }
    ensures behind { IfOk result (λ r. r.1 ≡ place + places (syntax.block_of text.now)) }
{
    let (made, behind) = block(alloc, place, objects, scope, text)?;
    let made = Box::new(alloc, made)?;
    Ok((made, behind))
}

/// Two blocks, the first with variables that the second may not have.
#[cycle(blocks)]
fn two(
    alloc: Global,
    place: u32,
    objects: &Objects,
    inner: &Variables,
    scope: &Variables,
    first: &Block,
    second: &Block,
) -> Result<(Box<Checked>, Box<Checked>, u32), AllocError>
    requires places { place + places (syntax.block_of first.now) + places
        (syntax.block_of second.now) < 2 ^ 32 }
    requires inner { length (variables_of inner.now) ≤ place }
    requires in_scope { length (variables_of scope.now) ≤ place }
    ensures first { IfOk result (λ r. checked.block_of r.0.value
        ≡ checked_block place objects.now (variables_of inner.now) (syntax.block_of first.now)) }
    ensures second { IfOk result (λ r. checked.block_of r.1.value
        ≡ checked_block (place + places (syntax.block_of first.now)) objects.now
        (variables_of scope.now) (syntax.block_of second.now)) }
    ensures behind { IfOk result (λ r. r.2
        ≡ place + places (syntax.block_of first.now) + places (syntax.block_of second.now)) }
{
    let (one, place) = boxed(alloc, place, objects, inner, first)?;
    let (other, behind) = boxed(alloc, place, objects, scope, second)?;
    Ok((one, other, behind))
}

/// The first statement of a block, and how many places stand before what follows it.
#[cycle(blocks)]
fn statement(
    alloc: Global,
    place: u32,
    objects: &Objects,
    scope: &Variables,
    text: &Block,
) -> Result<(Part, u32), AllocError>
    requires places { place + places (syntax.block_of text.now) < 2 ^ 32 }
    requires in_scope { length (variables_of scope.now) ≤ place }
    ensures made { IfOk result (λ r.
        in_front r.0 (checked_rest r.1 objects.now (variables_of scope.now)
        (rest_of (syntax.block_of text.now)))
        ≡ checked_block place objects.now (variables_of scope.now) (syntax.block_of text.now)) }
    ensures behind { IfOk result (λ r. r.1 + rest_places (rest_of (syntax.block_of text.now))
        ≡ place + places (syntax.block_of text.now)) }
    ensures further { IfOk result (λ r. place ≤ r.1) }
{
    match text {
        Block::End(end) => {
            let made = ending(alloc, place, objects, scope, end)?;
            Ok((Part::End(made), place + ending_places(end)))
        }
        Block::Do { operation: one, .. } => {
            let made = operation(alloc, place, objects, scope, one)?;
            Ok((Part::Do(made), place + operation_places(one)))
        }
        Block::Ask {
            question: asked,
            hit,
            miss,
            ..
        } => {
            let inner = bound_by(&*objects, &*scope, &*asked);
            let at = place + question_places(asked);
            let made = question(alloc, place, objects, scope, asked)?;
            match two(alloc, at, objects, &inner, scope, hit, miss) {
                Ok((hit, miss, at)) => Ok((Part::Ask(made, hit, miss), at)),
                Err(stop) => {
                    drop(made);
                    Err(stop)
                }
            }
        }
        Block::Make {
            creation: one,
            made,
            taken,
            full,
            ..
        } => {
            let inner = bound(&*objects, &*scope, &one.variable, &one.chain);
            let at = place + creation_places(one);
            let head = creation(alloc, place, objects, scope, one)?;
            let (made, taken, at) = match two(alloc, at, objects, &inner, scope, made, taken) {
                Ok(both) => both,
                Err(stop) => {
                    drop(head);
                    return Err(stop);
                }
            };
            match boxed(alloc, at, objects, scope, full) {
                Ok((full, at)) => Ok((Part::Make(head, made, taken, full), at)),
                Err(stop) => {
                    drop(head);
                    Err(stop)
                }
            }
        }
    }
}

/// The checked block of a block, and how many places stand before what follows it, in a loop along
/// the statements.
///
/// `place` counts the places before the block in the text.
#[cycle(blocks)]
#[tactic(auto, using(crate::proofs::Laid::one_more))]
pub fn block(
    alloc: Global,
    place: u32,
    objects: &Objects,
    scope: &Variables,
    text: &Block,
) -> Result<(Checked, u32), AllocError>
    requires places { place + places (syntax.block_of text.now) < 2 ^ 32 }
    requires in_scope { length (variables_of scope.now) ≤ place }
    ensures made { IfOk result (λ r. checked.block_of r.0
        ≡ checked_block place objects.now (variables_of scope.now) (syntax.block_of text.now)) }
    ensures behind { IfOk result (λ r. r.1 ≡ place + places (syntax.block_of text.now)) }
{
    let mut parts = Vec::new(alloc);
    let mut at = place;
    let mut rest = Some(text);
    while let Some(one) = rest {
        let (part, behind_one) = statement(alloc, at, objects, scope, one)?;
        parts.push(part)?;
        at = behind_one;
        rest = behind(one);
    }
    let made = joined(alloc, parts)?;
    Ok((made, at))
}
