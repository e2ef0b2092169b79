//! What is wrong with a handler's blocks.

ghost use Rattle.std.specs.Prelude.{◌≡◌, IfOk};
ghost use Rattle.nf_tree.specs.View as syntax;
ghost use Rattle.nf_types.specs.BlockFaults.{ending_faults, operation_faults, get_faults, find_faults, question_faults, creation_faults, block_faults, asked_faults, made_faults};
ghost use Rattle.nf_types.specs.Counts.{behind, behind_asked, behind_made};
ghost use Rattle.nf_types.specs.Faults.{first, fault_in};
ghost use Rattle.nf_types.specs.View.{variables_of};

use crate::fault::{Fault, TypingKind, refuse_if};
use crate::objects::Objects;
use crate::room::Room;
use crate::statement_rules::{binding, find, look_up, make, set, store, write};
use crate::value_rules::{in_scope, value};
use crate::variables::{Variables, bound, bound_by};
use nf_base::packet::Family;
use nf_tree::{Block, Creation, Ending, Operation, Question};

/// The first fault of an end.
fn ending(
    family: Family,
    objects: &Objects,
    scope: &Variables,
    ending: &Ending,
) -> Result<(), Fault>
    ensures { first (ending_faults family objects.now (variables_of scope.now)
        (syntax.ending_of ending.now))
        ≡ fault_in result }
{
    match ending {
        Ending::Forward(port) => value(family, objects, scope, port),
        Ending::FallsOff => Ok(()),
        Ending::Missing => Ok(()),
        Ending::Flood => Ok(()),
        Ending::Discard => Ok(()),
    }
}

/// The first fault of a statement with no block.
fn operation(
    family: Family,
    objects: &Objects,
    scope: &Variables,
    operation: &Operation,
) -> Result<(), Fault>
    ensures { first (operation_faults family objects.now (variables_of scope.now)
        (syntax.operation_of operation.now))
        ≡ fault_in result }
{
    match operation {
        Operation::Touch { variable } => in_scope(scope, variable),
        Operation::Free { variable, .. } => in_scope(scope, variable),
        Operation::Set {
            field,
            place,
            value,
        } => set(family, objects, scope, *field, *place, value),
        Operation::Write {
            variable,
            column,
            value,
        } => write(family, objects, scope, variable, column, value),
        Operation::Store {
            array,
            index,
            value,
        } => store(family, objects, scope, array, index, value),
    }
}

/// The first fault of a question, without its blocks.
#[tactic(auto, using(crate::proofs::First::first_append), unfolding(crate::specs::BlockFaults::get_faults, crate::specs::BlockFaults::find_faults))]
fn question(
    family: Family,
    objects: &Objects,
    room: Room,
    scope: &Variables,
    question: &Question,
) -> Result<(), Fault>
    ensures { first (question_faults family room objects.now (variables_of scope.now)
        (syntax.question_of question.now))
        ≡ fault_in result }
{
    match question {
        Question::Get {
            place,
            variable,
            chain,
            map,
            key,
            close,
        } => {
            refuse_if(room.lookups == 0, TypingKind::Limit, *place)?;
            binding(objects, scope, variable)?;
            look_up(family, objects, scope, chain, map, key.as_slice(), *close)
        }
        Question::Find {
            place,
            variable,
            chain,
            index,
            guards,
        } => {
            refuse_if(room.lookups == 0, TypingKind::Limit, *place)?;
            binding(objects, scope, variable)?;
            find(family, objects, scope, chain, index, guards)
        }
        Question::Test { left, right, .. } => {
            value(family, objects, scope, left)?;
            value(family, objects, scope, right)
        }
    }
}

/// The first fault of a `new`, without its blocks.
#[tactic(auto, using(crate::proofs::First::first_append), unfolding(crate::specs::BlockFaults::creation_faults))]
fn creation(
    family: Family,
    objects: &Objects,
    room: Room,
    scope: &Variables,
    one: &Creation,
) -> Result<(), Fault>
    ensures { first (creation_faults family room objects.now (variables_of scope.now)
        (syntax.creation_of one.now))
        ≡ fault_in result }
{
    let is_full = room.lookups == 0 || room.news == 0;
    refuse_if(is_full, TypingKind::Limit, one.place)?;
    binding(objects, scope, &one.variable)?;
    make(
        family,
        objects,
        scope,
        &one.chain,
        one.given.as_slice(),
        one.close,
    )
}

/// A question with its blocks: its first fault, or what may still come behind it.
#[cycle(rules)]
#[tactic(auto, using(crate::proofs::First::first_append))]
fn ask(
    family: Family,
    objects: &Objects,
    room: Room,
    scope: &Variables,
    asked: &Question,
    hit: &Block,
    miss: &Block,
) -> Result<Room, Fault>
    ensures fault { first (asked_faults family room objects.now (variables_of scope.now)
        (syntax.question_of asked.now) (syntax.block_of hit.now) (syntax.block_of miss.now))
        ≡ fault_in result }
    ensures left { IfOk result (λ left. left
        ≡ behind_asked room (syntax.question_of asked.now) (syntax.block_of hit.now)
        (syntax.block_of miss.now)) }
{
    question(family, objects, room, scope, asked)?;
    let inner = bound_by(&*objects, &*scope, &*asked);
    let left = block(family, objects, room.behind_question(asked), &inner, hit)?;
    block(family, objects, left, scope, miss)
}

/// A `new` with its blocks: its first fault, or what may still come behind it.
#[cycle(rules)]
#[tactic(auto, using(crate::proofs::First::first_append))]
fn make_in(
    family: Family,
    objects: &Objects,
    room: Room,
    scope: &Variables,
    one: &Creation,
    made: &Block,
    taken: &Block,
    full: &Block,
) -> Result<Room, Fault>
    ensures fault { first (made_faults family room objects.now (variables_of scope.now)
        (syntax.creation_of one.now) (syntax.block_of made.now) (syntax.block_of taken.now)
        (syntax.block_of full.now))
        ≡ fault_in result }
    ensures left { IfOk result (λ left. left
        ≡ behind_made room (syntax.block_of made.now) (syntax.block_of taken.now)
        (syntax.block_of full.now)) }
{
    creation(family, objects, room, scope, one)?;
    let inner = bound(&*objects, &*scope, &one.variable, &one.chain);
    let left = block(family, objects, room.behind_new(), &inner, made)?;
    let left = block(family, objects, left, scope, taken)?;
    block(family, objects, left, scope, full)
}

/// The first fault of a block, or what may still come behind it, in a loop along its statements.
#[cycle(rules)]
#[tactic(auto, using(crate::proofs::First::first_append, crate::proofs::Rooms::behind_ask, crate::proofs::Rooms::behind_make))]
pub fn block(
    family: Family,
    objects: &Objects,
    room: Room,
    scope: &Variables,
    block: &Block,
) -> Result<Room, Fault>
    ensures fault { first
        (block_faults family room objects.now (variables_of scope.now) (syntax.block_of block.now))
        ≡ fault_in result }
    ensures left { IfOk result (λ left. left ≡ behind room (syntax.block_of block.now)) }
{
    let mut left = room;
    let mut rest = block;
    loop {
        match rest {
            Block::End(end) => {
                ending(family, objects, scope, end)?;
                return Ok(left);
            }
            Block::Do {
                operation: one,
                next,
            } => {
                operation(family, objects, scope, one)?;
                rest = next
            }
            Block::Ask {
                question: asked,
                hit,
                miss,
                next,
            } => {
                left = ask(family, objects, left, scope, asked, hit, miss)?;
                rest = next
            }
            Block::Make {
                creation: one,
                made,
                taken,
                full,
                next,
            } => {
                left = make_in(family, objects, left, scope, one, made, taken, full)?;
                rest = next
            }
        }
    }
}
