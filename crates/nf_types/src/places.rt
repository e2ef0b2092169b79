//! How many places a block has: its look-ups and tests, and the arrays that it reads and writes.

ghost use Rattle.std.specs.Prelude.{◌≡◌, ◌+◌, ◌<◌, ◌≤◌, ◌^◌, MatchOption};
ghost use Rattle.nf_tree.specs.View.{ending_of, operation_of, question_of, creation_of, block_of};
ghost use Rattle.nf_types.specs.Places.{ending_places, operation_places, question_places, creation_places, places};

use crate::cells::{given_left, key_left, value_left};
use crate::question::asked;
use nf_tree::{Block, Creation, Ending, Operation, Question};

/// What is left of so many places behind an end, where it has no more.
fn ending_left(room: u32, ending: &Ending) -> Option<u32>
    ensures { MatchOption result (room < ending_places (ending_of ending.now))
        (λ left. left + ending_places (ending_of ending.now) ≡ room) }
{
    match ending {
        Ending::Forward(port) => value_left(room, port),
        Ending::FallsOff => Some(room),
        Ending::Missing => Some(room),
        Ending::Flood => Some(room),
        Ending::Discard => Some(room),
    }
}

/// The same, behind a statement with no block.
fn operation_left(room: u32, operation: &Operation) -> Option<u32>
    ensures { MatchOption result (room < operation_places (operation_of operation.now))
        (λ left. left + operation_places (operation_of operation.now) ≡ room) }
{
    match operation {
        Operation::Touch { .. } => Some(room),
        Operation::Free { .. } => Some(room),
        Operation::Set { value, .. } => value_left(room, value),
        Operation::Write { value, .. } => value_left(room, value),
        Operation::Store { index, value, .. } => {
            value_left(value_left(room.checked_sub(1)?, index)?, value)
        }
    }
}

/// The same, behind a question without its blocks.
fn question_left(room: u32, question: &Question) -> Option<u32>
    ensures { MatchOption result (room < question_places (question_of question.now))
        (λ left. left + question_places (question_of question.now) ≡ room) }
{
    let left = room.checked_sub(1)?;
    match question {
        Question::Get { key, .. } => key_left(left, key.as_slice()),
        Question::Find { index, guards, .. } => given_left(value_left(left, index)?, asked(guards)),
        Question::Test {
            left: first,
            right,
            ..
        } => value_left(value_left(left, first)?, right),
    }
}

/// The same, behind a `new` without its blocks.
fn creation_left(room: u32, creation: &Creation) -> Option<u32>
    ensures { MatchOption result (room < creation_places (creation_of creation.now))
        (λ left. left + creation_places (creation_of creation.now) ≡ room) }
{
    given_left(room.checked_sub(1)?, creation.given.as_slice())
}

/// The same, behind two blocks.
#[cycle(places)]
fn two_left(room: u32, first: &Block, second: &Block) -> Option<u32>
    ensures { MatchOption result (room < places (block_of first.now) + places (block_of second.now))
        (λ left. left + places (block_of first.now) + places (block_of second.now) ≡ room) }
{
    places_left(places_left(room, first)?, second)
}

/// The same, behind a block.
#[cycle(places)]
pub fn places_left(room: u32, block: &Block) -> Option<u32>
    ensures { MatchOption result (room < places (block_of block.now))
        (λ left. left + places (block_of block.now) ≡ room) }
{
    let mut left = room;
    let mut rest = block;
    loop {
        match rest {
            Block::End(ending) => return ending_left(left, ending),
            Block::Do { operation, next } => {
                left = operation_left(left, operation)?;
                rest = next
            }
            Block::Ask {
                question,
                hit,
                miss,
                next,
            } => {
                left = two_left(question_left(left, question)?, hit, miss)?;
                rest = next
            }
            Block::Make {
                creation,
                made,
                taken,
                full,
                next,
            } => {
                left = two_left(creation_left(left, creation)?, made, taken)?;
                left = places_left(left, full)?;
                rest = next
            }
        }
    }
}

/// How many places a block has.
pub fn places(block: &Block) -> u32
    requires { places (block_of block.now) < 2 ^ 32 }
    ensures { result ≡ places (block_of block.now) }
{
    match places_left(u32::MAX, block) {
        Some(left) => u32::MAX - left,
        None => unreachable!(),
    }
}

/// How many places an end has.
pub fn ending_places(ending: &Ending) -> u32
    requires { ending_places (ending_of ending.now) < 2 ^ 32 }
    ensures { result ≡ ending_places (ending_of ending.now) }
{
    match ending_left(u32::MAX, ending) {
        Some(left) => u32::MAX - left,
        None => unreachable!(),
    }
}

/// How many places a statement with no block has.
pub fn operation_places(operation: &Operation) -> u32
    requires { operation_places (operation_of operation.now) < 2 ^ 32 }
    ensures { result ≡ operation_places (operation_of operation.now) }
{
    match operation_left(u32::MAX, operation) {
        Some(left) => u32::MAX - left,
        None => unreachable!(),
    }
}

/// How many places a question has without its blocks.
pub fn question_places(question: &Question) -> u32
    requires { question_places (question_of question.now) < 2 ^ 32 }
    ensures { result ≡ question_places (question_of question.now) }
{
    match question_left(u32::MAX, question) {
        Some(left) => u32::MAX - left,
        None => unreachable!(),
    }
}

/// How many places a `new` has without its blocks.
pub fn creation_places(creation: &Creation) -> u32
    requires { creation_places (creation_of creation.now) < 2 ^ 32 }
    ensures { result ≡ creation_places (creation_of creation.now) }
{
    match creation_left(u32::MAX, creation) {
        Some(left) => u32::MAX - left,
        None => unreachable!(),
    }
}
