//! The places of the text that feasible paths come to.
ghost use Rattle.std.specs.Prelude.{◌≡◌, ℕ, ◌∷◌, ◌++◌, [], false, IfOk, OnOk, length, map};
ghost use Rattle.nf_base.specs.TextPlaces.{expression_places, given_places, guard_places, ending_places, operation_place, operation_reads, question_own, question_reads, places_in};
ghost use Rattle.nf_base.specs.View.{block_of, ending_of, expression_of, given_of, guard_of, operation_of, question_of};
ghost use Rattle.path_walk.specs.Order.{head_of, head_seen};
ghost use Rattle.access_keys.specs.Reached.{has, HasMore, places_if, AreMarked};

use nf_base::block::{Block, Ending, Operation, Question};
use nf_base::expr::{Expr, Given, Guard};
use std::alloc::{AllocError, Global};
use std::collections::BTreeSet;

/// Places of a function's text, by their numbers.
#[derive(Drop)]
pub struct Places {
    pub inner: BTreeSet<u32>,
}

impl Places {
    fn new(alloc: Global) -> Places
        ensures { (place : ℕ) → has result place ≡ false }
    {
        Places {
            inner: BTreeSet::new(alloc),
        }
    }

    /// Whether a place is among them.
    pub fn has(&self, place: u32) -> bool
        ensures { result ≡ has self.now place }
    {
        self.inner.contains(&place)
    }

    fn add(&mut self, place: u32) -> Result<(), AllocError>
        ensures { OnOk result (HasMore self.old self.new (place ∷ [])) }
    {
        self.inner.insert(place)?;
        Ok(())
    }

    /// The cells that an expression reads.
    fn add_value(&mut self, value: &Expr) -> Result<(), AllocError>
        ensures { OnOk result
            (HasMore self.old self.new (expression_places (expression_of value.now))) }
    {
        match value {
            Expr::Number(_) => Ok(()),
            Expr::Read(_) => Ok(()),
            Expr::Index { .. } => Ok(()),
            Expr::Label { .. } => Ok(()),
            Expr::Column { .. } => Ok(()),
            Expr::Cell { place, at, .. } => {
                self.add(*place)?;
                self.add_value(at)
            }
            Expr::Both { left, right, .. } => {
                self.add_value(left)?;
                self.add_value(right)
            }
        }
    }

    fn add_given(&mut self, given: &[Given]) -> Result<(), AllocError>
        ensures { OnOk result (HasMore self.old self.new (given_places (map given_of given.now))) }
    {
        for one in given {
            self.add_value(&one.value)?;
        }
        Ok(())
    }

    fn add_guards(&mut self, guards: &[Guard]) -> Result<(), AllocError>
        ensures { OnOk result (HasMore self.old self.new (guard_places (map guard_of guards.now))) }
    {
        for one in guards {
            self.add_value(&one.given.value)?;
        }
        Ok(())
    }

    fn add_ending(&mut self, ending: &Ending) -> Result<(), AllocError>
        ensures { OnOk result (HasMore self.old self.new (ending_places (ending_of ending.now))) }
    {
        match ending {
            Ending::FallsOff => Ok(()),
            Ending::Flood => Ok(()),
            Ending::Discard => Ok(()),
            Ending::Forward(port) => self.add_value(port),
        }
    }

    fn add_operation(&mut self, operation: &Operation) -> Result<(), AllocError>
        ensures { OnOk result
            (HasMore self.old self.new (operation_place (operation_of operation.now)
            ++ operation_reads (operation_of operation.now))) }
    {
        match operation {
            Operation::Touch { .. } => Ok(()),
            Operation::Free { .. } => Ok(()),
            Operation::Set { given, .. } => self.add_value(&given.value),
            Operation::Write { given, .. } => self.add_value(&given.value),
            Operation::Store {
                place,
                at,
                given,
                ..
            } => {
                self.add(*place)?;
                self.add_value(at)?;
                self.add_value(&given.value)
            }
        }
    }

    fn add_question(&mut self, question: &Question) -> Result<(), AllocError>
        ensures { OnOk result (HasMore self.old self.new (question_own (question_of question.now)
            ++ question_reads (question_of question.now))) }
    {
        match question {
            Question::Get { place, key, .. } => {
                self.add(*place)?;
                self.add_given(key.as_slice())
            }
            Question::Find {
                place,
                at,
                guards,
                ..
            } => {
                self.add(*place)?;
                self.add_value(at)?;
                self.add_guards(guards.as_slice())
            }
            Question::Test {
                place,
                left,
                right,
                ..
            } => {
                self.add(*place)?;
                self.add_value(left)?;
                self.add_value(right)
            }
        }
    }

    /// The places of a block's first statement.
    fn add_statement(&mut self, block: &Block) -> Result<(), AllocError>
        ensures { OnOk result
            (HasMore self.old self.new (places_in (head_of (block_of block.now)))) }
    {
        match block {
            Block::End(ending) => self.add_ending(ending),
            Block::Do { operation, .. } => self.add_operation(operation),
            Block::Ask { question, .. } => self.add_question(question),
            Block::Make { creation, .. } => {
                self.add(creation.place)?;
                self.add_given(creation.labels.as_slice())
            }
        }
    }

    /// The same, where it is marked.
    fn add_if(&mut self, mark: bool, block: &Block) -> Result<(), AllocError>
        ensures { OnOk result
            (HasMore self.old self.new (places_if mark (head_of (block_of block.now)))) }
    {
        if mark {
            self.add_statement(block)
        } else {
            Ok(())
        }
    }
}

/// The places of the marked ones of some statements, which have a mark each.
pub fn places_marked(
    alloc: Global,
    statements: &[&Block],
    marks: &[bool],
) -> Result<Places, AllocError>
    requires { length marks.now ≡ length statements.now }
    ensures { IfOk result (AreMarked marks.now (map head_seen statements.now)) }
{
    let mut places = Places::new(alloc);
    for (k, one) in statements.iter().enumerate() {
        places.add_if(marks[k], one)?;
    }
    Ok(places)
}
