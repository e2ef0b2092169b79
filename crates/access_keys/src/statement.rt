//! The sites of statements, in text order.
ghost use Rattle.std.specs.Prelude.{◌≡◌, OnOk, map};
ghost use Rattle.nf_base.specs.View.{block_of, creation_of, ending_of, operation_of, question_of};
ghost use Rattle.nf_sites.specs.Sites.{operation_sites, question_sites, creation_sites, ending_sites, statement_sites};
ghost use Rattle.nf_sites.specs.OnPaths.{sites_along};
ghost use Rattle.path_walk.specs.Order.{head_of, head_seen};
ghost use Rattle.access_keys.specs.Shown.{Puts};

use crate::access::{Here, put_cell, put_given, put_guards, put_labels, put_value};
use crate::lookup::{put_find, put_get, put_new};
use crate::site::Site;
use nf_base::block::{Block, Creation, Ending, Operation, Question};
use nf_sites::Sort;
use std::alloc::{AllocError, Global};

/// A write to a cell stands before what its index and its value read.
fn put_operation(
    alloc: Global,
    here: &Here<'_>,
    operation: &Operation,
    sites: &mut Vec<Site>,
) -> Result<(), AllocError>
    ensures { OnOk result (Puts here.now sites.old.items sites.new.items
        (operation_sites here.now.door (operation_of operation.now))) }
{
    match operation {
        Operation::Touch { .. } => Ok(()),
        Operation::Free { .. } => Ok(()),
        Operation::Set { given, .. } => put_value(alloc, here, &given.value, sites),
        Operation::Write { given, .. } => put_value(alloc, here, &given.value, sites),
        Operation::Store {
            place,
            array,
            at,
            given,
        } => {
            put_cell(alloc, here, Sort::Store, *place, *array, at, sites)?;
            put_value(alloc, here, at, sites)?;
            put_value(alloc, here, &given.value, sites)
        }
    }
}

/// A look-up stands before what its values read.
fn put_question(
    alloc: Global,
    here: &Here<'_>,
    question: &Question,
    sites: &mut Vec<Site>,
) -> Result<(), AllocError>
    ensures { OnOk result (Puts here.now sites.old.items sites.new.items
        (question_sites here.now.decls.now here.now.door (question_of question.now))) }
{
    match question {
        Question::Get {
            place,
            chain,
            map,
            key,
            ..
        } => {
            put_get(alloc, here, *place, *chain, *map, key.as_slice(), sites)?;
            put_given(alloc, here, key.as_slice(), sites)
        }
        Question::Find {
            place,
            chain,
            at,
            guards,
            ..
        } => {
            put_find(alloc, here, *place, *chain, guards.as_slice(), sites)?;
            put_value(alloc, here, at, sites)?;
            put_guards(alloc, here, guards.as_slice(), sites)
        }
        Question::Test { left, right, .. } => {
            put_value(alloc, here, left, sites)?;
            put_value(alloc, here, right, sites)
        }
    }
}

/// A `new` and its look-ups stand before what its values read, which stands in text order.
fn put_creation(
    alloc: Global,
    here: &Here<'_>,
    creation: &Creation,
    sites: &mut Vec<Site>,
) -> Result<(), AllocError>
    ensures { OnOk result (Puts here.now sites.old.items sites.new.items
        (creation_sites here.now.decls.now here.now.door (creation_of creation.now))) }
{
    put_new(alloc, here, creation, sites)?;
    put_labels(alloc, here, creation.labels.as_slice(), sites)
}

/// The sites of the end of a block.
fn put_ending(
    alloc: Global,
    here: &Here<'_>,
    ending: &Ending,
    sites: &mut Vec<Site>,
) -> Result<(), AllocError>
    ensures { OnOk result (Puts here.now sites.old.items sites.new.items
        (ending_sites here.now.door (ending_of ending.now))) }
{
    match ending {
        Ending::FallsOff => Ok(()),
        Ending::Flood => Ok(()),
        Ending::Discard => Ok(()),
        Ending::Forward(port) => put_value(alloc, here, port, sites),
    }
}

/// The sites of a block's first statement.
fn put_statement(
    alloc: Global,
    here: &Here<'_>,
    block: &Block,
    sites: &mut Vec<Site>,
) -> Result<(), AllocError>
    ensures { OnOk result (Puts here.now sites.old.items sites.new.items
        (statement_sites here.now.decls.now here.now.door (head_of (block_of block.now)))) }
{
    match block {
        Block::End(ending) => put_ending(alloc, here, ending, sites),
        Block::Do { operation, .. } => put_operation(alloc, here, operation, sites),
        Block::Ask { question, .. } => put_question(alloc, here, question, sites),
        Block::Make { creation, .. } => put_creation(alloc, here, creation, sites),
    }
}

/// The sites of statements that are reached, behind others.
pub fn put_statements(
    alloc: Global,
    here: &Here<'_>,
    statements: &[&Block],
    sites: &mut Vec<Site>,
) -> Result<(), AllocError>
    ensures { OnOk result (Puts here.now sites.old.items sites.new.items
        (sites_along here.now.decls.now here.now.door (map head_seen statements.now))) }
{
    for one in statements {
        put_statement(alloc, here, one, sites)?;
    }
    Ok(())
}
