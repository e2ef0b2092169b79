//! The `new`s of a function's text, and the labels that they set alike.
ghost use Rattle.std.specs.Prelude.{◌≡◌, ◌++◌, IfOk, OnOk, map};
ghost use Rattle.std.specs.List.{flat_map};
ghost use Rattle.nf_base.specs.Functions.{function_of};
ghost use Rattle.nf_base.specs.Handlers.{blocks_of};
ghost use Rattle.nf_base.specs.View.{block_of, creation_of};
ghost use Rattle.path_walk.specs.Order.{head_of, head_seen};
ghost use Rattle.access_keys.specs.Together.{new_seen, set_fields, set_in, set_along, set_at, all_set, alike, are_together};

use crate::field::{field_at, fields_given, same_field};
use nf_base::block::{Block, Creation};
use nf_base::func::Func;
use nf_base::handler::Handler;
use nf_base::packet::Field;
use nf_base::port_handlers::PortHandlers;
use path_walk::all_statements;
use std::alloc::{AllocError, Global};

/// The fields that a `new` sets the labels of its chain from.
#[derive(Drop)]
pub struct NewFields {
    pub chain: u32,
    pub fields: Vec<Option<Field>>,
}

/// The fields of one `new`.
fn new_fields(alloc: Global, creation: &Creation) -> Result<NewFields, AllocError>
    ensures { IfOk result (λ n. new_seen n ≡ set_fields (creation_of creation.now)) }
{
    let fields = fields_given(alloc, creation.labels.as_slice())?;
    Ok(NewFields {
        chain: creation.chain,
        fields,
    })
}

/// The fields of a statement, where it is a `new`, behind others.
fn put_new(alloc: Global, block: &Block, all: &mut Vec<NewFields>) -> Result<(), AllocError>
    ensures { OnOk result (map new_seen all.new.items ≡ map new_seen all.old.items ++ set_in
        (head_of (block_of block.now))) }
{
    match block {
        Block::End(_) => Ok(()),
        Block::Do { .. } => Ok(()),
        Block::Ask { .. } => Ok(()),
        Block::Make { creation, .. } => {
            let fields = new_fields(alloc, creation)?;
            all.push(fields)?;
            Ok(())
        }
    }
}

/// The fields of each `new` among statements, behind others.
fn put_news(
    alloc: Global,
    statements: &[&Block],
    all: &mut Vec<NewFields>,
) -> Result<(), AllocError>
    ensures { OnOk result (map new_seen all.new.items ≡ map new_seen all.old.items
        ++ flat_map set_in (map head_seen statements.now)) }
{
    for one in statements {
        put_new(alloc, one, all)?;
    }
    Ok(())
}

/// The fields of each `new` of a handler, behind others.
fn put_handler(alloc: Global, handler: &Handler, all: &mut Vec<NewFields>) -> Result<(), AllocError>
    ensures { OnOk result (map new_seen all.new.items ≡ map new_seen all.old.items
        ++ set_along (block_of handler.now.block)) }
{
    let statements = all_statements(alloc, &handler.block)?;
    put_news(alloc, statements.as_slice(), all)
}

/// The fields of each `new` of a port's handlers, behind others.
fn put_port(alloc: Global, port: &PortHandlers, all: &mut Vec<NewFields>) -> Result<(), AllocError>
    ensures { OnOk result (map new_seen all.new.items ≡ map new_seen all.old.items
        ++ set_at (blocks_of port.now)) }
{
    put_handler(alloc, &port.four, all)?;
    match &port.six {
        Some(six) => put_handler(alloc, six, all),
        None => Ok(()),
    }
}

/// The fields of each `new` of a function.
pub fn all_new(alloc: Global, func: &Func) -> Result<Vec<NewFields>, AllocError>
    ensures { IfOk result (λ all. map new_seen all.items ≡ all_set (function_of func.now)) }
{
    let mut all = Vec::new(alloc);
    for port in func.handlers.as_slice() {
        put_port(alloc, port, &mut all)?;
    }
    Ok(all)
}

/// Whether a `new`, where it is of a chain, sets two labels from one field.
fn is_alike(one: &NewFields, chain: u32, label: usize, other: usize) -> bool
    ensures { result ≡ alike chain label other (new_seen one.now) }
{
    if one.chain == chain {
        let fields = one.fields.as_slice();
        same_field(field_at(fields, label), field_at(fields, other))
    } else {
        true
    }
}

/// Whether each `new` of a chain sets two labels from one field.
pub fn are_together(all: &[NewFields], chain: u32, label: usize, other: usize) -> bool
    ensures { result ≡ are_together (map new_seen all.now) chain label other }
{
    for one in all {
        if !is_alike(one, chain, label, other) {
            return false;
        }
    }
    true
}
