//! Statements with no block of their own. Values are dropped by calls, as in `value`.

ghost use Rattle.std.specs.Prelude.{◌≡◌, ◌+◌, ◌<◌, ◌^◌, length, IfOk};
ghost use Rattle.std.specs.Option.{option_map};
ghost use Rattle.nf_base.specs.View as checked;
ghost use Rattle.nf_tree.specs.View as syntax;
ghost use Rattle.nf_types.specs.Blocks.{column_of_entry, checked_write, checked_store, checked_operation};
ghost use Rattle.nf_types.specs.Expressions.{cells, array_named};
ghost use Rattle.nf_types.specs.Places.{operation_places};
ghost use Rattle.nf_types.specs.Variables.{variable_named};
ghost use Rattle.nf_types.specs.View.{variables_of};

use crate::cells::cells;
use crate::name::first_named;
use crate::objects::{Objects, array_named};
use crate::value::{given_to, value};
use crate::variables::{Variables, chain_of, number_of};
use nf_base::block::Operation as Checked;
use nf_base::decl::ColumnDecl;
use nf_base::value::field_width;
use nf_base::width::Width;
use nf_tree::{Expr as Value, Name, Operation};
use std::alloc::{AllocError, Global};

/// The free column of a variable's entry.
fn column_of_entry<'a>(
    scope: &Variables<'a>,
    variable: &Name,
    column: &Name,
) -> Option<(u32, &'a ColumnDecl)>
    ensures { option_map (λ found. (found.0, found.1.now)) result
        ≡ column_of_entry (variable_named (variables_of scope.now) variable.now.bytes)
        column.now.bytes }
{
    match chain_of(scope, &variable.bytes) {
        Some(Some(chain)) => first_named(column.bytes.as_slice(), chain.columns.as_slice()),
        Some(None) => None,
        None => None,
    }
}

/// A free column that is given a value.
fn write(
    alloc: Global,
    place: u32,
    objects: &Objects,
    scope: &Variables,
    variable: &Name,
    column: &Name,
    given: &Value,
) -> Result<Checked, AllocError>
    requires places { place + cells (syntax.expression_of given.now) < 2 ^ 32 }
    requires in_scope { length (variables_of scope.now) < 2 ^ 32 }
    ensures { IfOk result (λ op. checked.operation_of op
        ≡ checked_write place objects.now (variables_of scope.now) variable.now
        (column_of_entry (variable_named (variables_of scope.now) variable.now.bytes)
        column.now.bytes)
        (syntax.expression_of given.now)) }
{
    let (column, width) = match column_of_entry(scope, variable, column) {
        Some((number, found)) => (number, found.width),
        None => (0, Width::W64),
    };
    Ok(Checked::Write {
        var: number_of(scope, &variable.bytes),
        column,
        given: given_to(alloc, place, objects, scope, width, given)?,
    })
}

/// A cell that is given a value.
fn store(
    alloc: Global,
    place: u32,
    objects: &Objects,
    scope: &Variables,
    name: &Name,
    index: &Value,
    given: &Value,
) -> Result<Checked, AllocError>
    requires places { place + 1 + cells (syntax.expression_of index.now) + cells
        (syntax.expression_of given.now)
        < 2 ^ 32 }
    requires in_scope { length (variables_of scope.now) < 2 ^ 32 }
    ensures { IfOk result (λ op. checked.operation_of op
        ≡ checked_store place objects.now (variables_of scope.now)
        (array_named objects.now.arrays name.now.bytes)
        (syntax.expression_of index.now) (syntax.expression_of given.now)) }
{
    let (array, width) = match array_named(objects, name) {
        Some((number, found)) => (number, found.width),
        None => (0, Width::W64),
    };
    let behind = place + 1 + cells(index);
    let at = value(alloc, place + 1, objects, scope, index)?;
    match given_to(alloc, behind, objects, scope, width, given) {
        Ok(given) => Ok(Checked::Store {
            place,
            array,
            at,
            given,
        }),
        Err(stop) => {
            drop(at);
            Err(stop)
        }
    }
}

/// The checked statement that a statement of the text stands for.
pub fn operation(
    alloc: Global,
    place: u32,
    objects: &Objects,
    scope: &Variables,
    text: &Operation,
) -> Result<Checked, AllocError>
    requires places { place + operation_places (syntax.operation_of text.now) < 2 ^ 32 }
    requires in_scope { length (variables_of scope.now) < 2 ^ 32 }
    ensures { IfOk result (λ op. checked.operation_of op
        ≡ checked_operation place objects.now (variables_of scope.now)
        (syntax.operation_of text.now)) }
{
    match text {
        Operation::Touch { variable } => Ok(Checked::Touch {
            var: number_of(scope, &variable.bytes),
        }),
        Operation::Free { variable, .. } => Ok(Checked::Free {
            var: number_of(scope, &variable.bytes),
        }),
        Operation::Set { field, value, .. } => Ok(Checked::Set {
            field: *field,
            given: given_to(alloc, place, objects, scope, field_width(*field), value)?,
        }),
        Operation::Write {
            variable,
            column,
            value,
        } => write(alloc, place, objects, scope, variable, column, value),
        Operation::Store {
            array,
            index,
            value,
        } => store(alloc, place, objects, scope, array, index, value),
    }
}
