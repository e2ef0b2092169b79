//! What is wrong with the values of a handler's text.

ghost use Rattle.std.specs.Prelude.{◌≡◌, map, Some};
ghost use Rattle.nf_tree.specs.View as syntax;
ghost use Rattle.nf_types.specs.Expressions.{array_named, array_faults_at, read_faults, scope_faults, value_faults, each_value_faults};
ghost use Rattle.nf_types.specs.Faults.{first, fault_in};
ghost use Rattle.nf_types.specs.Fields.{field_faults};
ghost use Rattle.nf_types.specs.Variables.{variable_named};
ghost use Rattle.nf_types.specs.View.{variables_of};

use crate::fault::{Fault, TypingKind, refuse_if};
use crate::field::has_field;
use crate::objects::{Objects, array_named};
use crate::value::column_named;
use crate::variables::{Variables, chain_of};
use nf_base::packet::{Family, Field};
use nf_tokens::Place;
use nf_tree::{Expr as Value, Name};

/// A fault of this kind at a name.
pub fn wrong(kind: TypingKind, name: &Name) -> Result<(), Fault>
    ensures { fault_in result ≡ Some (record { kind = kind; place = name.now.place }) }
{
    Err(Fault {
        kind,
        place: name.place,
    })
}

/// A variable that is used is in scope.
pub fn in_scope(scope: &Variables, name: &Name) -> Result<(), Fault>
    ensures { first (scope_faults (variable_named (variables_of scope.now) name.now.bytes) name.now)
        ≡ fault_in result }
{
    match chain_of(scope, &name.bytes) {
        Some(_) => Ok(()),
        None => wrong(TypingKind::NotInScope, name),
    }
}

/// An array that is read or written is declared.
pub fn array(objects: &Objects, name: &Name) -> Result<(), Fault>
    ensures { first (array_faults_at (array_named objects.now.arrays name.now.bytes) name.now)
        ≡ fault_in result }
{
    match array_named(objects, name) {
        Some(_) => Ok(()),
        None => wrong(TypingKind::Unknown, name),
    }
}

/// A field that a handler names is one of its packets.
pub fn named_field(family: Family, field: Field, place: Place) -> Result<(), Fault>
    ensures { first (field_faults family field place) ≡ fault_in result }
{
    refuse_if(!has_field(family, field), TypingKind::OtherFamily, place)
}

/// A read through a variable.
fn read(scope: &Variables, variable: &Name, column: &Name) -> Result<(), Fault>
    ensures { first (read_faults (variable_named (variables_of scope.now) variable.now.bytes)
        variable.now column.now) ≡ fault_in result }
{
    match chain_of(scope, &variable.bytes) {
        None => wrong(TypingKind::NotInScope, variable),
        Some(None) => Ok(()),
        Some(Some(chain)) => match column_named(chain, &column.bytes) {
            Some(_) => Ok(()),
            None => wrong(TypingKind::Unknown, column),
        },
    }
}

/// The first fault of a value.
#[tactic(auto, using(crate::proofs::First::first_append))]
pub fn value(
    family: Family,
    objects: &Objects,
    scope: &Variables,
    value: &Value,
) -> Result<(), Fault>
    ensures { first (value_faults family objects.now (variables_of scope.now)
        (syntax.expression_of value.now)) ≡ fault_in result }
{
    match value {
        Value::Number(_) => Ok(()),
        Value::Field { field, place } => named_field(family, *field, *place),
        Value::Column { variable, column } => read(scope, variable, column),
        Value::Index { variable } => in_scope(scope, variable),
        Value::Cell { array: name, index } => {
            array(objects, name)?;
            self::value(family, objects, scope, index)
        }
        Value::Group { inner, .. } => self::value(family, objects, scope, inner),
        Value::Sum { left, right, .. } => {
            self::value(family, objects, scope, left)?;
            self::value(family, objects, scope, right)
        }
        Value::Product { left, right, .. } => {
            self::value(family, objects, scope, left)?;
            self::value(family, objects, scope, right)
        }
    }
}

/// The first fault of some values.
#[tactic(auto, using(crate::proofs::First::first_append))]
pub fn values(
    family: Family,
    objects: &Objects,
    scope: &Variables,
    values: &[Value],
) -> Result<(), Fault>
    ensures { first (each_value_faults family objects.now (variables_of scope.now)
        (map syntax.expression_of values.now)) ≡ fault_in result }
{
    for one in values {
        value(family, objects, scope, one)?;
    }
    Ok(())
}
