//! Values of a handler's text: what they stand for.
//!
//! Where memory runs out while a value is held, a call of `drop` takes the value: a `?` there would
//! have the proof go through each shape that it may have, at each such place anew.

ghost use Rattle.std.specs.Prelude.{◌≡◌, ◌+◌, ◌<◌, ◌^◌, length, IfOk};
ghost use Rattle.nf_base.specs.Text as text;
ghost use Rattle.nf_base.specs.View as checked;
ghost use Rattle.nf_tree.specs.View as syntax;
ghost use Rattle.nf_types.specs.Expressions.{cells, number_of, array_named, sum_operator, product_operator, column_value, column_of_variable, value_of, given_to};
ghost use Rattle.nf_types.specs.Variables.{column_named, variable_of, variable_named};
ghost use Rattle.nf_types.specs.View.{variables_of};

use crate::cells::cells;
use crate::name::first_named;
use crate::objects::{Objects, array_named};
use crate::variables::{Variables, chain_of, number_of};
use nf_base::decl::{ChainDecl, ColumnId};
use nf_base::expr::{Expr, Given, Operator};
use nf_base::seq::Seq;
use nf_base::width::Width;
use nf_tree::{Expr as Value, Name, ProductOperator, SumOperator};
use std::alloc::{AllocError, Global};

fn sum_operator(operator: SumOperator) -> Operator
    ensures { result ≡ sum_operator operator }
{
    match operator {
        SumOperator::Plus => Operator::Plus,
        SumOperator::Minus => Operator::Minus,
    }
}

fn product_operator(operator: ProductOperator) -> Operator
    ensures { result ≡ product_operator operator }
{
    match operator {
        ProductOperator::Times => Operator::Times,
        ProductOperator::Over => Operator::Over,
        ProductOperator::Modulo => Operator::Modulo,
        ProductOperator::And => Operator::And,
    }
}

/// A label or a free column of a chain.
pub fn column_named(chain: &ChainDecl, name: &Seq<u8>) -> Option<ColumnId>
    ensures { result ≡ column_named chain.now name.now }
{
    let name = name.as_slice();
    if let Some((i, _)) = first_named(name, chain.labels.as_slice()) {
        return Some(ColumnId::Label(i));
    }
    match first_named(name, chain.columns.as_slice()) {
        Some((i, _)) => Some(ColumnId::Column(i)),
        None => None,
    }
}

/// What is read of a variable's entry.
fn column(scope: &Variables, variable: &Name, column: &Name) -> Expr
    requires { length (variables_of scope.now) < 2 ^ 32 }
    ensures { checked.expression_of result
        ≡ column_value (variable_of (variables_of scope.now) variable.now.bytes)
        (column_of_variable (variable_named (variables_of scope.now) variable.now.bytes)
        column.now.bytes) }
{
    let var = number_of(scope, &variable.bytes);
    match chain_of(scope, &variable.bytes) {
        Some(Some(chain)) => match column_named(chain, &column.bytes) {
            Some(ColumnId::Label(label)) => Expr::Label { var, label },
            Some(ColumnId::Column(column)) => Expr::Column { var, column },
            None => Expr::Number(0),
        },
        Some(None) => Expr::Number(0),
        None => Expr::Number(0),
    }
}

/// The number of an array.
fn array_number(objects: &Objects, name: &Name) -> u32
    ensures { result ≡ number_of (array_named objects.now.arrays name.now.bytes) }
{
    match array_named(objects, name) {
        Some((number, _)) => number,
        None => 0,
    }
}

/// Two values in boxes.
fn two(alloc: Global, left: Expr, right: Expr) -> Result<(Box<Expr>, Box<Expr>), AllocError>
    ensures left { IfOk result (λ x. x.0.value ≡ left) }
    ensures right { IfOk result (λ x. x.1.value ≡ right) }
{
    let left = Box::new(alloc, left)?;
    let right = Box::new(alloc, right)?;
    Ok((left, right))
}

fn both(alloc: Global, operator: Operator, left: Expr, right: Expr) -> Result<Expr, AllocError>
    ensures { IfOk result
        (λ e. checked.expression_of e ≡ text.Both operator (checked.expression_of left)
        (checked.expression_of right)) }
{
    let (left, right) = two(alloc, left, right)?;
    Ok(Expr::Both {
        operator,
        left,
        right,
    })
}

/// A value, of which `place` counts the places before it in the text.
pub fn value(
    alloc: Global,
    place: u32,
    objects: &Objects,
    scope: &Variables,
    value: &Value,
) -> Result<Expr, AllocError>
    requires places { place + cells (syntax.expression_of value.now) < 2 ^ 32 }
    requires in_scope { length (variables_of scope.now) < 2 ^ 32 }
    ensures { IfOk result (λ e. checked.expression_of e ≡ value_of place objects.now
        (variables_of scope.now) (syntax.expression_of value.now)) }
{
    match value {
        Value::Number(n) => Ok(Expr::Number(n.value)),
        Value::Field { field, .. } => Ok(Expr::Read(*field)),
        Value::Column {
            variable,
            column: wanted,
        } => Ok(column(scope, variable, wanted)),
        Value::Index { variable } => Ok(Expr::Index {
            var: number_of(scope, &variable.bytes),
        }),
        Value::Cell { array, index } => {
            let at = self::value(alloc, place + 1, objects, scope, index)?;
            Ok(Expr::Cell {
                place,
                array: array_number(objects, array),
                at: Box::new(alloc, at)?,
            })
        }
        Value::Group { inner, .. } => self::value(alloc, place, objects, scope, inner),
        Value::Sum {
            operator,
            left,
            right,
        } => {
            let first = self::value(alloc, place, objects, scope, left)?;
            match self::value(alloc, place + cells(left), objects, scope, right) {
                Ok(second) => both(alloc, sum_operator(*operator), first, second),
                Err(stop) => {
                    drop(first);
                    Err(stop)
                }
            }
        }
        Value::Product {
            operator,
            left,
            right,
        } => {
            let first = self::value(alloc, place, objects, scope, left)?;
            match self::value(alloc, place + cells(left), objects, scope, right) {
                Ok(second) => both(alloc, product_operator(*operator), first, second),
                Err(stop) => {
                    drop(first);
                    Err(stop)
                }
            }
        }
    }
}

/// A value of a width.
pub fn given_to(
    alloc: Global,
    place: u32,
    objects: &Objects,
    scope: &Variables,
    width: Width,
    given: &Value,
) -> Result<Given, AllocError>
    requires places { place + cells (syntax.expression_of given.now) < 2 ^ 32 }
    requires in_scope { length (variables_of scope.now) < 2 ^ 32 }
    ensures { IfOk result
        (λ g. checked.given_of g ≡ given_to place objects.now (variables_of scope.now) width
        (syntax.expression_of given.now)) }
{
    let value = value(alloc, place, objects, scope, given)?;
    Ok(Given { width, value })
}
