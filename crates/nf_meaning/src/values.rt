// The values of expressions.
ghost use Rattle.std.specs.Prelude.{◌≡◌, ℕ, ◌+◌, ◌≤◌, [], length, take, drop, IfOk, map, slice_get};
ghost use Rattle.nf_base.specs.Context.{value, given, var_at, entry_in, label_of, column_of, index_of, or_zero};
ghost use Rattle.nf_base.specs.Chains.{array_at};
ghost use Rattle.nf_base.specs.View.{expression_of, given_of};
ghost use Rattle.nf_meaning.specs.View.{context_of, input_of};

use crate::chain::slots_of;
use crate::context::{Context, Input, var_at};
use nf_base::expr::{Expr, Given};
use nf_base::indexed::Indexed;
use nf_base::value::{field_of, narrowed, result_of};
use nf_base::width::Width;
use std::alloc::{AllocError, Global};

fn index(context: &Context, var: u32) -> u128
    ensures { result ≡ index_of (var_at context.now.vars var) }
{
    match var_at(context.vars.as_slice(), var) {
        None => 0,
        Some(at) => u128::from(at.index()),
    }
}

fn label(context: &Context, var: u32, label: u32) -> u128
    ensures { result
        ≡ label_of label (entry_in context.now.state.chains (var_at context.now.vars var)) }
{
    let Some(at) = var_at(context.vars.as_slice(), var) else {
        return 0;
    };
    let slots = slots_of(context.state.chains.as_slice(), at.chain());
    let Some(Some(entry)) = slots.get(at.index() as usize) else {
        return 0;
    };
    match entry.labels.as_slice().get(label as usize) {
        None => 0,
        Some(v) => *v,
    }
}

fn column(context: &Context, var: u32, column: u32) -> u128
    ensures { result
        ≡ column_of column (entry_in context.now.state.chains (var_at context.now.vars var)) }
{
    let Some(at) = var_at(context.vars.as_slice(), var) else {
        return 0;
    };
    let slots = slots_of(context.state.chains.as_slice(), at.chain());
    let Some(Some(entry)) = slots.get(at.index() as usize) else {
        return 0;
    };
    match entry.columns.as_slice().get(column as usize) {
        None => 0,
        Some(v) => *v,
    }
}

/// The cells of the array of a number; past the last one there are none.
fn cells_of(arrays: &[Indexed<u128>], array: u32) -> &[u128]
    ensures { result.now ≡ array_at arrays.now array }
{
    match arrays.get(array as usize) {
        None => &[],
        Some(cells) => cells.as_slice(),
    }
}

fn cell(context: &Context, array: u32, i: u128) -> u128
    ensures { result ≡ or_zero (slice_get (array_at context.now.state.arrays array) i) }
{
    let cells = cells_of(context.state.arrays.as_slice(), array);
    if i >= cells.len() as u128 {
        return 0;
    }
    match cells.get(i as usize) {
        None => 0,
        Some(v) => *v,
    }
}

pub fn value(context: &Context, p: &Input, e: &Expr) -> u128
    ensures { result ≡ value (input_of p.now) (context_of [] context.now) (expression_of e.now) }
{
    match e {
        Expr::Number(n) => u128::from(*n),
        Expr::Read(field) => field_of(p.time, &p.fields, *field),
        Expr::Index { var } => index(context, *var),
        Expr::Label { var, label: k } => label(context, *var, *k),
        Expr::Column { var, column: k } => column(context, *var, *k),
        Expr::Cell { array, at, .. } => {
            let i = narrowed(Width::W16, value(context, p, at));
            cell(context, *array, i)
        }
        Expr::Both {
            operator,
            left,
            right,
        } => {
            let a = value(context, p, left);
            let b = value(context, p, right);
            result_of(*operator, a, b)
        }
    }
}

/// A value taken to the width of what it is given to.
pub fn given(context: &Context, p: &Input, g: &Given) -> u128
    ensures { result ≡ given (input_of p.now) (context_of [] context.now) (given_of g.now) }
{
    narrowed(g.width, value(context, p, &g.value))
}

pub fn all_given(
    alloc: Global,
    context: &Context,
    p: &Input,
    gs: &[Given],
) -> Result<Vec<u128>, AllocError>
    ensures { IfOk result (λ v.
        v.items ≡ map (given (input_of p.now) (context_of [] context.now)) (map given_of gs.now)) }
{
    let mut values = Vec::new(alloc);
    for g in gs {
        values.push(given(context, p, g))?;
    }
    Ok(values)
}
