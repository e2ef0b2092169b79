// The values of expressions.
ghost use Rattle.std.specs.Prelude.{◌≡◌, ℕ, ◌≤◌, [], length, take, map};
ghost use Rattle.nf_base.specs.Context.{value, given, var_at, entry_in, label_of, column_of, index_of};
ghost use Rattle.nf_base.specs.View.{expression_of, given_of};
ghost use Rattle.nf_engine.specs.View.{context_of, input_of, all_given};

use crate::context::Context;
use crate::input::Input;
use crate::labels::Labels;
use crate::reads::Reads;
use crate::vars::Vars;
use nf_base::expr::{Expr, Given};
use nf_base::key::Key;
use nf_base::value::{field_of, narrowed, result_of};
use nf_base::width::Width;
use vig_tables::Tables;

fn index(vars: &Vars, var: u32) -> u128
    ensures { result ≡ index_of (var_at vars.now var) }
{
    match vars.at(var) {
        None => 0,
        Some(at) => u128::from(at.index()),
    }
}

fn label(tables: &Tables, vars: &Vars, var: u32, label: u32) -> u128
    ensures { result ≡ label_of label (entry_in tables.now.state.chains (var_at vars.now var)) }
{
    match vars.at(var) {
        None => 0,
        Some(at) => tables.label(at.chain(), at.index(), label),
    }
}

fn column(tables: &Tables, vars: &Vars, var: u32, column: u32) -> u128
    ensures { result ≡ column_of column (entry_in tables.now.state.chains (var_at vars.now var)) }
{
    match vars.at(var) {
        None => 0,
        Some(at) => tables.column(at.chain(), at.index(), column),
    }
}

/// The value of an expression of any depth.
fn evaluate<R: Reads>(tables: &Tables, context: &Context, p: &Input<R>, e: &Expr) -> u128
    ensures { let c = context_of tables.now [] context.now in
        result ≡ value (input_of p.now) c (expression_of e.now) }
{
    match e {
        Expr::Number(n) => u128::from(*n),
        Expr::Read(field) => p.field(*field),
        Expr::Index { var } => index(&context.vars, *var),
        Expr::Label { var, label: k } => label(tables, &context.vars, *var, *k),
        Expr::Column { var, column: k } => column(tables, &context.vars, *var, *k),
        Expr::Cell { array, at, .. } => {
            let i = narrowed(Width::W16, evaluate(tables, context, p, at));
            tables.read(*array, i)
        }
        Expr::Both {
            operator,
            left,
            right,
        } => {
            let a = evaluate(tables, context, p, left);
            let b = evaluate(tables, context, p, right);
            result_of(*operator, a, b)
        }
    }
}

/// The value of an expression. A number and a field, which most are, need no call.
#[inline]
pub fn value<R: Reads>(tables: &Tables, context: &Context, p: &Input<R>, e: &Expr) -> u128
    ensures { let c = context_of tables.now [] context.now in
        result ≡ value (input_of p.now) c (expression_of e.now) }
{
    match e {
        Expr::Number(n) => u128::from(*n),
        Expr::Read(field) => p.field(*field),
        _ => evaluate(tables, context, p, e),
    }
}

/// A value taken to the width of what it is given to.
pub fn given<R: Reads>(tables: &Tables, context: &Context, p: &Input<R>, g: &Given) -> u128
    ensures { let c = context_of tables.now [] context.now in
        result ≡ given (input_of p.now) c (given_of g.now) }
{
    narrowed(g.width, value(tables, context, p, &g.value))
}

/// The same, where a field is read at the place of the call.
#[inline(always)]
fn given_here<R: Reads>(tables: &Tables, context: &Context, p: &Input<R>, g: &Given) -> u128
    ensures { let c = context_of tables.now [] context.now in
        result ≡ given (input_of p.now) c (given_of g.now) }
{
    match &g.value {
        Expr::Read(field) => narrowed(g.width, p.field_here(*field)),
        _ => given(tables, context, p, g),
    }
}

/// Fills an empty key with the values that its parts are given.
pub fn fill_key<R: Reads>(
    key: &mut Key,
    tables: &Tables,
    context: &Context,
    p: &Input<R>,
    gs: &[Given],
)
    requires few { length gs.now ≤ 8 }
    requires empty { key.old ≡ [] }
    ensures { key.new ≡ all_given p.now tables.now context.now (map given_of gs.now) }
{
    for g in gs {
        key.push(given(tables, context, p, g));
    }
}

/// Writes the values that parts are given, in turn, over the first of eight numbers.
#[inline]
pub fn fill_parts<R: Reads>(
    parts: &mut [u128; 8],
    tables: &Tables,
    context: &Context,
    p: &Input<R>,
    gs: &[Given],
)
    requires { length gs.now ≤ 8 }
    ensures { take (length gs.now) parts.new
        ≡ all_given p.now tables.now context.now (map given_of gs.now) }
{
    for i in 0..gs.len() {
        parts[i] = given_here(tables, context, p, &gs[i]);
    }
}

pub fn labels_of<R: Reads>(tables: &Tables, context: &Context, p: &Input<R>, gs: &[Given]) -> Labels
    requires { length gs.now ≤ 136 }
    ensures { result ≡ all_given p.now tables.now context.now (map given_of gs.now) }
{
    let mut labels = Labels::new();
    for g in gs {
        labels.push(given(tables, context, p, g));
    }
    labels
}
