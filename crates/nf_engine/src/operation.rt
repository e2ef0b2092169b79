// What a statement without a block of its own does.
ghost use Rattle.std.specs.Prelude.{◌≡◌, ◌≤◌, List, ℕ, length};
ghost use Rattle.nf_base.specs.Chains.{touched, freed, written};
ghost use Rattle.nf_base.specs.Context.{var_at};
ghost use Rattle.nf_base.specs.Operations.{after, on_var, without};
ghost use Rattle.nf_base.specs.View.{operation_of};
ghost use Rattle.vig_tables.specs.TablesState.{with_chains};
ghost use Rattle.nf_engine.specs.View.{context_of, input_of, fixed_of};

use crate::context::Context;
use crate::entry_ref::EntryRef;
use crate::input::Input;
use crate::reads::Reads;
use crate::values::{given, value};
use crate::vars::Vars;
use nf_base::block::Operation;
use nf_base::value::narrowed;
use nf_base::width::Width;
use vig_tables::Tables;

fn touch(tables: &mut Tables, time: u64, var: Option<EntryRef>)
    ensures { let chains = on_var (touched time) var tables.old.state.chains in
        tables.new ≡ with_chains chains tables.old }
{
    match var {
        None => {}
        Some(at) => tables.touch(at.chain(), at.index(), time),
    }
}

fn write(tables: &mut Tables, var: Option<EntryRef>, column: u32, v: u128)
    ensures { let chains = on_var (written column v) var tables.old.state.chains in
        tables.new ≡ with_chains chains tables.old }
{
    match var {
        None => {}
        Some(at) => tables.set_column(at.chain(), at.index(), column, v),
    }
}

fn free(tables: &mut Tables, var: Option<EntryRef>)
    ensures { let chains = on_var freed var tables.old.state.chains in
        tables.new ≡ with_chains chains tables.old }
{
    match var {
        None => {}
        Some(at) => tables.free(at.chain(), at.index()),
    }
}

/// No variable stands for a freed entry any more.
fn forget(vars: &mut Vars, var: &Option<EntryRef>)
    ensures forgotten { vars.new ≡ without var.now vars.old }
    ensures as_many { length vars.new ≡ length vars.old }
{
    match var {
        None => {}
        Some(at) => vars.forget(*at),
    }
}

pub fn operate<R: Reads>(
    tables: &mut Tables,
    context: &mut Context,
    p: &Input<R>,
    operation: &Operation,
)
    ensures done { (left : List ℕ)
        → context_of tables.new left context.new
        ≡ after (input_of p.now) (context_of tables.old left context.old)
        (operation_of operation.now) }
    ensures picks { context.new.picks ≡ context.old.picks }
    ensures room { length context.new.vars ≡ length context.old.vars }
    ensures stays { fixed_of tables.new ≡ fixed_of tables.old }
{
    match operation {
        Operation::Touch { var } => {
            let at = context.vars.at(*var);
            touch(tables, p.time(), at);
        }
        Operation::Free { var } => {
            let at = context.vars.at(*var);
            forget(&mut context.vars, &at);
            free(tables, at);
        }
        Operation::Set { field, given: g } => {
            let v = given(tables, context, p, g);
            context.edits.set(*field, v);
        }
        Operation::Write {
            var,
            column,
            given: g,
        } => {
            let v = given(tables, context, p, g);
            let at = context.vars.at(*var);
            write(tables, at, *column, v);
        }
        Operation::Store {
            array,
            at,
            given: g,
            ..
        } => {
            let i = narrowed(Width::W16, value(tables, context, p, at));
            let v = given(tables, context, p, g);
            tables.write(*array, i, v);
        }
    }
}
