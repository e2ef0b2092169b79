// What a statement with two blocks asks.
ghost use Rattle.std.specs.Prelude.{◌≡◌, ◌+◌, ◌≤◌, ◌<◌, [], List, ℕ, length, map, None, Some};
ghost use Rattle.std.specs.Option.{option_map};
ghost use Rattle.nf_base.specs.Chains.{entry_at};
ghost use Rattle.nf_base.specs.Context.{value, given};
ghost use Rattle.nf_base.specs.Limits.{QuestionFits};
ghost use Rattle.nf_base.specs.Operations.{answer, bound, key_found, index_found};
ghost use Rattle.nf_base.specs.View.{expression_of, given_of, guard_of, question_of};
ghost use Rattle.vig_tables.specs.Table.{has_label};
ghost use Rattle.vig_tables.specs.TablesState.{TablesState};
ghost use Rattle.nf_engine.specs.View.{context_of, input_of, fixed_of, fixed_in, all_given};
ghost use Rattle.nf_engine.specs.Course.{Answers, bound_by};

use crate::context::Context;
use crate::entry_ref::EntryRef;
use crate::input::Input;
use crate::reads::Reads;
use crate::values::{fill_parts, given, value};
use nf_base::block::Question;
use nf_base::expr::{Given, Guard};
use nf_base::value::compares;
use vig_tables::Tables;

/// The index that a `get` finds.
fn look_up<R: Reads>(
    tables: &Tables,
    context: &Context,
    p: &Input<R>,
    chain: u32,
    m: u32,
    key: &[Given],
) -> Option<u32>
    requires over { fixed_of tables.now ≡ fixed_in p.now }
    requires fits { length key.now ≤ 8 }
    ensures { let c = context_of tables.now [] context.now in
        let k = all_given p.now tables.now context.now (map given_of key.now) in
        result ≡ key_found (input_of p.now) c chain m k }
{
    let mut parts = [0; 8];
    fill_parts(&mut parts, tables, context, p, key);
    tables.lookup_parts(chain, m, &parts[..key.len()])
}

/// The index that a `find` finds in a chain.
fn search<R: Reads>(
    tables: &Tables,
    context: &Context,
    p: &Input<R>,
    chain: u32,
    i: u128,
    guards: &[Guard],
) -> Option<u32>
    ensures { let c = context_of tables.now [] context.now in
        result ≡ index_found (input_of p.now) c chain i (map guard_of guards.now) }
{
    let found = tables.find_at(chain, i, &[])?;
    for g in guards {
        let v = given(tables, context, p, &g.given);
        if tables.find_at(chain, i, &[(g.label, v)]).is_none() {
            return None;
        }
    }
    Some(found)
}

/// Binds a variable to what a look-up found, if it found something.
fn bind_found(context: &mut Context, hit: Option<u32>, chain: u32, var: u32) -> bool
    requires room { length context.old.vars < 32 }
    ensures bound { (t : TablesState)
        → Answers result t context.old context.new (λ c. option_map (bound var chain c) hit) }
    ensures picks { context.new.picks ≡ context.old.picks }
    ensures room { length context.new.vars ≤ length context.old.vars + 1 }
{
    match hit {
        None => false,
        Some(i) => {
            context.vars.bind(var, EntryRef::new(chain, i));
            true
        }
    }
}

/// Whether a question hits; a variable that it binds is bound then.
pub fn ask<R: Reads>(
    tables: &Tables,
    context: &mut Context,
    p: &Input<R>,
    question: &Question,
) -> bool
    requires over { fixed_of tables.now ≡ fixed_in p.now }
    requires fits { QuestionFits (question_of question.now) }
    requires room { length context.old.vars + bound_by (question_of question.now) ≤ 32 }
    ensures answers { Answers result tables.now context.old context.new
        (λ c. answer (input_of p.now) c (question_of question.now)) }
    ensures picks { context.new.picks ≡ context.old.picks }
    ensures room { let more = bound_by (question_of question.now) in
        length context.new.vars ≤ length context.old.vars + more }
{
    match question {
        Question::Get {
            chain,
            map,
            key,
            var,
            ..
        } => {
            let hit = look_up(tables, context, p, *chain, *map, key.as_slice());
            bind_found(context, hit, *chain, *var)
        }
        Question::Find {
            chain,
            at,
            guards,
            var,
            ..
        } => {
            let i = value(tables, context, p, at);
            let hit = search(tables, context, p, *chain, i, guards.as_slice());
            bind_found(context, hit, *chain, *var)
        }
        Question::Test {
            comparison,
            left,
            right,
            ..
        } => {
            let left = value(tables, context, p, left);
            let right = value(tables, context, p, right);
            compares(*comparison, left, right)
        }
    }
}
