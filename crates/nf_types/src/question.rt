//! Statements with two blocks, without the blocks: where they look, and for what. Values are dropped
//! by calls, as in `value`.

ghost use Rattle.std.specs.Prelude.{◌≡◌, ◌+◌, ◌<◌, ◌^◌, length, map, IfOk};
ghost use Rattle.nf_base.specs.View as checked;
ghost use Rattle.nf_tree.specs.Tree.{Test};
ghost use Rattle.nf_tree.specs.View as syntax;
ghost use Rattle.nf_types.specs.Blocks.{checked_get_in, checked_get, checked_find, checked_question};
ghost use Rattle.nf_types.specs.Expressions.{cells};
ghost use Rattle.nf_types.specs.Places.{question_places};
ghost use Rattle.nf_types.specs.Statements.{parts_of, key_of, key_cells, given_cells, chain_named, map_named, label_named, guard_to, guards_in, asked};
ghost use Rattle.nf_types.specs.View.{variables_of};

use crate::cells::cells;
use crate::name::first_named;
use crate::objects::{Objects, chain_named};
use crate::value::{given_to, value};
use crate::variables::{Variables, count};
use nf_base::block::Question as Checked;
use nf_base::decl::{ChainDecl, ColumnDecl, MapDecl};
use nf_base::expr::{Comparison, Given, Guard};
use nf_base::seq::Seq;
use nf_base::width::Width;
use nf_tree::{Expr as Value, Given as Assigned, Guards, Name, Question};
use std::alloc::{AllocError, Global};

/// The labels that are the parts of a map's key.
pub fn parts<'a>(chain: &'a ChainDecl, map: &MapDecl) -> &'a [ColumnDecl]
    ensures { result.now ≡ parts_of chain.now map.now }
{
    let labels = chain.labels.as_slice();
    let first = labels.len().min(map.first as usize);
    let behind = &labels[first..];
    let parts = behind.len().min(map.parts as usize);
    &behind[..parts]
}

/// Each part of a key with its value.
fn key(
    alloc: Global,
    place: u32,
    objects: &Objects,
    scope: &Variables,
    parts: &[ColumnDecl],
    key: &[Value],
) -> Result<Seq<Given>, AllocError>
    requires places { place + key_cells (map syntax.expression_of key.now) < 2 ^ 32 }
    requires in_scope { length (variables_of scope.now) < 2 ^ 32 }
    ensures { IfOk result (λ gs. map checked.given_of gs
        ≡ key_of place objects.now (variables_of scope.now) parts.now
        (map syntax.expression_of key.now)) }
{
    let mut all = Seq::new(alloc);
    let mut at = place;
    for i in 0..parts.len().min(key.len()) {
        all.push(given_to(alloc, at, objects, scope, parts[i].width, &key[i])?)?;
        at += cells(&key[i]);
    }
    Ok(all)
}

/// A `get` in the chain with this number.
fn get_in(
    alloc: Global,
    place: u32,
    objects: &Objects,
    scope: &Variables,
    found: (u32, &ChainDecl),
    wanted: &Name,
    values: &Seq<Value>,
) -> Result<Checked, AllocError>
    requires places { place + 1 + key_cells (map syntax.expression_of values.now) < 2 ^ 32 }
    requires in_scope { length (variables_of scope.now) < 2 ^ 32 }
    ensures { IfOk result (λ q. checked.question_of q
        ≡ checked_get_in place objects.now (variables_of scope.now) found.entry.0 found.entry.1.now
        (map_named found.entry.1.now wanted.now.bytes) (map syntax.expression_of values.now)) }
{
    let (chain, decl) = found;
    let var = count(scope);
    match first_named(wanted.bytes.as_slice(), decl.maps.as_slice()) {
        Some((map, one)) => {
            let parts = parts(decl, one);
            let key = key(alloc, place + 1, objects, scope, parts, values.as_slice())?;
            Ok(Checked::Get {
                place,
                chain,
                map,
                key,
                var,
            })
        }
        None => Ok(Checked::Get {
            place,
            chain,
            map: 0,
            key: Seq::new(alloc),
            var,
        }),
    }
}

/// A `get`, in a chain with a name.
fn get(
    alloc: Global,
    place: u32,
    objects: &Objects,
    scope: &Variables,
    chain: &Name,
    wanted: &Name,
    values: &Seq<Value>,
) -> Result<Checked, AllocError>
    requires places { place + 1 + key_cells (map syntax.expression_of values.now) < 2 ^ 32 }
    requires in_scope { length (variables_of scope.now) < 2 ^ 32 }
    ensures { IfOk result (λ q. checked.question_of q
        ≡ checked_get place objects.now (variables_of scope.now)
        (chain_named objects.now.chains chain.now.bytes) wanted.now
        (map syntax.expression_of values.now)) }
{
    match chain_named(objects, chain) {
        Some(found) => get_in(alloc, place, objects, scope, found, wanted, values),
        None => Ok(Checked::Get {
            place,
            chain: 0,
            map: 0,
            key: Seq::new(alloc),
            var: count(scope),
        }),
    }
}

/// A label with the value that it has to have.
fn guard(
    alloc: Global,
    place: u32,
    objects: &Objects,
    scope: &Variables,
    labels: &[ColumnDecl],
    one: &Assigned,
) -> Result<Guard, AllocError>
    requires few { length labels.now < 2 ^ 16 }
    requires places { place + cells (syntax.expression_of one.now.value) < 2 ^ 32 }
    requires in_scope { length (variables_of scope.now) < 2 ^ 32 }
    ensures { IfOk result (λ g. checked.guard_of g
        ≡ guard_to place objects.now (variables_of scope.now)
        (label_named labels.now one.now.name.bytes) (syntax.expression_of one.now.value)) }
{
    let (label, width) = match first_named(one.name.bytes.as_slice(), labels) {
        Some((label, found)) => (label, found.width),
        None => (0, Width::W64),
    };
    let given = given_to(alloc, place, objects, scope, width, &one.value)?;
    Ok(Guard { label, given })
}

/// Each label with the value that it has to have.
fn guards(
    alloc: Global,
    place: u32,
    objects: &Objects,
    scope: &Variables,
    labels: &[ColumnDecl],
    given: &[Assigned],
) -> Result<Seq<Guard>, AllocError>
    requires few { length labels.now < 2 ^ 16 }
    requires places { place + given_cells (map syntax.given_of given.now) < 2 ^ 32 }
    requires in_scope { length (variables_of scope.now) < 2 ^ 32 }
    ensures { IfOk result (λ gs. map checked.guard_of gs
        ≡ guards_in place objects.now (variables_of scope.now) labels.now
        (map syntax.given_of given.now)) }
{
    let mut all = Seq::new(alloc);
    let mut at = place;
    for one in given {
        all.push(guard(alloc, at, objects, scope, labels, one)?)?;
        at += cells(&one.value);
    }
    Ok(all)
}

/// What a `find` asks of labels.
pub fn asked(guards: &Guards) -> &[Assigned]
    ensures { map syntax.given_of result.now ≡ asked (syntax.guards_of guards.now) }
{
    match guards {
        Guards::Missing => &[],
        Guards::Where { given, .. } => given.as_slice(),
    }
}

/// A `find`, in a chain with a name.
fn find(
    alloc: Global,
    place: u32,
    objects: &Objects,
    scope: &Variables,
    chain: &Name,
    index: &Value,
    wanted: &[Assigned],
) -> Result<Checked, AllocError>
    requires places { place + 1 + cells (syntax.expression_of index.now) + given_cells
        (map syntax.given_of wanted.now)
        < 2 ^ 32 }
    requires in_scope { length (variables_of scope.now) < 2 ^ 32 }
    ensures { IfOk result (λ q. checked.question_of q
        ≡ checked_find place objects.now (variables_of scope.now)
        (chain_named objects.now.chains chain.now.bytes) (syntax.expression_of index.now)
        (map syntax.given_of wanted.now)) }
{
    let at = value(alloc, place + 1, objects, scope, index)?;
    let behind = place + 1 + cells(index);
    let (chain, guards) = match chain_named(objects, chain) {
        Some((number, found)) => {
            let labels = found.labels.as_slice();
            match guards(alloc, behind, objects, scope, labels, wanted) {
                Ok(guards) => (number, guards),
                Err(stop) => {
                    drop(at);
                    return Err(stop);
                }
            }
        }
        None => (0, Seq::new(alloc)),
    };
    Ok(Checked::Find {
        place,
        chain,
        at,
        guards,
        var: count(scope),
    })
}

/// A test of two values.
fn test(
    alloc: Global,
    place: u32,
    objects: &Objects,
    scope: &Variables,
    left: &Value,
    comparison: Comparison,
    right: &Value,
) -> Result<Checked, AllocError>
    requires places { place + 1 + cells (syntax.expression_of left.now) + cells
        (syntax.expression_of right.now)
        < 2 ^ 32 }
    requires in_scope { length (variables_of scope.now) < 2 ^ 32 }
    ensures { IfOk result (λ q. checked.question_of q
        ≡ checked_question place objects.now (variables_of scope.now)
        (Test (syntax.expression_of left.now) comparison (syntax.expression_of right.now))) }
{
    let behind = place + 1 + cells(left);
    let left = value(alloc, place + 1, objects, scope, left)?;
    match value(alloc, behind, objects, scope, right) {
        Ok(right) => Ok(Checked::Test {
            place,
            comparison,
            left,
            right,
        }),
        Err(stop) => {
            drop(left);
            Err(stop)
        }
    }
}

/// The checked question that a question of the text stands for.
pub fn question(
    alloc: Global,
    place: u32,
    objects: &Objects,
    scope: &Variables,
    text: &Question,
) -> Result<Checked, AllocError>
    requires places { place + question_places (syntax.question_of text.now) < 2 ^ 32 }
    requires in_scope { length (variables_of scope.now) < 2 ^ 32 }
    ensures { IfOk result (λ q. checked.question_of q
        ≡ checked_question place objects.now (variables_of scope.now)
        (syntax.question_of text.now)) }
{
    match text {
        Question::Get {
            chain,
            map,
            key,
            ..
        } => get(alloc, place, objects, scope, chain, map, key),
        Question::Find {
            chain,
            index,
            guards,
            ..
        } => find(alloc, place, objects, scope, chain, index, asked(guards)),
        Question::Test {
            left,
            comparison,
            right,
        } => test(alloc, place, objects, scope, left, *comparison, right),
    }
}
