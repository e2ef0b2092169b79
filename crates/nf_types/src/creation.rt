//! The entries that statements make.

ghost use Rattle.std.specs.Prelude.{◌≡◌, ◌+◌, ◌<◌, ◌^◌, length, map, IfOk};
ghost use Rattle.nf_base.specs.View as checked;
ghost use Rattle.nf_tree.specs.View as syntax;
ghost use Rattle.nf_types.specs.Blocks.{checked_creation};
ghost use Rattle.nf_types.specs.Places.{creation_places};
ghost use Rattle.nf_types.specs.Statements.{given_cells, value_for};
ghost use Rattle.nf_types.specs.View.{variables_of};

use crate::cells::cells;
use crate::objects::{Objects, chain_named};
use crate::value::given_to;
use crate::variables::{Variables, count};
use nf_base::block::Creation as Checked;
use nf_base::decl::ColumnDecl;
use nf_base::expr::{Expr, Given};
use nf_base::seq::Seq;
use nf_tree::{Creation, Given as Assigned};
use std::alloc::{AllocError, Global};

/// The value that a label is given first.
fn value_for(
    alloc: Global,
    place: u32,
    objects: &Objects,
    scope: &Variables,
    given: &[Assigned],
    label: &ColumnDecl,
) -> Result<Given, AllocError>
    requires places { place + given_cells (map syntax.given_of given.now) < 2 ^ 32 }
    requires in_scope { length (variables_of scope.now) < 2 ^ 32 }
    ensures { IfOk result (λ g. checked.given_of g
        ≡ value_for place objects.now (variables_of scope.now) (map syntax.given_of given.now)
        label.now) }
{
    let mut at = place;
    for one in given {
        if label.name.as_slice() == one.name.bytes.as_slice() {
            return given_to(alloc, at, objects, scope, label.width, &one.value);
        }
        at += cells(&one.value);
    }
    Ok(Given {
        width: label.width,
        value: Expr::Number(0),
    })
}

/// The values of the labels one by one.
fn values(
    alloc: Global,
    place: u32,
    objects: &Objects,
    scope: &Variables,
    given: &[Assigned],
    labels: &[ColumnDecl],
) -> Result<Seq<Given>, AllocError>
    requires places { place + given_cells (map syntax.given_of given.now) < 2 ^ 32 }
    requires in_scope { length (variables_of scope.now) < 2 ^ 32 }
    ensures { IfOk result (λ gs. map checked.given_of gs
        ≡ map (value_for place objects.now (variables_of scope.now) (map syntax.given_of given.now))
        labels.now) }
{
    let mut all = Seq::new(alloc);
    for label in labels {
        all.push(value_for(alloc, place, objects, scope, given, label)?)?;
    }
    Ok(all)
}

/// The checked `new` that a `new` of the text stands for.
pub fn creation(
    alloc: Global,
    place: u32,
    objects: &Objects,
    scope: &Variables,
    text: &Creation,
) -> Result<Checked, AllocError>
    requires places { place + creation_places (syntax.creation_of text.now) < 2 ^ 32 }
    requires in_scope { length (variables_of scope.now) < 2 ^ 32 }
    ensures { IfOk result (λ n. checked.creation_of n
        ≡ checked_creation place objects.now (variables_of scope.now)
        (syntax.creation_of text.now)) }
{
    let (chain, labels) = match chain_named(objects, &text.chain) {
        Some((number, found)) => {
            let labels = found.labels.as_slice();
            (
                number,
                values(
                    alloc,
                    place + 1,
                    objects,
                    scope,
                    text.given.as_slice(),
                    labels,
                )?,
            )
        }
        None => (0, Seq::new(alloc)),
    };
    Ok(Checked {
        place,
        chain,
        labels,
        var: count(scope),
    })
}
