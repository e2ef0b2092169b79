//! What is wrong with the fronts of statements.

ghost use Rattle.std.specs.Prelude.{◌≡◌, [], length, map};
ghost use Rattle.nf_tree.specs.View as syntax;
ghost use Rattle.nf_types.specs.Expressions.{value_faults};
ghost use Rattle.nf_types.specs.Faults.{each_behind, first, fault_in};
ghost use Rattle.nf_types.specs.Statements.{chain_named, map_named};
ghost use Rattle.nf_types.specs.StatementFaults.{binding_faults, map_faults_at, amount_faults, look_in_faults, look_up_faults, is_given, is_column_in, given_faults, lacks_label, making_faults, finding_faults, set_faults, write_at_faults, write_faults, store_faults};
ghost use Rattle.nf_types.specs.Variables.{variable_named};
ghost use Rattle.nf_types.specs.View.{variables_of};

use crate::fault::{Fault, TypingKind, refuse_if};
use crate::field::is_settable;
use crate::name::{Named, first_named, is_among};
use crate::objects::{Objects, chain_named, is_object};
use crate::question::{asked, parts};
use crate::value::column_named;
use crate::value_rules::{array, named_field, value, values, wrong};
use crate::variables::{Variables, chain_of, is_in_scope};
use nf_base::decl::{ChainDecl, ColumnDecl, ColumnId};
use nf_base::packet::{Family, Field};
use nf_tokens::Place;
use nf_tree::{Expr as Value, Given as Assigned, Guards, Name};

/// A new variable differs from every chain and array, and from every variable in scope.
pub fn binding(objects: &Objects, scope: &Variables, name: &Name) -> Result<(), Fault>
    ensures { first (binding_faults objects.now (variables_of scope.now) name.now)
        ≡ fault_in result }
{
    let is_named = is_object(objects, name.bytes.as_slice());
    let is_taken = is_named || is_in_scope(scope, &name.bytes);
    refuse_if(is_taken, TypingKind::Twice, name.place)
}

/// A map of a chain.
fn map_of(chain: &ChainDecl, wanted: &Name) -> Result<(), Fault>
    ensures { first (map_faults_at (map_named chain.now wanted.now.bytes) wanted.now)
        ≡ fault_in result }
{
    match first_named(wanted.bytes.as_slice(), chain.maps.as_slice()) {
        Some(_) => Ok(()),
        None => wrong(TypingKind::Unknown, wanted),
    }
}

/// As many values as the key of a map has parts.
fn amount(chain: &ChainDecl, wanted: &Name, values: usize, close: Place) -> Result<(), Fault>
    ensures { first (amount_faults chain.now (map_named chain.now wanted.now.bytes) values close)
        ≡ fault_in result }
{
    match first_named(wanted.bytes.as_slice(), chain.maps.as_slice()) {
        Some((_, found)) => {
            let is_wrong = values != parts(chain, found).len();
            refuse_if(is_wrong, TypingKind::Amount, close)
        }
        None => Ok(()),
    }
}

/// Where a `get` looks.
#[tactic(auto, using(crate::proofs::First::first_append))]
pub fn look_up(
    family: Family,
    objects: &Objects,
    scope: &Variables,
    chain: &Name,
    wanted: &Name,
    key: &[Value],
    close: Place,
) -> Result<(), Fault>
    ensures { first (look_up_faults family objects.now (variables_of scope.now) chain.now wanted.now
        (map syntax.expression_of key.now) close) ≡ fault_in result }
{
    match chain_named(objects, chain) {
        None => wrong(TypingKind::Unknown, chain),
        Some((_, found)) => {
            map_of(found, wanted)?;
            values(family, objects, scope, key)?;
            amount(found, wanted, key.len(), close)
        }
    }
}

fn is_given(given: &[Assigned], name: &[u8]) -> bool
    ensures { result ≡ is_given (map syntax.given_of given.now) name.now }
{
    for one in given {
        if name == one.name.bytes.as_slice() {
            return true;
        }
    }
    false
}

/// A name that a `new` or a `where` gives is a label's, and stands once.
#[tactic(auto, using(crate::proofs::First::first_append), unfolding(crate::specs::StatementFaults::given_faults))]
fn given(
    family: Family,
    objects: &Objects,
    scope: &Variables,
    chain: &ChainDecl,
    before: &[Assigned],
    one: &Assigned,
) -> Result<(), Fault>
    ensures { first (given_faults family objects.now (variables_of scope.now) chain.now
        (map syntax.given_of before.now) (syntax.given_of one.now)) ≡ fault_in result }
{
    let name = one.name.bytes.as_slice();
    let place = one.name.place;
    let is_label = is_among(name, chain.labels.as_slice());
    let is_free = is_among(name, chain.columns.as_slice());
    refuse_if(!is_label && !is_free, TypingKind::Unknown, place)?;
    refuse_if(is_given(before, name), TypingKind::Twice, place)?;
    refuse_if(!is_label && is_free, TypingKind::FreeColumn, place)?;
    value(family, objects, scope, &one.value)
}

/// What a `new` or a `where` gives, one by one.
fn each_given(
    family: Family,
    objects: &Objects,
    scope: &Variables,
    chain: &ChainDecl,
    all: &[Assigned],
) -> Result<(), Fault>
    ensures { first (each_behind (given_faults family objects.now (variables_of scope.now) chain.now) []
        (map syntax.given_of all.now)) ≡ fault_in result }
{
    for (i, one) in all.iter().enumerate() {
        given(family, objects, scope, chain, &all[..i], one)?;
    }
    Ok(())
}

/// Whether some label is given no value.
fn lacks_label(given: &[Assigned], labels: &[ColumnDecl]) -> bool
    ensures { result ≡ lacks_label (map syntax.given_of given.now) labels.now }
{
    for label in labels {
        if !is_given(given, label.name()) {
            return true;
        }
    }
    false
}

/// What a `new` makes.
#[tactic(auto, using(crate::proofs::First::first_append))]
pub fn make(
    family: Family,
    objects: &Objects,
    scope: &Variables,
    chain: &Name,
    given: &[Assigned],
    close: Place,
) -> Result<(), Fault>
    ensures { first (making_faults family objects.now (variables_of scope.now) chain.now
        (map syntax.given_of given.now) close) ≡ fault_in result }
{
    match chain_named(objects, chain) {
        None => wrong(TypingKind::Unknown, chain),
        Some((_, found)) => {
            each_given(family, objects, scope, found, given)?;
            let lacks = lacks_label(given, found.labels.as_slice());
            refuse_if(lacks, TypingKind::Amount, close)
        }
    }
}

/// What a `find` looks for.
#[tactic(auto, using(crate::proofs::First::first_append))]
pub fn find(
    family: Family,
    objects: &Objects,
    scope: &Variables,
    chain: &Name,
    index: &Value,
    guards: &Guards,
) -> Result<(), Fault>
    ensures { first (finding_faults family objects.now (variables_of scope.now) chain.now
        (syntax.expression_of index.now) (syntax.guards_of guards.now)) ≡ fault_in result }
{
    match chain_named(objects, chain) {
        None => wrong(TypingKind::Unknown, chain),
        Some((_, found)) => {
            value(family, objects, scope, index)?;
            each_given(family, objects, scope, found, asked(guards))
        }
    }
}

/// A field that is set is none of the time, the length and the protocol, and one of the handler's
/// packets.
#[tactic(auto, using(crate::proofs::First::first_append))]
pub fn set(
    family: Family,
    objects: &Objects,
    scope: &Variables,
    field: Field,
    place: Place,
    given: &Value,
) -> Result<(), Fault>
    ensures { first (set_faults family objects.now (variables_of scope.now) field place
        (syntax.expression_of given.now)) ≡ fault_in result }
{
    refuse_if(!is_settable(field), TypingKind::ReadOnly, place)?;
    named_field(family, field, place)?;
    value(family, objects, scope, given)
}

/// A column that is written is a free one of a variable's entry.
fn written(scope: &Variables, variable: &Name, column: &Name) -> Result<(), Fault>
    ensures { first (write_at_faults (variable_named (variables_of scope.now) variable.now.bytes)
        variable.now column.now) ≡ fault_in result }
{
    match chain_of(scope, &variable.bytes) {
        None => wrong(TypingKind::NotInScope, variable),
        Some(None) => Ok(()),
        Some(Some(chain)) => match column_named(chain, &column.bytes) {
            Some(ColumnId::Column(_)) => Ok(()),
            Some(ColumnId::Label(_)) => wrong(TypingKind::ReadOnly, column),
            None => wrong(TypingKind::Unknown, column),
        },
    }
}

/// A free column of a variable's entry is given a value.
#[tactic(auto, using(crate::proofs::First::first_append))]
pub fn write(
    family: Family,
    objects: &Objects,
    scope: &Variables,
    variable: &Name,
    column: &Name,
    given: &Value,
) -> Result<(), Fault>
    ensures { first (write_faults family objects.now (variables_of scope.now) variable.now column.now
        (syntax.expression_of given.now)) ≡ fault_in result }
{
    written(scope, variable, column)?;
    value(family, objects, scope, given)
}

/// A cell of an array is given a value.
#[tactic(auto, using(crate::proofs::First::first_append))]
pub fn store(
    family: Family,
    objects: &Objects,
    scope: &Variables,
    name: &Name,
    index: &Value,
    given: &Value,
) -> Result<(), Fault>
    ensures { first (store_faults family objects.now (variables_of scope.now) name.now
        (syntax.expression_of index.now) (syntax.expression_of given.now)) ≡ fault_in result }
{
    array(objects, name)?;
    value(family, objects, scope, index)?;
    value(family, objects, scope, given)
}
