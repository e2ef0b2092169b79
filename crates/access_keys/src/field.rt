//! Values that are fields which the hash reads.
ghost use Rattle.std.specs.Prelude.{◌≡◌, IfOk, map, take, drop, get_or, None};
ghost use Rattle.nf_base.specs.Values.{bits, is_hashable};
ghost use Rattle.path_walk.specs.Tests.{field_number};
ghost use Rattle.access_keys.specs.Speaking.{field_in};
ghost use Rattle.nf_base.specs.View.{expression_of, given_of};
ghost use Rattle.nf_sites.specs.Known.{hashed_of, plain_field, field_set, same_field};

use nf_base::expr::{Expr, Given};
use nf_base::hash_fields::{Hashable, hashable_field};
use nf_base::packet::{Family, Field};
use nf_base::value::field_width;
use nf_base::width::Width;
use std::alloc::{AllocError, Global};

/// How many bits a width has.
fn bits(width: Width) -> u32
    ensures { result ≡ bits width }
{
    match width {
        Width::W8 => 8,
        Width::W16 => 16,
        Width::W32 => 32,
        Width::W48 => 48,
        Width::W64 => 64,
        Width::W128 => 128,
    }
}

/// The field that a value is.
fn plain_field(value: &Expr) -> Option<Field>
    ensures { result ≡ plain_field (expression_of value.now) }
{
    match value {
        Expr::Number(_) => None,
        Expr::Read(field) => Some(*field),
        Expr::Index { .. } => None,
        Expr::Label { .. } => None,
        Expr::Column { .. } => None,
        Expr::Cell { .. } => None,
        Expr::Both { .. } => None,
    }
}

/// Whether a card hashes a field.
fn is_hashable(field: Field) -> bool
    ensures { result ≡ is_hashable field }
{
    match field {
        Field::Time => false,
        Field::Length => false,
        Field::SrcMac => false,
        Field::DstMac => false,
        Field::SrcIp => true,
        Field::DstIp => true,
        Field::SrcIp6 => true,
        Field::DstIp6 => true,
        Field::Proto => false,
        Field::Ttl => false,
        Field::SrcPort => true,
        Field::DstPort => true,
    }
}

/// A field's number, which no other has.
fn number(field: Field) -> u32
    ensures { result ≡ field_number field }
{
    match field {
        Field::Time => 0,
        Field::Length => 1,
        Field::SrcMac => 2,
        Field::DstMac => 3,
        Field::SrcIp => 4,
        Field::DstIp => 5,
        Field::SrcIp6 => 10,
        Field::DstIp6 => 11,
        Field::Proto => 6,
        Field::Ttl => 7,
        Field::SrcPort => 8,
        Field::DstPort => 9,
    }
}

/// A field, where it is hashed and has so many bits.
fn hashed_of(w: u32, field: Option<Field>) -> Option<Field>
    ensures { result ≡ hashed_of w field }
{
    match field {
        None => None,
        Some(field) => {
            if is_hashable(field) && w == bits(field_width(field)) {
                Some(field)
            } else {
                None
            }
        }
    }
}

/// The hashed field that a value is, where it has this width.
pub fn field_of_width(width: Width, value: &Expr) -> Option<Field>
    ensures { result ≡ hashed_of (bits width) (plain_field (expression_of value.now)) }
{
    hashed_of(bits(width), plain_field(value))
}

/// The hashed field that a value is, where it has the width of what it is given to.
pub fn field_set(given: &Given) -> Option<Field>
    ensures { result ≡ field_set (given_of given.now) }
{
    field_of_width(given.width, &given.value)
}

/// What a field is to packets of a family.
pub fn field_in(family: Family, field: Option<Field>) -> Option<Hashable>
    ensures { result ≡ field_in family field }
{
    match field {
        None => None,
        Some(field) => hashable_field(family, field),
    }
}

/// The fields that some values are.
pub fn fields_given(alloc: Global, given: &[Given]) -> Result<Vec<Option<Field>>, AllocError>
    ensures { IfOk result (λ v. v.items ≡ map (λ g. field_set (given_of g)) given.now) }
{
    given.iter().map(|one| field_set(one)).collect(alloc)
}

/// The fields from a label on, as many as there are up to a count.
pub fn part(fields: &[Option<Field>], first: u32, count: u32) -> &[Option<Field>]
    ensures { result.now ≡ take count (drop first fields.now) }
{
    let start = (first as usize).min(fields.len());
    let rest = &fields[start..];
    let end = (count as usize).min(rest.len());
    &rest[..end]
}

/// The field of a label, if it has one.
pub fn field_at(fields: &[Option<Field>], label: usize) -> Option<Field>
    ensures { result ≡ get_or fields.now label None }
{
    if label < fields.len() {
        fields[label]
    } else {
        None
    }
}

/// Whether these are one field.
pub fn same_field(one: Option<Field>, other: Option<Field>) -> bool
    ensures { result ≡ same_field one other }
{
    match one {
        None => false,
        Some(one) => match other {
            None => false,
            Some(other) => number(one) == number(other),
        },
    }
}
