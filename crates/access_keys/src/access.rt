//! Sites at cells of arrays.
ghost use Rattle.std.specs.Prelude.{◌≡◌, ◌∷◌, [], OnOk, map};
ghost use Rattle.nf_base.specs.View.{expression_of, given_of, guard_of};
ghost use Rattle.nf_sites.specs.Sites.{cell_site, expression_sites, given_sites, guard_sites};
ghost use Rattle.nf_sites.specs.ReadOrder.{by_first_read};
ghost use Rattle.access_keys.specs.Shown.{Puts};

use crate::creation::NewFields;
use crate::known::index_known;
use crate::places::Places;
use crate::read_order::by_first_read;
use crate::site::Site;
use nf_base::decl::{ChainDecl, ObjectId};
use nf_base::expr::{Expr, Given, Guard};
use nf_base::packet::Door;
use nf_sites::Sort;
use std::alloc::{AllocError, Global};

/// A handler's text, as far as its sites need it.
#[derive(Clone, Copy)]
pub struct Here<'a> {
    pub door: Door,
    /// The function's chains.
    pub decls: &'a [ChainDecl],
    /// The fields that each `new` of the function sets.
    pub all: &'a [NewFields],
    /// The places that the handler's feasible paths come to.
    pub places: &'a Places,
}

impl<'a> Here<'a> {
    pub fn of(
        door: Door,
        decls: &'a [ChainDecl],
        all: &'a [NewFields],
        places: &'a Places,
    ) -> Here<'a>
        ensures door { result.door ≡ door }
        ensures decls { result.decls.now ≡ decls.now }
        ensures all { result.all.now ≡ all.now }
        ensures places { result.places.now ≡ places.now }
    {
        Here {
            door,
            decls,
            all,
            places,
        }
    }
}

/// The site of an access to a cell, where it is reached, behind others.
pub fn put_cell(
    alloc: Global,
    here: &Here<'_>,
    sort: Sort,
    place: u32,
    array: u32,
    at: &Expr,
    sites: &mut Vec<Site>,
) -> Result<(), AllocError>
    ensures { OnOk result (Puts here.now sites.old.items sites.new.items
        (cell_site here.now.door sort place array (expression_of at.now) ∷ [])) }
{
    if here.places.has(place) {
        let known = index_known(alloc, here.door.family, at)?;
        sites.push(Site {
            object: ObjectId::Array(array),
            door: here.door,
            place,
            sort,
            known,
        })?;
    }
    Ok(())
}

/// The sites of the cells that an expression reads, each before those in its index.
pub fn put_value(
    alloc: Global,
    here: &Here<'_>,
    value: &Expr,
    sites: &mut Vec<Site>,
) -> Result<(), AllocError>
    ensures { OnOk result (Puts here.now sites.old.items sites.new.items
        (expression_sites here.now.door (expression_of value.now))) }
{
    match value {
        Expr::Number(_) => Ok(()),
        Expr::Read(_) => Ok(()),
        Expr::Index { .. } => Ok(()),
        Expr::Label { .. } => Ok(()),
        Expr::Column { .. } => Ok(()),
        Expr::Cell { place, array, at } => {
            put_cell(alloc, here, Sort::Load, *place, *array, at, sites)?;
            put_value(alloc, here, at, sites)
        }
        Expr::Both { left, right, .. } => {
            put_value(alloc, here, left, sites)?;
            put_value(alloc, here, right, sites)
        }
    }
}

/// Those of the cells that values read.
pub fn put_given(
    alloc: Global,
    here: &Here<'_>,
    given: &[Given],
    sites: &mut Vec<Site>,
) -> Result<(), AllocError>
    ensures { OnOk result (Puts here.now sites.old.items sites.new.items
        (given_sites here.now.door (map given_of given.now))) }
{
    for one in given {
        put_value(alloc, here, &one.value, sites)?;
    }
    Ok(())
}

/// Those of the cells that the values of a `new` read, in text order.
pub fn put_labels(
    alloc: Global,
    here: &Here<'_>,
    labels: &[Given],
    sites: &mut Vec<Site>,
) -> Result<(), AllocError>
    ensures { OnOk result (Puts here.now sites.old.items sites.new.items
        (given_sites here.now.door (by_first_read (map given_of labels.now)))) }
{
    let values = by_first_read(alloc, labels)?;
    for one in values.as_slice() {
        put_value(alloc, here, &one.value, sites)?;
    }
    Ok(())
}

/// Those of the cells that the values of a `find`'s labels read.
pub fn put_guards(
    alloc: Global,
    here: &Here<'_>,
    guards: &[Guard],
    sites: &mut Vec<Site>,
) -> Result<(), AllocError>
    ensures { OnOk result (Puts here.now sites.old.items sites.new.items
        (guard_sites here.now.door (map guard_of guards.now))) }
{
    for one in guards {
        put_value(alloc, here, &one.given.value, sites)?;
    }
    Ok(())
}
