//! Sites at entries of chains.
ghost use Rattle.std.specs.Prelude.{◌≡◌, ◌≤◌, ◌∷◌, [], List, OnOk, length, map};
ghost use Rattle.nf_base.specs.Chains.{maps_of};
ghost use Rattle.nf_base.specs.Text as text;
ghost use Rattle.nf_base.specs.View.{given_of, guard_of, creation_of};
ghost use Rattle.nf_sites.specs.Known.{field_set};
ghost use Rattle.nf_sites.specs.Named.{Named, named_as};
ghost use Rattle.nf_sites.specs.Sites.{first_label, get_site, find_site, new_site, name_site, name_sites};
ghost use Rattle.access_keys.specs.Shown.{chain_site, Puts};
ghost use Rattle.access_keys.specs.Speaking.{named_seen};

use crate::access::Here;
use crate::field::{fields_given, part};
use crate::known::{fields_known, label_count};
use crate::named::{NamedField, guarded, numbered};
use crate::site::Site;
use nf_base::block::Creation;
use nf_base::decl::{ChainDecl, MapDecl, ObjectId};
use nf_base::expr::{Given, Guard};
use nf_base::packet::Field;
use nf_sites::Sort;
use std::alloc::{AllocError, Global};

/// The maps of the chain of a number.
fn maps_of(decls: &[ChainDecl], chain: u32) -> &[MapDecl]
    ensures value { result.now ≡ maps_of decls.now chain }
    ensures within { length result.now ≤ 16 }
{
    match decls.get(chain as usize) {
        None => &[],
        Some(decl) => decl.maps.as_slice(),
    }
}

/// The first label of a map's key.
fn first_label(decls: &[ChainDecl], chain: u32, map: u32) -> u32
    ensures { result ≡ first_label decls.now chain map }
{
    match maps_of(decls, chain).get(map as usize) {
        None => 0,
        Some(decl) => decl.first,
    }
}

/// A site at a chain that is given fields, where it is reached, behind others.
fn put_chain(
    alloc: Global,
    here: &Here<'_>,
    sort: Sort,
    place: u32,
    chain: u32,
    named: &[NamedField],
    sites: &mut Vec<Site>,
) -> Result<(), AllocError>
    ensures { OnOk result ((given : List (Named text.Given)) → map (named_as field_set) given
        ≡ map named_seen named.now → Puts here.now sites.old.items sites.new.items
        (chain_site here.now.door sort place chain given ∷ [])) }
{
    if here.places.has(place) {
        let count = label_count(here.decls, chain);
        let known = fields_known(alloc, here.door.family, here.all, chain, named, count)?;
        sites.push(Site {
            object: ObjectId::Chain(chain),
            door: here.door,
            place,
            sort,
            known,
        })?;
    }
    Ok(())
}

/// The site of a `get`.
pub fn put_get(
    alloc: Global,
    here: &Here<'_>,
    place: u32,
    chain: u32,
    m: u32,
    key: &[Given],
    sites: &mut Vec<Site>,
) -> Result<(), AllocError>
    ensures { OnOk result (Puts here.now sites.old.items sites.new.items
        (get_site here.now.decls.now here.now.door place chain m (map given_of key.now) ∷ [])) }
{
    let fields = fields_given(alloc, key)?;
    let first = first_label(here.decls, chain, m);
    let named = numbered(alloc, first, fields.as_slice())?;
    put_chain(
        alloc,
        here,
        Sort::Get { map: m },
        place,
        chain,
        named.as_slice(),
        sites,
    )
}

/// The site of a `find`.
pub fn put_find(
    alloc: Global,
    here: &Here<'_>,
    place: u32,
    chain: u32,
    guards: &[Guard],
    sites: &mut Vec<Site>,
) -> Result<(), AllocError>
    ensures { OnOk result (Puts here.now sites.old.items sites.new.items
        (find_site here.now.door place chain (map guard_of guards.now) ∷ [])) }
{
    let named = guarded(alloc, guards)?;
    put_chain(
        alloc,
        here,
        Sort::Find,
        place,
        chain,
        named.as_slice(),
        sites,
    )
}

/// The site of a `new`'s look-up of a map, by the fields that it sets.
fn put_name(
    alloc: Global,
    here: &Here<'_>,
    creation: &Creation,
    fields: &[Option<Field>],
    m: u32,
    decl: &MapDecl,
    sites: &mut Vec<Site>,
) -> Result<(), AllocError>
    requires { fields.now ≡ map field_set (creation_of creation.now).labels }
    ensures { OnOk result (Puts here.now sites.old.items sites.new.items
        (name_site here.now.door (creation_of creation.now) m decl.now ∷ [])) }
{
    let key = part(fields, decl.first, decl.parts);
    let named = numbered(alloc, decl.first, key)?;
    put_chain(
        alloc,
        here,
        Sort::Name { map: m },
        creation.place,
        creation.chain,
        named.as_slice(),
        sites,
    )
}

/// The sites of a `new`'s look-ups, one of each map of its chain.
fn put_names(
    alloc: Global,
    here: &Here<'_>,
    creation: &Creation,
    fields: &[Option<Field>],
    sites: &mut Vec<Site>,
) -> Result<(), AllocError>
    requires { fields.now ≡ map field_set (creation_of creation.now).labels }
    ensures { OnOk result (Puts here.now sites.old.items sites.new.items
        (name_sites here.now.door (creation_of creation.now) 0
        (maps_of here.now.decls.now creation.now.chain))) }
{
    let maps = maps_of(here.decls, creation.chain);
    for (m, decl) in maps.iter().enumerate() {
        put_name(alloc, here, creation, fields, m as u32, decl, sites)?;
    }
    Ok(())
}

/// The site of a `new`, and then those of its look-ups.
pub fn put_new(
    alloc: Global,
    here: &Here<'_>,
    creation: &Creation,
    sites: &mut Vec<Site>,
) -> Result<(), AllocError>
    ensures { OnOk result (Puts here.now sites.old.items sites.new.items
        (new_site here.now.door (creation_of creation.now) ∷ name_sites here.now.door
        (creation_of creation.now) 0 (maps_of here.now.decls.now creation.now.chain))) }
{
    let fields = fields_given(alloc, creation.labels.as_slice())?;
    let named = numbered(alloc, 0, fields.as_slice())?;
    put_chain(
        alloc,
        here,
        Sort::New,
        creation.place,
        creation.chain,
        named.as_slice(),
        sites,
    )?;
    put_names(alloc, here, creation, fields.as_slice(), sites)
}
