//! Places: sites as far as keys can tell them apart.
ghost use Rattle.std.specs.Prelude.{◌≡◌, IfOk, OnOk};
ghost use Rattle.shard_rules.specs.Sites.{object_sites};
ghost use Rattle.key_rows.specs.Keyed.{version};
ghost use Rattle.shard_rules.specs.Once.{is_among, with_one};
ghost use Rattle.shard_rules.specs.Places.{place_of, same_fields, same_place, places_of};

use crate::labels::{field_at, is_on};
use access_keys::Site;
use key_rows::Place;
use nf_base::decl::ObjectId;
use nf_base::hash_fields::Hashable;
use nf_base::packet::Family;
use nf_base::seq::Seq;
use std::alloc::{AllocError, Global};

fn place_of(alloc: Global, site: &Site, kept: &[u32]) -> Result<Place, AllocError>
    ensures { IfOk result (λ place. place ≡ place_of kept.now site.now) }
{
    let mut known = Seq::new(alloc);
    for label in kept {
        if let Some(field) = field_at(site, *label) {
            known.push(field)?;
        }
    }
    Ok(Place {
        port: site.door.port,
        family: site.door.family,
        known,
    })
}

#[tactic(auto, using(crate::proofs::SamePlace::unequal_lengths))]
fn same_fields(a: &[Hashable], b: &[Hashable]) -> bool
    ensures { result ≡ same_fields a.now b.now }
{
    if a.len() != b.len() {
        return false;
    }
    for i in 0..a.len() {
        if a[i].number() != b[i].number() {
            return false;
        }
    }
    true
}

/// The version of IP as a number.
fn version(family: Family) -> u32
    ensures { result ≡ version family }
{
    match family {
        Family::Four => 4,
        Family::Six => 6,
    }
}

fn same_place(a: &Place, b: &Place) -> bool
    ensures { result ≡ same_place a.now b.now }
{
    a.port == b.port
        && version(a.family) == version(b.family)
        && same_fields(a.known.as_slice(), b.known.as_slice())
}

fn is_among(place: &Place, places: &[Place]) -> bool
    ensures { result ≡ is_among same_place place.now places.now }
{
    places.iter().any(|one| same_place(one, place))
}

fn add_place(places: &mut Seq<Place>, place: Place) -> Result<(), AllocError>
    ensures { OnOk result (places.new ≡ with_one same_place place places.old) }
{
    if is_among(&place, places.as_slice()) {
        return Ok(());
    }
    places.push(place)
}

fn add_site(
    alloc: Global,
    places: &mut Seq<Place>,
    site: &Site,
    kept: &[u32],
) -> Result<(), AllocError>
    ensures { OnOk result (places.new
        ≡ with_one same_place (place_of kept.now site.now) places.old) }
{
    let place = place_of(alloc, site, kept)?;
    add_place(places, place)
}

/// The places of an object's sites, each once, in the order in which they first appear.
///
/// Each site is compared with the places before it alone. These are few: a chain has at most 288
/// sites in a handler, and an array's one label is known by a port or not at all.
pub fn places_of(
    alloc: Global,
    sites: &[Site],
    object: ObjectId,
    kept: &[u32],
) -> Result<Seq<Place>, AllocError>
    ensures { IfOk result (λ places. places ≡ places_of kept.now (object_sites object sites.now)) }
{
    let mut places = Seq::new(alloc);
    for site in sites {
        if is_on(site, object) {
            add_site(alloc, &mut places, site, kept)?;
        }
    }
    Ok(places)
}
