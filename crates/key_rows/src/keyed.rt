//! Which ports are keyed, and the bits of which one has to be 1.
ghost use Rattle.std.specs.Prelude.{◌≡◌, ◌<◌, ◌≤◌, All, IfOk, OnOk};
ghost use Rattle.std.specs.List.{list_any, list_all};
ghost use Rattle.key_rows.specs.Keyed.{is_at, is_keyed, version, is_for, is_keyed_for, is_before, are_at_ports, AreAtPorts};
ghost use Rattle.key_rows.specs.Systems.{group_from, group_long, group_of, AddsGroup, AreGroupsOf};

use crate::place::{Object, Place};
use gf2_solve::Bits;
use nf_base::card::TableSize;
use nf_base::packet::Family;
use nf_base::seq::Seq;
use std::alloc::{AllocError, Global};

/// Whether an object has a place at a port.
fn stands_at(object: &Object, port: u32) -> bool
    ensures { result ≡ list_any (is_at port) object.now.places }
{
    places_at(object.places.as_slice(), port)
}

/// Whether some place is at a port.
fn places_at(places: &[Place], port: u32) -> bool
    ensures { result ≡ list_any (is_at port) places.now }
{
    places.iter().any(|place| place.port == port)
}

/// Whether a port is keyed.
pub fn is_keyed(objects: &[Object], port: u32) -> bool
    ensures { result ≡ is_keyed objects.now port }
{
    objects.iter().any(|object| stands_at(object, port))
}

/// Whether all places of an object are at the first so many ports.
fn stands_before(object: &Object, ports: u32) -> bool
    ensures { result ≡ list_all (is_before ports) object.now.places }
{
    places_before(object.places.as_slice(), ports)
}

/// Whether all places are at the first so many ports.
fn places_before(places: &[Place], ports: u32) -> bool
    ensures { result ≡ list_all (is_before ports) places.now }
{
    places.iter().all(|place| place.port < ports)
}

/// Whether all places of all objects are at the first so many ports.
pub fn are_at_ports(objects: &[Object], ports: u32) -> bool
    ensures { result ≡ are_at_ports ports objects.now }
{
    objects.iter().all(|object| stands_before(object, ports))
}

/// The version of IP as a number.
fn version(family: Family) -> u32
    ensures { result ≡ version family }
{
    match family {
        Family::Four => 4,
        Family::Six => 6,
    }
}

/// Whether a place is at a port, for packets of a family.
fn is_for(place: &Place, family: Family, port: u32) -> bool
    ensures { result ≡ is_for family port place.now }
{
    version(place.family) == version(family) && place.port == port
}

/// Whether some place is.
fn places_for(places: &[Place], family: Family, port: u32) -> bool
    ensures { result ≡ list_any (is_for family port) places.now }
{
    places.iter().any(|place| is_for(place, family, port))
}

/// Whether an object has such a place.
fn stands_for(object: &Object, family: Family, port: u32) -> bool
    ensures { result ≡ list_any (is_for family port) object.now.places }
{
    places_for(object.places.as_slice(), family, port)
}

/// Whether a port is keyed for a family.
pub fn is_keyed_for(objects: &[Object], family: Family, port: u32) -> bool
    ensures { result ≡ is_keyed_for objects.now family port }
{
    objects
        .iter()
        .any(|object| stands_for(object, family, port))
}

/// Of each port the bits of which one has to be 1, for each family that it is keyed for.
#[tactic(auto, using(crate::proofs::Grouped::groups_none, crate::proofs::Grouped::groups_all))]
pub fn groups_of(
    alloc: Global,
    ports: u32,
    objects: &[Object],
    size: TableSize,
) -> Result<Seq<Bits>, AllocError>
    requires four { ports ≤ 4 }
    requires within { All (λ object. AreAtPorts ports object.places) objects.now }
    ensures { IfOk result (AreGroupsOf ports objects.now size) }
{
    let mut groups = Seq::new(alloc);
    for port in 0..ports {
        put_group(alloc, ports, objects, size, Family::Four, port, &mut groups)?;
        put_group(alloc, ports, objects, size, Family::Six, port, &mut groups)?;
    }
    Ok(groups)
}

/// The bits of a port of which one has to be 1, where it is keyed for a family.
#[tactic(auto, using(crate::proofs::Grouped::group_added, crate::proofs::Grouped::group_left))]
fn put_group(
    alloc: Global,
    ports: u32,
    objects: &[Object],
    size: TableSize,
    family: Family,
    port: u32,
    groups: &mut Seq<Bits>,
) -> Result<(), AllocError>
    requires four { ports ≤ 4 }
    requires within { port < ports }
    ensures { OnOk result (AddsGroup ports objects.now size family port groups.old groups.new) }
{
    if is_keyed_for(objects, family, port) {
        groups.push(group(alloc, size, family, port)?)?;
    }
    Ok(())
}

/// Of the key of a port the bits that meet the table index.
fn group(alloc: Global, size: TableSize, family: Family, port: u32) -> Result<Bits, AllocError>
    requires { port < 4 }
    ensures { IfOk result (λ group. group ≡ group_of size family port) }
{
    let mut bits = vec![in alloc; false; (319 * port + group_from(size)) as usize]?;
    for _i in 0..group_long(size, family) {
        bits.push(true)?;
    }
    Ok(Bits(bits))
}

/// The first bit of a key that meets the table index.
fn group_from(size: TableSize) -> u32
    ensures value { result ≡ group_from size }
    ensures within { result < 32 }
{
    match size {
        TableSize::Entries128 => 25,
        TableSize::Entries512 => 23,
    }
}

/// How many bits of a key meet the table index.
fn group_long(size: TableSize, family: Family) -> u32
    ensures { result ≡ group_long size family }
{
    match (size, family) {
        (TableSize::Entries128, Family::Four) => 102,
        (TableSize::Entries128, Family::Six) => 294,
        (TableSize::Entries512, Family::Four) => 104,
        (TableSize::Entries512, Family::Six) => 296,
    }
}
