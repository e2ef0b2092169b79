//! Which ports are keyed.
ghost use Rattle.std.specs.Prelude.{◌≡◌, ◌≤◌};
ghost use Rattle.std.specs.List.{list_any};
ghost use Rattle.key_rows.specs.Keyed.{is_at, is_keyed, version, is_for, is_keyed_for};
ghost use Rattle.key_rows.specs.Positions.{positions_at};
ghost use Rattle.nf_base.specs.Doors.{six_ports};
ghost use Rattle.nf_base.specs.Functions.{function_of};

use key_rows::{Object, Place};
use nf_base::func::Func;
use nf_base::packet::Family;

/// Whether some place is at a port.
fn places_at(places: &[Place], port: u32) -> bool
    ensures { result ≡ list_any (is_at port) places.now }
{
    places.iter().any(|place| place.port == port)
}

/// Whether an object has a place at a port.
fn stands_at(object: &Object, port: u32) -> bool
    ensures { result ≡ list_any (is_at port) object.now.places }
{
    places_at(object.places.as_slice(), port)
}

/// Whether a port is keyed.
pub fn is_keyed(objects: &[Object], port: u32) -> bool
    ensures { result ≡ is_keyed objects.now port }
{
    objects.iter().any(|object| stands_at(object, port))
}

/// The version of IP as a number.
fn version(family: Family) -> u32
    ensures { result ≡ version family }
{
    match family {
        Family::Four => 4,
        Family::Six => 6,
    }
}

/// Whether a place is at a port, for packets of a family.
fn is_for(place: &Place, family: Family, port: u32) -> bool
    ensures { result ≡ is_for family port place.now }
{
    version(place.family) == version(family) && place.port == port
}

/// Whether some place is.
fn places_for(places: &[Place], family: Family, port: u32) -> bool
    ensures { result ≡ list_any (is_for family port) places.now }
{
    places.iter().any(|place| is_for(place, family, port))
}

/// Whether an object has such a place.
fn stands_for(object: &Object, family: Family, port: u32) -> bool
    ensures { result ≡ list_any (is_for family port) object.now.places }
{
    places_for(object.places.as_slice(), family, port)
}

/// Whether a port is keyed for a family.
pub fn is_keyed_for(objects: &[Object], family: Family, port: u32) -> bool
    ensures { result ≡ is_keyed_for objects.now family port }
{
    objects
        .iter()
        .any(|object| stands_for(object, family, port))
}

/// How many bits of the key of a port count.
pub fn positions_at(func: &Func, objects: &[Object], port: u32) -> u32
    ensures value { result ≡ positions_at (six_ports (function_of func.now)) objects.now port }
    ensures within { result ≤ 319 }
{
    if func.has_six(port) || is_keyed_for(objects, Family::Six, port) {
        319
    } else {
        127
    }
}
