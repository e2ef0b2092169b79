//! How many bits of the key of each port count.
ghost use Rattle.std.specs.Prelude.{◌≡◌, ◌≤◌};
ghost use Rattle.nf_base.specs.Doors.{six_at};
ghost use Rattle.key_rows.specs.Positions.{positions_at};

use crate::keyed::is_keyed_for;
use crate::place::Object;
use nf_base::packet::Family;

/// Whether a port has a handler for IPv6; not where there is no such port.
fn six_at(six: &[bool], port: u32) -> bool
    ensures { result ≡ six_at six.now port }
{
    match six.get(port as usize) {
        Some(has) => *has,
        None => false,
    }
}

/// How many bits of the key of a port count: as many as inputs meet of the families that it has a
/// handler for, or a place.
pub fn positions_at(six: &[bool], objects: &[Object], port: u32) -> usize
    ensures value { result ≡ positions_at six.now objects.now port }
    ensures within { result ≤ 319 }
{
    if six_at(six, port) || is_keyed_for(objects, Family::Six, port) {
        319
    } else {
        127
    }
}
