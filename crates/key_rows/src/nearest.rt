//! The nearest keys.
ghost use Rattle.std.specs.Prelude.{◌≤◌, All, IfOk, length};
ghost use Rattle.key_rows.specs.Keyed.{AreAtPorts};
ghost use Rattle.key_rows.specs.Given.{AreAnswer};
ghost use Rattle.key_rows.specs.Positions.{positions_at};
ghost use Rattle.key_rows.specs.Solutions.{IsSolved};

use crate::keyed::{are_at_ports, groups_of};
use crate::pairs::equations_of;
use crate::place::Object;
use crate::solution::ports_from;
use crate::wanted::default_bits;
use gf2_solve::{Bits, System};
use nf_base::card::{Card, TableSize};
use nf_base::keys::Keys;
use nf_base::seq::Seq;
use std::alloc::{AllocError, Global};

/// The keys for a card, for ports of each of which `six` says whether it has a handler for IPv6. They are nearest the default key: of those under which packets that come to an object with
/// equal labels have equal hashes, and which give packets of each family that a port is keyed for
/// more than one table index. None where there are no such keys.
///
/// Ports are read in order, and of each key the bits that count in order: 0 to 318 where the port
/// has a handler for IPv6, or a place for packets of it, else 0 to 126. Each bit is the default
/// one's unless no such keys that agree on all earlier bits have it. The bits of a keyed port past
/// those that count are 0, and a port at which no object has a place has the whole default key.
#[tactic(auto, using(crate::proofs::Grouped::all_at_ports, crate::proofs::Grouped::keyed_past, crate::proofs::Solved::none_past, crate::proofs::Solved::given_from, crate::proofs::Solved::long_nearest))]
pub fn nearest_keys(
    alloc: Global,
    six: &[bool],
    objects: &[Object],
    card: Card,
) -> Result<Option<Keys>, AllocError>
    requires { length six.now ≤ 4 }
    ensures { IfOk result
        (AreAnswer (positions_at six.now objects.now) (length six.now) objects.now card) }
{
    let ports = six.len() as u32;
    // At a port past the last one no key spreads.
    if !are_at_ports(objects, ports) {
        return Ok(None);
    }
    match solved(alloc, ports, objects, card)? {
        Some(bits) => {
            let ports = ports_from(alloc, six, objects, bits.as_slice(), card.key)?;
            Ok(Some(Keys {
                table: card.table,
                ports,
            }))
        }
        None => Ok(None),
    }
}

/// The bits of the nearest keys.
#[tactic(auto, using(crate::proofs::Solved::solved))]
fn solved(
    alloc: Global,
    ports: u32,
    objects: &[Object],
    card: Card,
) -> Result<Option<Bits>, AllocError>
    requires four { ports ≤ 4 }
    requires within { All (λ object. AreAtPorts ports object.places) objects.now }
    ensures { IfOk result (IsSolved ports objects.now card) }
{
    let system = equations_of(alloc, ports, objects)?;
    let wanted = default_bits(alloc, ports)?;
    let groups = groups_of(alloc, ports, objects, card.table)?;
    system.nearest(alloc, &wanted, groups.as_slice())
}
