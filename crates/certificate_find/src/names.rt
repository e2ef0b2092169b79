//! The rows that are kept: none is a sum of earlier ones.
ghost use Rattle.std.specs.Prelude.{◌≤◌};

use crate::bits::Bits;
use crate::echelon::{Combination, Echelon};
use certificate_laws::{Named, Side};
use key_proof::{Numbered, row_of};
use key_rows::Place;
use nf_base::hash_fields::Hashable;
use nf_base::packet::Family;
use nf_base::seq::Seq;
use std::alloc::{AllocError, Global};

/// Rows by their names, in the order of the names, and their sums in echelon form.
#[derive(Drop)]
pub struct KeptRows {
    pub named: Vec<Named>,
    pub rows: Vec<Bits>,
    pub echelon: Echelon,
}

fn same_family(a: Family, b: Family) -> bool {
    match (a, b) {
        (Family::Four, Family::Four) | (Family::Six, Family::Six) => true,
        (Family::Four, Family::Six) | (Family::Six, Family::Four) => false,
    }
}

fn same_known(a: &[Hashable], b: &[Hashable]) -> bool {
    if a.len() != b.len() {
        return false;
    }
    for i in 0..a.len() {
        if a[i].number() != b[i].number() {
            return false;
        }
    }
    true
}

fn same_place(a: &Place, b: &Place) -> bool {
    a.port == b.port
        && same_family(a.family, b.family)
        && same_known(a.known.as_slice(), b.known.as_slice())
}

/// Whether two sites are at one place of one object.
fn same_site(a: &Numbered, b: &Numbered) -> bool {
    a.object == b.object && same_place(&a.place, &b.place)
}

fn is_new(sites: &[Numbered], firsts: &[u32], site: &Numbered) -> bool {
    for first in firsts {
        if let Some(other) = sites.get(*first as usize) {
            if same_site(other, site) {
                return false;
            }
        }
    }
    true
}

/// The first site at each place of each object.
fn firsts(alloc: Global, sites: &[Numbered]) -> Result<Vec<u32>, AllocError> {
    let mut firsts = Vec::new(alloc);
    for (i, site) in sites.iter().enumerate() {
        if is_new(sites, &firsts, site) {
            if let Ok(i) = u32::try_from(i) {
                firsts.push(i)?;
            }
        }
    }
    Ok(firsts)
}

/// The row whose bits stand so many behind those of another.
fn shifted(row: &[u32], by: u32) -> Bits {
    let mut bits = Bits::none();
    for place in row {
        bits.flip(place.saturating_add(by) as usize);
    }
    bits
}

/// Whether each bit of a row stands one behind that of another.
fn follows(row: &[u32], before: &[u32]) -> bool {
    if row.len() != before.len() {
        return false;
    }
    for i in 0..row.len() {
        if row[i] != before[i].saturating_add(1) {
            return false;
        }
    }
    true
}

/// The name of the first bits of a side of two sites.
fn first_name(first: u32, second: u32, side: Side) -> Named {
    Named {
        first,
        second,
        side,
        input: 0,
        result: 0,
    }
}

fn with_input(name: Named, input: u32) -> Named {
    Named {
        first: name.first,
        second: name.second,
        side: name.side,
        input,
        result: name.result,
    }
}

fn with_hashed(name: Named, hashed: u32) -> Named {
    Named {
        first: name.first,
        second: name.second,
        side: name.side,
        input: name.input,
        result: hashed,
    }
}

impl KeptRows {
    fn new(alloc: Global) -> Result<KeptRows, AllocError> {
        Ok(KeptRows {
            named: Vec::new(alloc),
            rows: Vec::new(alloc),
            echelon: Echelon::new(alloc, Bits::none())?,
        })
    }

    /// Keeps a row, unless it is a sum of those that are kept.
    fn take(&mut self, named: Named, row: Bits) -> Result<(), AllocError> {
        let mut rest = Combination {
            rows: Bits::none(),
            bits: row,
        };
        let Some(place) = self.echelon.reduce(&mut rest) else {
            return Ok(());
        };
        rest.rows.flip(self.named.len());
        self.echelon.put(place, rest);
        self.named.push(named)?;
        self.rows.push(row)?;
        Ok(())
    }

    /// Keeps the rows of a bit of the input, from a bit of the hash on.
    fn take_results(&mut self, named: Named, row: &[u32], from: u32) -> Result<(), AllocError> {
        for hashed in from..32 {
            self.take(with_hashed(named, hashed), shifted(row, hashed))?;
        }
        Ok(())
    }

    /// Keeps the rows of a side of two sites. The rows of a bit behind another of its field are
    /// those of that bit, but for the last.
    fn take_side(
        &mut self,
        alloc: Global,
        ports: u32,
        sites: &[Numbered],
        name: Named,
    ) -> Result<(), AllocError>
        requires { ports ≤ 4 }
    {
        let mut before: Option<Seq<u32>> = None;
        for input in 0..288 {
            let named = with_input(name, input);
            let row = row_of(alloc, ports, sites, &named)?;
            if let Some(places) = &row {
                let from = first_result(places.as_slice(), &before);
                self.take_results(named, places.as_slice(), from)?;
            }
            before = row;
        }
        Ok(())
    }

    /// Keeps the rows of two sites.
    fn take_pair(
        &mut self,
        alloc: Global,
        ports: u32,
        sites: &[Numbered],
        first: u32,
        second: u32,
    ) -> Result<(), AllocError>
        requires { ports ≤ 4 }
    {
        let one = first_name(first, second, Side::First);
        self.take_side(alloc, ports, sites, one)?;
        let two = first_name(first, second, Side::Second);
        self.take_side(alloc, ports, sites, two)
    }

    /// Keeps the rows of a site and later ones.
    fn take_site(
        &mut self,
        alloc: Global,
        ports: u32,
        sites: &[Numbered],
        first: u32,
        firsts: &[u32],
    ) -> Result<(), AllocError>
        requires { ports ≤ 4 }
    {
        for second in firsts {
            if *second >= first {
                self.take_pair(alloc, ports, sites, first, *second)?;
            }
        }
        Ok(())
    }
}

/// The first bit of the hash whose row isn't one of the bit before.
fn first_result(row: &[u32], before: &Option<Seq<u32>>) -> u32 {
    match before {
        Some(places) => {
            if follows(row, places.as_slice()) {
                31
            } else {
                0
            }
        }
        None => 0,
    }
}

/// The rows of all sites that are kept.
pub fn keep_rows(alloc: Global, ports: u32, sites: &[Numbered]) -> Result<KeptRows, AllocError>
    requires { ports ≤ 4 }
{
    let firsts = firsts(alloc, sites)?;
    let mut kept = KeptRows::new(alloc)?;
    for first in &firsts {
        kept.take_site(alloc, ports, sites, *first, &firsts)?;
    }
    Ok(kept)
}
