//! All rows that lines can name.
ghost use Rattle.std.specs.Prelude.{◌≡◌, ◌<◌, ◌≤◌, ◌∷◌, ◌++◌, [], OnOk, IfOk, length};
ghost use Rattle.certificate_write.specs.Sayable.{IsShort};
ghost use Rattle.key_certificate.specs.Rows.{HasAllRows};
ghost use Rattle.key_certificate.specs.Plain.{name_at, AreListed, Keeps, IsThere, HasNames, HasPairs};

use certificate_laws::{Named, Side};
use key_proof::{Numbered, row_of};
use nf_base::seq::Seq;
use std::alloc::{AllocError, Global};

/// How many rows of two sites there are names for: two sides, 288 bits of an input, 32 of the hash.
const NAMES: u32 = 18432;

/// Names of rows, and the rows.
#[derive(Drop)]
pub struct Listing {
    pub named: Seq<Named>,
    pub rows: Seq<Seq<u32>>,
}

fn name_at(first: u32, second: u32, m: u32) -> Named
    ensures value { result ≡ name_at first second m }
    ensures short { IsShort result }
{
    Named {
        first,
        second,
        side: if m < 9216 { Side::First } else { Side::Second },
        input: (m / 32) % 288,
        result: m % 32,
    }
}

/// Lists a name and its row. A list of more rows than 32 bits count is refused as want of memory.
fn push_row(listing: &mut Listing, named: Named, row: Seq<u32>) -> Result<(), AllocError>
    ensures named { OnOk result (listing.new.named ≡ listing.old.named ++ named ∷ []) }
    ensures rows { OnOk result (listing.new.rows ≡ listing.old.rows ++ row ∷ []) }
    ensures few { OnOk result (length listing.new.rows ≤ 4294967296) }
{
    if listing.rows.len() >= 0x1_0000_0000 {
        return Err(AllocError);
    }
    listing.named.push(named)?;
    listing.rows.push(row)?;
    Ok(())
}

/// Lists the row of a name, where there is one.
#[tactic(auto, using(crate::proofs::Listed::pushed, crate::proofs::Listed::keeps_pushed, crate::proofs::Listed::keeps_all, crate::proofs::Listed::pushed_there, crate::proofs::Listed::none_there))]
fn list_row(
    alloc: Global,
    ports: u32,
    sites: &[Numbered],
    named: Named,
    listing: &mut Listing,
) -> Result<(), AllocError>
    requires ports { ports ≤ 4 }
    requires short { IsShort named }
    requires listed { AreListed ports sites.now listing.old }
    ensures listed { OnOk result (AreListed ports sites.now listing.new) }
    ensures keeps { OnOk result (Keeps listing.old listing.new) }
    ensures there { OnOk result (IsThere ports sites.now named listing.new) }
{
    match row_of(alloc, ports, sites, &named)? {
        Some(row) => push_row(listing, named, row),
        None => Ok(()),
    }
}

/// Lists all rows of two sites.
#[tactic(auto, using(crate::proofs::Listed::names_none, crate::proofs::Listed::names_more, crate::proofs::Listed::keeps_all, crate::proofs::Listed::keeps_both))]
fn list_pair(
    alloc: Global,
    ports: u32,
    sites: &[Numbered],
    first: u32,
    second: u32,
    listing: &mut Listing,
) -> Result<(), AllocError>
    requires ports { ports ≤ 4 }
    requires listed { AreListed ports sites.now listing.old }
    ensures listed { OnOk result (AreListed ports sites.now listing.new) }
    ensures keeps { OnOk result (Keeps listing.old listing.new) }
    ensures there { OnOk result (HasNames ports sites.now first second 18432 listing.new) }
{
    for m in 0..NAMES {
        list_row(alloc, ports, sites, name_at(first, second, m), listing)?;
    }
    Ok(())
}

/// Lists all rows of a site and any.
#[tactic(auto, using(crate::proofs::Listed::pairs_none, crate::proofs::Listed::pairs_more, crate::proofs::Listed::keeps_all, crate::proofs::Listed::keeps_both))]
fn list_site(
    alloc: Global,
    ports: u32,
    sites: &[Numbered],
    first: u32,
    listing: &mut Listing,
) -> Result<(), AllocError>
    requires ports { ports ≤ 4 }
    requires few { length sites.now < 4294967296 }
    requires listed { AreListed ports sites.now listing.old }
    ensures listed { OnOk result (AreListed ports sites.now listing.new) }
    ensures keeps { OnOk result (Keeps listing.old listing.new) }
    ensures there { OnOk result (HasPairs ports sites.now first (length sites.now) listing.new) }
{
    for second in 0..sites.len() {
        list_pair(alloc, ports, sites, first, second as u32, listing)?;
    }
    Ok(())
}

/// All rows that a line can name, of the sites of so many ports. More sites than 32 bits count are
/// refused as want of memory.
#[tactic(auto, using(crate::proofs::Listed::sites_none, crate::proofs::Listed::sites_more, crate::proofs::Listed::sites_all, crate::proofs::Listed::nothing_listed))]
pub fn list_all(alloc: Global, ports: u32, sites: &[Numbered]) -> Result<Listing, AllocError>
    requires ports { ports ≤ 4 }
    ensures listed { IfOk result (AreListed ports sites.now) }
    ensures all { IfOk result (λ listing. HasAllRows ports sites.now listing.rows) }
{
    if sites.len() >= 0x1_0000_0000 {
        return Err(AllocError);
    }
    let mut listing = Listing {
        named: Seq::new(alloc),
        rows: Seq::new(alloc),
    };
    for first in 0..sites.len() {
        list_site(alloc, ports, sites, first as u32, &mut listing)?;
    }
    Ok(listing)
}
