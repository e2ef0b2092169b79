//! The numbers of sites: as their lines stand in the text of `explain`.
ghost use Rattle.std.specs.Prelude.{◌≡◌, ◌++◌, OnOk, IfOk};
ghost use Rattle.shard_rules.specs.Places.{place_of};
ghost use Rattle.key_proof.specs.Sites.{sites_at, standing_sites, objects_sites};

use access_keys::Site;
use key_rows::Place;
use nf_base::decl::ObjectId;
use nf_base::seq::Seq;
use shard_rules::{ObjectVerdict, field_at, is_on};
use std::alloc::{AllocError, Global};

/// A site of a written object.
#[derive(Drop)]
pub struct Numbered {
    /// Which of the function's objects it is, in text order.
    pub object: usize,
    /// Its port and version of IP, and the field that each kept label of the object is there.
    pub place: Place,
}

fn place_of(alloc: Global, site: &Site, kept: &[u32]) -> Result<Place, AllocError>
    ensures { IfOk result (λ place. place ≡ place_of kept.now site.now) }
{
    let mut known = Seq::new(alloc);
    for label in kept {
        if let Some(field) = field_at(site, *label) {
            known.push(field)?;
        }
    }
    Ok(Place {
        port: site.door.port,
        family: site.door.family,
        known,
    })
}

/// Puts the sites of an object behind others.
fn put_sites(
    alloc: Global,
    all: &mut Seq<Numbered>,
    k: usize,
    object: ObjectId,
    kept: &[u32],
    sites: &[Site],
) -> Result<(), AllocError>
    ensures { OnOk result (all.new ≡ all.old ++ sites_at object kept.now k sites.now) }
{
    for site in sites {
        if is_on(site, object) {
            let place = place_of(alloc, site, kept)?;
            all.push(Numbered { object: k, place })?;
        }
    }
    Ok(())
}

/// The same by what the object comes to.
fn put_standing(
    alloc: Global,
    all: &mut Seq<Numbered>,
    k: usize,
    object: ObjectId,
    standing: &ObjectVerdict,
    sites: &[Site],
) -> Result<(), AllocError>
    ensures { OnOk result (all.new ≡ all.old ++ standing_sites k object sites.now standing.now) }
{
    match standing {
        ObjectVerdict::ReadOnly | ObjectVerdict::Unused => Ok(()),
        ObjectVerdict::Ruled { rule: _, kept } => {
            put_sites(alloc, all, k, object, kept.as_slice(), sites)
        }
    }
}

/// The sites of written objects, in the order of their numbers, by what each of a function's objects
/// comes to.
#[tactic(auto, using(crate::proofs::Ends::objects_more))]
pub fn numbered_sites(
    alloc: Global,
    objects: &[ObjectId],
    standings: &[ObjectVerdict],
    sites: &[Site],
) -> Result<Seq<Numbered>, AllocError>
    ensures { IfOk result (λ all. all ≡ objects_sites 0 sites.now objects.now standings.now) }
{
    let mut all = Seq::new(alloc);
    let count = objects.len().min(standings.len());
    for k in 0..count {
        put_standing(alloc, &mut all, k, objects[k], &standings[k], sites)?;
    }
    Ok(all)
}
