//! The labels of objects, and which of them a site knows.
ghost use Rattle.std.specs.Prelude.{◌≡◌, IfOk};
ghost use Rattle.std.specs.List.{list_all, range_with_len};
ghost use Rattle.nf_base.specs.Functions.{function_of};
ghost use Rattle.nf_sites.specs.Known.{same_object, labels_of};
ghost use Rattle.shard_rules.specs.Sites.{object_sites, field_at, knows, knows_one, know_same};
ghost use Rattle.shard_rules.specs.Rules.{is_kept, kept_labels};

use access_keys::Site;
use nf_base::decl::ObjectId;
use nf_base::func::Func;
use nf_base::hash_fields::Hashable;
use nf_base::seq::Seq;
use std::alloc::{AllocError, Global};

/// Whether two objects are one.
pub fn same_object(a: ObjectId, b: ObjectId) -> bool
    ensures { result ≡ same_object a b }
{
    match a {
        ObjectId::Chain(a) => match b {
            ObjectId::Chain(b) => a == b,
            ObjectId::Array(_) => false,
        },
        ObjectId::Array(a) => match b {
            ObjectId::Chain(_) => false,
            ObjectId::Array(b) => a == b,
        },
    }
}

/// Whether a site is on an object.
pub fn is_on(site: &Site, object: ObjectId) -> bool
    ensures { result ≡ same_object site.now.object object }
{
    same_object(site.object, object)
}

/// How many labels an object has: those of a chain, or an array's one, its index.
pub fn label_count(func: &Func, object: ObjectId) -> u32
    ensures value { labels_of (function_of func.now) object ≡ range_with_len 0 result }
{
    match object {
        ObjectId::Array(_) => 1,
        ObjectId::Chain(chain) => match func.chains.as_slice().get(chain as usize) {
            None => 0,
            Some(decl) => decl.labels.len(),
        },
    }
}

/// The field by which a site knows a label, by its number, if it does.
pub fn field_at(site: &Site, label: u32) -> Option<Hashable>
    ensures { result ≡ field_at site.now label }
{
    match site.known.as_slice().get(label as usize) {
        None => None,
        Some(field) => *field,
    }
}

/// Whether a site knows a label.
pub fn knows(label: u32, site: &Site) -> bool
    ensures { result ≡ knows label site.now }
{
    field_at(site, label).is_some()
}

/// Whether a site knows one of the first so many labels.
pub fn knows_one(count: u32, site: &Site) -> bool
    ensures { result ≡ knows_one (range_with_len 0 count) site.now }
{
    (0..count).any(|label| knows(label, site))
}

/// Whether two sites know the same ones of the first so many labels.
pub fn knows_same(count: u32, a: &Site, b: &Site) -> bool
    ensures { result ≡ know_same (range_with_len 0 count) a.now b.now }
{
    (0..count).all(|label| knows(label, a) == knows(label, b))
}

fn is_kept(sites: &[Site], object: ObjectId, label: u32) -> bool
    ensures { result ≡ is_kept (object_sites object sites.now) label }
{
    sites
        .iter()
        .filter(|site| is_on(site, object))
        .all(|site| knows(label, site))
}

/// Those of the first so many labels that each site of an object knows.
pub fn kept_labels(
    alloc: Global,
    count: u32,
    sites: &[Site],
    object: ObjectId,
) -> Result<Seq<u32>, AllocError>
    ensures { IfOk result (λ kept.
        kept ≡ kept_labels (range_with_len 0 count) (object_sites object sites.now)) }
{
    let mut kept = Seq::new(alloc);
    for label in 0..count {
        if is_kept(sites, object, label) {
            kept.push(label)?;
        }
    }
    Ok(kept)
}
