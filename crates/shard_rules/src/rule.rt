ghost use Rattle.std.specs.Prelude.{◌≡◌};
ghost use Rattle.std.specs.List.{list_any, list_all, find, range_with_len};
ghost use Rattle.std.specs.Option.{option_copied};
ghost use Rattle.nf_sites.specs.Known.{same_object};
ghost use Rattle.shard_rules.specs.Sites.{object_sites, knows_one, is_find, know_same, all_know_same};
ghost use Rattle.shard_rules.specs.Rules.{rule_of, rule_word};

use crate::labels::{is_on, knows_one, knows_same};
use access_keys::Site;
use nf_base::decl::ObjectId;
use nf_sites::Sort;

/// How the sites of an object know its labels, and whether its entries can be told apart by the
/// fields of a packet.
#[derive(Clone, Copy, Debug, PartialEq, Eq)]
pub enum Rule {
    /// All sites know the same labels, and none is a `find`.
    SameKey,
    /// Some labels are known at every site, others at some of them, and none is a `find`.
    Subset,
    /// Every site knows a label, and none is known at all of them.
    DisjointKeys,
    /// No label is known at every site, and some site knows none.
    Unhashable,
    /// Some labels are known at every site, and some site is a `find`: which index it looks at
    /// doesn't matter, since it checks these labels.
    Interchangeable,
}

impl Rule {
    /// Its code in printed texts: `J1` to `J5`.
    pub fn word(self) -> &'static str
        ensures value { result.now ≡ rule_word self }
    {
        match self {
            Rule::SameKey => "J1",
            Rule::Subset => "J2",
            Rule::DisjointKeys => "J3",
            Rule::Unhashable => "J4",
            Rule::Interchangeable => "J5",
        }
    }
}

fn is_find(site: &Site) -> bool
    ensures { result ≡ is_find site.now }
{
    match site.sort {
        Sort::Find => true,
        Sort::Get { .. } | Sort::New | Sort::Name { .. } | Sort::Load | Sort::Store => false,
    }
}

fn has_find(sites: &[Site], object: ObjectId) -> bool
    ensures { result ≡ list_any is_find (object_sites object sites.now) }
{
    sites
        .iter()
        .filter(|site| is_on(site, object))
        .any(|site| is_find(site))
}

fn all_know_one(count: u32, sites: &[Site], object: ObjectId) -> bool
    ensures { result ≡ list_all (knows_one (range_with_len 0 count))
        (object_sites object sites.now) }
{
    sites
        .iter()
        .filter(|site| is_on(site, object))
        .all(|site| knows_one(count, site))
}

/// The first site of an object.
fn first_site(sites: &[Site], object: ObjectId) -> Option<&Site>
    ensures { option_copied result ≡ find (λ s. same_object s.object object) sites.now }
{
    sites.iter().find(|site| is_on(site, object))
}

/// Whether the sites of an object know the same labels as another site.
fn all_know_as(count: u32, first: &Site, sites: &[Site], object: ObjectId) -> bool
    ensures { result ≡ list_all (know_same (range_with_len 0 count) first.now)
        (object_sites object sites.now) }
{
    sites
        .iter()
        .filter(|site| is_on(site, object))
        .all(|site| knows_same(count, first, site))
}

fn all_know_same(count: u32, sites: &[Site], object: ObjectId) -> bool
    ensures { result ≡ all_know_same (range_with_len 0 count) (object_sites object sites.now) }
{
    match first_site(sites, object) {
        None => true,
        Some(first) => all_know_as(count, first, sites, object),
    }
}

/// The rule of an object with so many labels, of which these are kept.
pub fn rule_of(count: u32, sites: &[Site], object: ObjectId, kept: &[u32]) -> Rule
    ensures { result ≡ rule_of (range_with_len 0 count) (object_sites object sites.now) kept.now }
{
    if kept.is_empty() {
        if all_know_one(count, sites, object) {
            Rule::DisjointKeys
        } else {
            Rule::Unhashable
        }
    } else if has_find(sites, object) {
        Rule::Interchangeable
    } else if all_know_same(count, sites, object) {
        Rule::SameKey
    } else {
        Rule::Subset
    }
}
