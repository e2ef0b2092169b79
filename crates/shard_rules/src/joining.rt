ghost use Rattle.std.specs.Prelude.{◌≡◌, ◌++◌, IfOk, OnOk, map};
ghost use Rattle.std.specs.List.{filter_map};
ghost use Rattle.std.specs.Option.{option_to_list};
ghost use Rattle.nf_base.specs.Functions.{function_of};
ghost use Rattle.nf_sites.specs.Known.{same_object};
ghost use Rattle.shard_rules.specs.Once.{is_among, with_one};
ghost use Rattle.shard_rules.specs.Sites.{object_sites};
ghost use Rattle.shard_rules.specs.Plans.{is_any, standing, objects_of, written_places, plan_of};

use crate::labels::{is_on, kept_labels, label_count, same_object};
use crate::place::places_of;
use crate::plan::{ObjectVerdict, Plan};
use crate::rule::rule_of;
use crate::written::is_written;
use access_keys::Site;
use key_rows::Object;
use nf_base::decl::ObjectId;
use nf_base::func::Func;
use nf_base::seq::Seq;
use std::alloc::{AllocError, Global};

fn has_site(sites: &[Site], object: ObjectId) -> bool
    ensures { result ≡ is_any (object_sites object sites.now) }
{
    for site in sites {
        if is_on(site, object) {
            return true;
        }
    }
    false
}

/// What an object of a function comes to.
fn standing(
    alloc: Global,
    func: &Func,
    sites: &[Site],
    object: ObjectId,
) -> Result<ObjectVerdict, AllocError>
    ensures { IfOk result (λ s. s ≡ standing (function_of func.now) sites.now object) }
{
    if !is_written(func, object) {
        return Ok(ObjectVerdict::ReadOnly);
    }
    if !has_site(sites, object) {
        return Ok(ObjectVerdict::Unused);
    }
    let count = label_count(func, object);
    let kept = kept_labels(alloc, count, sites, object)?;
    let rule = rule_of(count, sites, object, kept.as_slice());
    Ok(ObjectVerdict::Ruled { rule, kept })
}

/// What each object of a function comes to, in text order.
fn standings(alloc: Global, func: &Func, sites: &[Site]) -> Result<Seq<ObjectVerdict>, AllocError>
    ensures { IfOk result (λ all.
        all ≡ map (standing (function_of func.now) sites.now) func.now.objects) }
{
    let mut all = Seq::new(alloc);
    for object in func.objects.as_slice() {
        all.push(standing(alloc, func, sites, *object)?)?;
    }
    Ok(all)
}

fn is_among(object: ObjectId, objects: &[ObjectId]) -> bool
    ensures { result ≡ is_among same_object object objects.now }
{
    objects.iter().any(|one| same_object(*one, object))
}

fn add_one(objects: &mut Vec<ObjectId>, object: ObjectId) -> Result<(), AllocError>
    ensures { OnOk result (objects.new.items ≡ with_one same_object object objects.old.items) }
{
    if is_among(object, objects.as_slice()) {
        return Ok(());
    }
    objects.push(object)?;
    Ok(())
}

/// The objects of sites, each once, in the order in which the sites come to them.
fn objects_of(alloc: Global, sites: &[Site]) -> Result<Vec<ObjectId>, AllocError>
    ensures { IfOk result (λ all. all.items ≡ objects_of sites.now) }
{
    let mut all = Vec::new(alloc);
    for site in sites {
        add_one(&mut all, site.object)?;
    }
    Ok(all)
}

/// The places of an object, behind those of others, where the text writes it.
fn add_object(
    alloc: Global,
    func: &Func,
    sites: &[Site],
    object: ObjectId,
    objects: &mut Seq<Object>,
) -> Result<(), AllocError>
    ensures { OnOk result (objects.new ≡ objects.old
        ++ option_to_list (written_places (function_of func.now) sites.now object)) }
{
    if !is_written(func, object) {
        return Ok(());
    }
    let count = label_count(func, object);
    let kept = kept_labels(alloc, count, sites, object)?;
    let places = places_of(alloc, sites, object, kept.as_slice())?;
    objects.push(Object { places })
}

/// The places of each object that the text writes and that has sites.
fn objects(alloc: Global, func: &Func, sites: &[Site]) -> Result<Seq<Object>, AllocError>
    ensures { IfOk result (λ all.
        all ≡ filter_map (written_places (function_of func.now) sites.now) (objects_of sites.now)) }
{
    let mut all = Seq::new(alloc);
    let used = objects_of(alloc, sites)?;
    for object in &used {
        add_object(alloc, func, sites, *object, &mut all)?;
    }
    Ok(all)
}

/// What a function's sites come to: for each object whether it is read only, unused, or by which
/// rule it can be sharded with which labels kept; and the places that keys have to serve.
///
/// The sites are gone along a few times for each label of each object, and never each with each.
pub fn join(alloc: Global, func: &Func, sites: &[Site]) -> Result<Plan, AllocError>
    ensures plan { IfOk result (λ plan. plan ≡ plan_of (function_of func.now) sites.now) }
{
    Ok(Plan {
        standings: standings(alloc, func, sites)?,
        objects: objects(alloc, func, sites)?,
    })
}
