//! The text of `explain` up to the verdict.
//!
//! | line | text |
//! |---|---|
//! | function | `nf <name>` |
//! | object that the text doesn't write | `object <name> read only` |
//! | object that no feasible path uses | `object <name> unused` |
//! | any other object | `object <name> rule <rule> keeps`, and its kept labels |
//! | site of a handler for IPv4 | `site <port> <sort>`, and the labels known there |
//! | site of a handler for IPv6 | `site <port> six <sort>`, and the labels known there |
//!
//! Sites stand by port, those of its handler for IPv4 first, then by text place. A kept label is ` <label>`, a known one ` <label>=<field>`; where there is none, ` -` stands.
//! A sort is `get <map>`, `find`, `new`, `name <map>`, `load` or `store`. Each line ends by LF.
ghost use Rattle.std.specs.Prelude.{◌≡◌, ◌++◌, OnOk, IfOk, if◌then◌else◌};
ghost use Rattle.std.specs.List.{range_with_len};
ghost use Rattle.nf_base.specs.Functions.{function_of};
ghost use Rattle.verdict_text.specs.Objects.{sort_text, known_text, knowns_text, site_knows, port_text, site_text, sites_text, labels_text, kept_text, standing_text, object_text, objects_text, explained};

use crate::names::{field_word, label_name, map_name};
use crate::text::{push_bytes, push_decimal};
use access_keys::Site;
use nf_base::decl::ObjectId;
use nf_base::func::Func;
use nf_base::hash_fields::Hashable;
use nf_base::packet::{Door, Family};
use nf_sites::Sort;
use shard_rules::{ObjectVerdict, Plan, field_at, is_on, knows_one, label_count};
use std::alloc::{AllocError, Global};

fn push_sort(out: &mut Vec<u8>, func: &Func, object: ObjectId, sort: Sort) -> Result<(), AllocError>
    ensures ok { OnOk result (out.new.items
        ≡ out.old.items ++ sort_text (function_of func.now) object sort) }
{
    match sort {
        Sort::Get { map } => {
            push_bytes(out, b"get ")?;
            push_bytes(out, map_name(func, object, map))
        }
        Sort::Find => push_bytes(out, b"find"),
        Sort::New => push_bytes(out, b"new"),
        Sort::Name { map } => {
            push_bytes(out, b"name ")?;
            push_bytes(out, map_name(func, object, map))
        }
        Sort::Load => push_bytes(out, b"load"),
        Sort::Store => push_bytes(out, b"store"),
    }
}

fn push_known(
    out: &mut Vec<u8>,
    family: Family,
    name: &[u8],
    field: Option<Hashable>,
) -> Result<(), AllocError>
    ensures ok { OnOk result (out.new.items ≡ out.old.items ++ known_text family name.now field) }
{
    let Some(field) = field else {
        return Ok(());
    };
    push_bytes(out, b" ")?;
    push_bytes(out, name)?;
    push_bytes(out, b"=")?;
    push_bytes(out, field_word(family, field).as_bytes())
}

fn push_knowns(out: &mut Vec<u8>, func: &Func, site: &Site, count: u32) -> Result<(), AllocError>
    ensures ok { OnOk result (out.new.items
        ≡ out.old.items ++ knowns_text (function_of func.now) site.now (range_with_len 0 count)) }
{
    for label in 0..count {
        let name = label_name(func, site.object, label);
        push_known(out, site.door.family, name, field_at(site, label))?;
    }
    Ok(())
}

fn push_site_knows(
    out: &mut Vec<u8>,
    func: &Func,
    site: &Site,
    count: u32,
) -> Result<(), AllocError>
    ensures ok { OnOk result (out.new.items
        ≡ out.old.items ++ site_knows (function_of func.now) site.now (range_with_len 0 count)) }
{
    if knows_one(count, site) {
        push_knowns(out, func, site, count)
    } else {
        push_bytes(out, b" -")
    }
}

// A port, and where the handler is for IPv6, its word.
fn push_port(out: &mut Vec<u8>, door: Door) -> Result<(), AllocError>
    ensures ok { OnOk result (out.new.items ≡ out.old.items ++ port_text door) }
{
    push_decimal(out, u64::from(door.port))?;
    match door.family {
        Family::Four => Ok(()),
        Family::Six => push_bytes(out, b" six"),
    }
}

fn push_site(out: &mut Vec<u8>, func: &Func, site: &Site) -> Result<(), AllocError>
    ensures ok { OnOk result (out.new.items
        ≡ out.old.items ++ site_text (function_of func.now) site.now) }
{
    push_bytes(out, b"site ")?;
    push_port(out, site.door)?;
    push_bytes(out, b" ")?;
    push_sort(out, func, site.object, site.sort)?;
    push_site_knows(out, func, site, label_count(func, site.object))?;
    push_bytes(out, b"\n")
}

fn push_sites(
    out: &mut Vec<u8>,
    func: &Func,
    object: ObjectId,
    sites: &[Site],
) -> Result<(), AllocError>
    ensures ok { OnOk result (out.new.items
        ≡ out.old.items ++ sites_text (function_of func.now) object sites.now) }
{
    for site in sites {
        if is_on(site, object) {
            push_site(out, func, site)?;
        }
    }
    Ok(())
}

fn push_labels(
    out: &mut Vec<u8>,
    func: &Func,
    object: ObjectId,
    labels: &[u32],
) -> Result<(), AllocError>
    ensures ok { OnOk result (out.new.items
        ≡ out.old.items ++ labels_text (function_of func.now) object labels.now) }
{
    for label in labels {
        push_bytes(out, b" ")?;
        push_bytes(out, label_name(func, object, *label))?;
    }
    Ok(())
}

fn push_kept(
    out: &mut Vec<u8>,
    func: &Func,
    object: ObjectId,
    kept: &[u32],
) -> Result<(), AllocError>
    ensures ok { OnOk result (out.new.items
        ≡ out.old.items ++ kept_text (function_of func.now) object kept.now) }
{
    if kept.is_empty() {
        push_bytes(out, b" -")
    } else {
        push_labels(out, func, object, kept)
    }
}

fn push_standing(
    out: &mut Vec<u8>,
    func: &Func,
    sites: &[Site],
    object: ObjectId,
    standing: &ObjectVerdict,
) -> Result<(), AllocError>
    ensures ok { OnOk result (out.new.items
        ≡ out.old.items ++ standing_text (function_of func.now) sites.now object standing.now) }
{
    match standing {
        ObjectVerdict::ReadOnly => push_bytes(out, b" read only\n"),
        ObjectVerdict::Unused => push_bytes(out, b" unused\n"),
        ObjectVerdict::Ruled { rule, kept } => {
            push_bytes(out, b" rule ")?;
            push_bytes(out, rule.word().as_bytes())?;
            push_bytes(out, b" keeps")?;
            push_kept(out, func, object, kept.as_slice())?;
            push_bytes(out, b"\n")?;
            push_sites(out, func, object, sites)
        }
    }
}

fn push_object(
    out: &mut Vec<u8>,
    func: &Func,
    sites: &[Site],
    object: ObjectId,
    standing: &ObjectVerdict,
) -> Result<(), AllocError>
    ensures ok { OnOk result (out.new.items
        ≡ out.old.items ++ object_text (function_of func.now) sites.now object standing.now) }
{
    push_bytes(out, b"object ")?;
    push_bytes(out, func.object_name(object))?;
    push_standing(out, func, sites, object, standing)
}

fn push_objects(
    out: &mut Vec<u8>,
    func: &Func,
    sites: &[Site],
    objects: &[ObjectId],
    standings: &[ObjectVerdict],
) -> Result<(), AllocError>
    ensures ok { OnOk result (out.new.items
        ≡ out.old.items
        ++ objects_text (function_of func.now) sites.now objects.now standings.now) }
{
    let count = objects.len().min(standings.len());
    for k in 0..count {
        push_object(out, func, sites, objects[k], &standings[k])?;
    }
    Ok(())
}

/// Puts the text of a function's objects behind what stands there.
pub fn push_explained(
    out: &mut Vec<u8>,
    func: &Func,
    sites: &[Site],
    plan: &Plan,
) -> Result<(), AllocError>
    ensures ok { OnOk result (out.new.items
        ≡ out.old.items ++ explained (function_of func.now) sites.now plan.now) }
{
    push_bytes(out, b"nf ")?;
    push_bytes(out, func.name.as_slice())?;
    push_bytes(out, b"\n")?;
    let objects = func.objects.as_slice();
    push_objects(out, func, sites, objects, plan.standings.as_slice())
}

/// The text of a function's objects: what its sites come to, and the sites, object by object.
pub fn objects(
    alloc: Global,
    func: &Func,
    sites: &[Site],
    plan: &Plan,
) -> Result<Vec<u8>, AllocError>
    ensures text { IfOk result (λ v.
        v.items ≡ explained (function_of func.now) sites.now plan.now) }
{
    let mut out = Vec::new(alloc);
    push_explained(&mut out, func, sites, plan)?;
    Ok(out)
}
