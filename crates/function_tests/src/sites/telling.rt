//! A site in words: its port and family, its object, how it touches it, and each label that it knows with the field.

use access_keys::Site;
use nf_base::decl::{ChainDecl, ObjectId};
use nf_base::func::Func;
use nf_base::hash_fields::Hashable;
use nf_base::packet::Family;
use nf_sites::Sort;
use std::alloc::{AllocError, Global};

fn put_name(text: &mut String, name: &[u8]) -> Result<(), AllocError> {
    for byte in name {
        text.push(char::from(*byte))?;
    }
    Ok(())
}

fn field_name(family: Family, field: Hashable) -> &'static str {
    match (family, field) {
        (Family::Four, Hashable::SrcIp) => "src_ip",
        (Family::Four, Hashable::DstIp) => "dst_ip",
        (Family::Six, Hashable::SrcIp) => "src_ip6",
        (Family::Six, Hashable::DstIp) => "dst_ip6",
        (_, Hashable::SrcPort) => "src_port",
        (_, Hashable::DstPort) => "dst_port",
    }
}

/// The word of IPv6, in front of what it is said of.
fn family_word(family: Family) -> &'static str {
    match family {
        Family::Four => "",
        Family::Six => "six ",
    }
}

fn chain_of(func: &Func, object: ObjectId) -> Option<&ChainDecl> {
    match object {
        ObjectId::Chain(chain) => func.chains.as_slice().get(chain as usize),
        ObjectId::Array(_) => None,
    }
}

fn put_object(text: &mut String, func: &Func, object: ObjectId) -> Result<(), AllocError> {
    if let Some(chain) = chain_of(func, object) {
        return put_name(text, chain.name.as_slice());
    }
    if let ObjectId::Array(array) = object {
        if let Some(array) = func.arrays.as_slice().get(array as usize) {
            return put_name(text, array.name.as_slice());
        }
    }
    Ok(())
}

fn put_map(text: &mut String, func: &Func, site: &Site, map: u32) -> Result<(), AllocError> {
    if let Some(chain) = chain_of(func, site.object) {
        if let Some(map) = chain.maps.as_slice().get(map as usize) {
            return put_name(text, map.name.as_slice());
        }
    }
    Ok(())
}

fn put_sort(text: &mut String, func: &Func, site: &Site) -> Result<(), AllocError> {
    match site.sort {
        Sort::Get { map } => {
            text.push_str("get ")?;
            put_map(text, func, site, map)
        }
        Sort::Find => text.push_str("find"),
        Sort::New => text.push_str("new"),
        Sort::Name { map } => {
            text.push_str("name ")?;
            put_map(text, func, site, map)
        }
        Sort::Load => text.push_str("load"),
        Sort::Store => text.push_str("store"),
    }
}

fn put_label(text: &mut String, func: &Func, site: &Site, label: usize) -> Result<(), AllocError> {
    match chain_of(func, site.object) {
        None => text.push_str("index"),
        Some(chain) => match chain.labels.as_slice().get(label) {
            None => Ok(()),
            Some(decl) => put_name(text, decl.name.as_slice()),
        },
    }
}

fn put_known(text: &mut String, func: &Func, site: &Site) -> Result<bool, AllocError> {
    let mut some = false;
    for (label, known) in site.known.as_slice().iter().enumerate() {
        if let Some(field) = *known {
            some = true;
            text.push(' ')?;
            put_label(text, func, site, label)?;
            text.push('=')?;
            text.push_str(field_name(site.door.family, field))?;
        }
    }
    Ok(some)
}

/// A site in words, as `0 conns at 5: find rip=src_ip rp=src_port`, or with `-` where it knows no label.
pub fn told(alloc: Global, func: &Func, site: &Site) -> Result<String, AllocError> {
    let word = family_word(site.door.family);
    let mut text = format!(in alloc; "{} {word}", site.door.port)?;
    put_object(&mut text, func, site.object)?;
    let place = format!(in alloc; " at {}: ", site.place)?;
    text.push_str(place.as_str())?;
    put_sort(&mut text, func, site)?;
    if !put_known(&mut text, func, site)? {
        text.push_str(" -")?;
    }
    Ok(text)
}
