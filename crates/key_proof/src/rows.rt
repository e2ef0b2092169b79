//! The row that a line lists.
ghost use Rattle.std.specs.Prelude.{◌≡◌, ◌<◌, ◌≤◌, ℕ, IfOk, IfSome, length, slice_get, slice_index};
ghost use Rattle.certificate_text.specs.Words.{and_then};
ghost use Rattle.key_rows.specs.Rows.{IsWithin};
ghost use Rattle.certificate_laws.specs.Certificates.{numbers_below};
ghost use Rattle.key_proof.specs.Rows.{class_at, is_least, is_longer, are_longer, row_behind, row_between, are_tied, row_if, row_of, ArePlacesWithin, IsRowWithin};

use crate::fields::{classes_of, end_at, field_of, place_number, width_at};
use crate::numbered::Numbered;
use certificate_laws::Named;
use key_rows::Place;
use nf_base::seq::Seq;
use std::alloc::{AllocError, Global};

/// Whether no field before one is of its class.
fn is_least(first: &Place, second: &Place, classes: &[usize; 8], n: usize) -> bool
    requires field { n < 8 }
    requires classes { (m : ℕ) → m < 8 → slice_index classes.now m ≡ class_at first.now second.now m }
    ensures { result ≡ is_least first.now second.now n }
{
    for m in 0..n {
        if classes[m] == classes[n] {
            return false;
        }
    }
    true
}

/// Whether a field is of another class than `k`, or has more than so many bits.
fn is_longer(
    first: &Place,
    second: &Place,
    classes: &[usize; 8],
    k: usize,
    t: u32,
    m: usize,
) -> bool
    requires field { m < 8 }
    requires classes { (j : ℕ) → j < 8 → slice_index classes.now j ≡ class_at first.now second.now j }
    ensures { result ≡ is_longer first.now second.now k t m }
{
    classes[m] != k || t < width_at(first.family, second.family, m)
}

/// Whether all fields of a class have more than so many bits.
fn are_longer(first: &Place, second: &Place, classes: &[usize; 8], k: usize, t: u32) -> bool
    requires { (m : ℕ) → m < 8 → slice_index classes.now m ≡ class_at first.now second.now m }
    ensures { result ≡ are_longer first.now second.now k t }
{
    for m in 0..8 {
        if !is_longer(first, second, classes, k, t, m) {
            return false;
        }
    }
    true
}

/// The numbers of bits `u` of the windows of a class.
#[tactic(auto, using(crate::proofs::Named::numbers_none, crate::proofs::Named::numbers_with, crate::proofs::Named::numbers_without))]
fn numbers(
    alloc: Global,
    first: &Place,
    second: &Place,
    classes: &[usize; 8],
    k: usize,
    u: u32,
) -> Result<Seq<u32>, AllocError>
    requires classes { (m : ℕ) → m < 8 → slice_index classes.now m ≡ class_at first.now second.now m }
    requires bits { IsWithin first.now.family second.now.family (class_at first.now second.now) k u }
    requires first { first.now.port < 4 }
    requires second { second.now.port < 4 }
    ensures value { IfOk result (λ row. row ≡ numbers_below first.now second.now k u 8) }
    ensures within { IfOk result (ArePlacesWithin first.now second.now) }
{
    let mut row = Seq::new(alloc);
    for n in 0..8 {
        if classes[n] != k {
            continue;
        }
        row.push(place_number(first, second, n, u))?;
    }
    Ok(row)
}

/// The row of a class whose least field is this one.
#[tactic(auto, using(crate::proofs::Named::are_within))]
fn row_behind(
    alloc: Global,
    first: &Place,
    second: &Place,
    n: usize,
    t: u32,
    hashed: u32,
) -> Result<Option<Seq<u32>>, AllocError>
    requires field { n < 8 }
    requires tied { length first.now.known ≡ length second.now.known }
    requires first { first.now.port < 4 }
    requires second { second.now.port < 4 }
    requires low { t ≤ 288 }
    ensures value { IfOk result (λ row. row ≡ row_behind first.now second.now n t hashed) }
    ensures within { IfOk result (λ row. IfSome row (ArePlacesWithin first.now second.now)) }
{
    let classes = classes_of(first.known.as_slice(), second.known.as_slice());
    let k = classes[n];
    if hashed < 32
        && is_least(first, second, &classes, n)
        && are_longer(first, second, &classes, k, t)
    {
        let row = numbers(alloc, first, second, &classes, k, t + 31 - hashed)?;
        Ok(Some(row))
    } else {
        Ok(None)
    }
}

/// The row of a bit of the inputs at two places, and of a bit of the hash.
fn row_between(
    alloc: Global,
    first: &Place,
    second: &Place,
    named: &Named,
) -> Result<Option<Seq<u32>>, AllocError>
    requires tied { length first.now.known ≡ length second.now.known }
    requires first { first.now.port < 4 }
    requires second { second.now.port < 4 }
    ensures value { IfOk result (λ row. row
        ≡ row_between first.now second.now named.now.side named.now.input named.now.result) }
    ensures within { IfOk result (λ row. IfSome row (ArePlacesWithin first.now second.now)) }
{
    match field_of(first, second, named.side, named.input) {
        Some(n) => {
            let t = end_at(first.family, second.family, n) - 1 - named.input;
            row_behind(alloc, first, second, n, t, named.result)
        }
        None => Ok(None),
    }
}

/// Whether two sites are of one object, at the first so many ports.
fn are_tied(ports: u32, a: &Numbered, b: &Numbered) -> bool
    ensures { result ≡ are_tied ports a.now b.now }
{
    a.object == b.object
        && a.place.known.len() == b.place.known.len()
        && a.place.port < ports
        && b.place.port < ports
}

/// The row of two sites.
#[tactic(auto, using(crate::proofs::Named::tied_long, crate::proofs::Named::tied_first, crate::proofs::Named::tied_second, crate::proofs::Named::tied_within))]
fn row_if(
    alloc: Global,
    ports: u32,
    named: &Named,
    a: &Numbered,
    b: &Numbered,
) -> Result<Option<Seq<u32>>, AllocError>
    requires { ports ≤ 4 }
    ensures value { IfOk result (λ row. row ≡ row_if ports named.now a.now b.now) }
    ensures within { IfOk result (λ row. IfSome row (IsRowWithin ports)) }
{
    if are_tied(ports, a, b) {
        row_between(alloc, &a.place, &b.place, named)
    } else {
        Ok(None)
    }
}

/// The row of a site and of the second one that is named.
fn row_from(
    alloc: Global,
    ports: u32,
    sites: &[Numbered],
    named: &Named,
    a: &Numbered,
) -> Result<Option<Seq<u32>>, AllocError>
    requires { ports ≤ 4 }
    ensures value { IfOk result (λ row. row
        ≡ and_then (slice_get sites.now named.now.second) (row_if ports named.now a.now)) }
    ensures within { IfOk result (λ row. IfSome row (IsRowWithin ports)) }
{
    match sites.get(named.second as usize) {
        Some(b) => row_if(alloc, ports, named, a, b),
        None => Ok(None),
    }
}

/// The row that is named, of the sites of a function's ports; None where there is none.
#[tactic(auto, using(crate::proofs::Named::row_there, crate::proofs::Named::row_none))]
pub fn row_of(
    alloc: Global,
    ports: u32,
    sites: &[Numbered],
    named: &Named,
) -> Result<Option<Seq<u32>>, AllocError>
    requires { ports ≤ 4 }
    ensures value { IfOk result (λ row. row ≡ row_of ports sites.now named.now) }
    ensures within { IfOk result (λ row. IfSome row (IsRowWithin ports)) }
{
    if named.first > named.second {
        return Ok(None);
    }
    match sites.get(named.first as usize) {
        Some(a) => {
            let row = row_from(alloc, ports, sites, named, a)?;
            Ok(row)
        }
        None => Ok(None),
    }
}
