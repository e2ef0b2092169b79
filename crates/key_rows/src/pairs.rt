//! The equations of all pairs of places of an object. Two places say the same in either order, so
//! each pair is taken once.
ghost use Rattle.std.specs.Prelude.{◌<◌, ◌≤◌, ℕ, IfOk, OnOk, All, length};
ghost use Rattle.key_rows.specs.Keyed.{AreAtPorts};
ghost use Rattle.key_rows.specs.Systems.{IsOver, Adds, AreEquationsOf, AgreeFrom};
ghost use Rattle.key_rows.specs.Places.{AreAdmissible};

use crate::equations::add_pair;
use crate::place::{Object, Place};
use gf2_solve::System;
use nf_base::seq::Seq;
use std::alloc::{AllocError, Global};

/// The equations that the bits of keys solve exactly where the keys are admissible.
pub fn equations_of(alloc: Global, ports: u32, objects: &[Object]) -> Result<System, AllocError>
    requires four { ports ≤ 4 }
    requires within { All (λ object. AreAtPorts ports object.places) objects.now }
    ensures { IfOk result (AreEquationsOf ports objects.now) }
{
    let mut system = System::new(alloc, 319 * ports)?;
    for object in objects {
        add_object(alloc, &mut system, ports, &object.places)?;
    }
    Ok(system)
}

/// Adds the equations of the places of an object.
fn add_object(
    alloc: Global,
    system: &mut System,
    ports: u32,
    places: &Seq<Place>,
) -> Result<(), AllocError>
    requires over { IsOver ports system.old }
    requires four { ports ≤ 4 }
    requires within { AreAtPorts ports places.now }
    ensures { OnOk result
        (Adds ports (λ keys. AreAdmissible keys places.now) system.old system.new) }
{
    for i in 0..places.len() {
        add_place(alloc, system, ports, places, i)?;
    }
    Ok(())
}

/// Adds the equations of a place with itself and with each later one.
fn add_place(
    alloc: Global,
    system: &mut System,
    ports: u32,
    places: &Seq<Place>,
    i: usize,
) -> Result<(), AllocError>
    requires over { IsOver ports system.old }
    requires four { ports ≤ 4 }
    requires within { AreAtPorts ports places.now }
    requires place { i < length places.now }
    ensures { OnOk result
        (Adds ports (λ keys. AgreeFrom keys places.now i) system.old system.new) }
{
    for j in i..places.len() {
        add_pair(alloc, system, ports, places.item(i), places.item(j))?;
    }
    Ok(())
}
