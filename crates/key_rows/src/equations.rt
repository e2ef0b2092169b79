//! The equations of two places.
ghost use Rattle.std.specs.Prelude.{◌≡◌, ◌<◌, ◌≤◌, ℕ, OnOk, slice_index};
ghost use Rattle.key_rows.specs.Rows.{AreOwn, IsEvenAt, AreEvenAt, AreEven};
ghost use Rattle.key_rows.specs.Systems.{IsOver, Adds};
ghost use Rattle.key_rows.specs.Places.{AgreeAt};

use crate::place::Place;
use crate::windows::{Windows, is_within, row, windows_of};
use gf2_solve::System;
use std::alloc::{AllocError, Global};

/// Adds the equations of two places, which may be one.
pub fn add_pair(
    alloc: Global,
    system: &mut System,
    ports: u32,
    first: &Place,
    second: &Place,
) -> Result<(), AllocError>
    requires over { IsOver ports system.old }
    requires four { ports ≤ 4 }
    requires first { first.now.port < ports }
    requires second { second.now.port < ports }
    ensures { OnOk result
        (Adds ports (λ keys. AgreeAt keys first.now second.now) system.old system.new) }
{
    // Inputs are tied nowhere where the places have other labels.
    if first.known.len() != second.known.len() {
        return Ok(());
    }
    let windows = windows_of(first, second);
    add_windows(alloc, system, ports, &windows)?;
    Ok(())
}

/// Adds the equations of all classes.
fn add_windows(
    alloc: Global,
    system: &mut System,
    ports: u32,
    windows: &Windows,
) -> Result<(), AllocError>
    requires over { IsOver ports system.old }
    requires four { ports ≤ 4 }
    requires first { windows.now.first < ports }
    requires second { windows.now.second < ports }
    requires own { AreOwn (slice_index windows.now.classes) }
    ensures { OnOk result
        (Adds ports (λ keys. AreEven keys windows.now) system.old system.new) }
{
    for k in 0..8 {
        // Each class has the number of one of its fields.
        if windows.classes[k] == k {
            add_class(alloc, system, ports, windows, k)?;
        }
    }
    Ok(())
}

/// Adds the equations of class `k`.
fn add_class(
    alloc: Global,
    system: &mut System,
    ports: u32,
    windows: &Windows,
    k: usize,
) -> Result<(), AllocError>
    requires over { IsOver ports system.old }
    requires four { ports ≤ 4 }
    requires first { windows.now.first < ports }
    requires second { windows.now.second < ports }
    ensures { OnOk result
        (Adds ports (λ keys. AreEvenAt keys windows.now k) system.old system.new) }
{
    for u in 0..159 {
        add_bit(alloc, system, ports, windows, k, u)?;
    }
    Ok(())
}

/// Adds the equation of bit `u` of the windows of class `k`, if all of them have it.
fn add_bit(
    alloc: Global,
    system: &mut System,
    ports: u32,
    windows: &Windows,
    k: usize,
    u: u32,
) -> Result<(), AllocError>
    requires over { IsOver ports system.old }
    requires four { ports ≤ 4 }
    requires first { windows.now.first < ports }
    requires second { windows.now.second < ports }
    ensures { OnOk result
        (Adds ports (λ keys. IsEvenAt keys windows.now k u) system.old system.new) }
{
    if !is_within(windows, k, u) {
        return Ok(());
    }
    let row = row(alloc, windows, k, u)?;
    system.add(alloc, &row)?;
    Ok(())
}
