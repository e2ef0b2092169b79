//! What a certificate is about.
ghost use Rattle.std.specs.Prelude.{◌≡◌, ◌≤◌, IfOk, length, map};
ghost use Rattle.std.specs.List.{range_with_len};
ghost use Rattle.nf_base.specs.Doors.{six_ports};
ghost use Rattle.nf_base.specs.Functions.{function_of};
ghost use Rattle.key_rows.specs.Positions.{positions_at};
ghost use Rattle.shard_rules.specs.Served.{own_sites, own_plan};
ghost use Rattle.key_proof.specs.Faults.{subject_of};

use crate::keyed::positions_at;
use crate::numbered::{Numbered, numbered_sites};
use access_keys::Site;
use key_rows::Object;
use nf_base::func::Func;
use nf_base::limited::Limited;
use nf_base::seq::Seq;
use shard_rules::Plan;
use std::alloc::{AllocError, Global};

/// What a certificate is about.
#[derive(Drop)]
pub struct Subject {
    /// How many bits of the key of each port count.
    pub positions: Limited<u32, 4>,
    /// The sites that have a number, in the order of their numbers.
    pub sites: Seq<Numbered>,
}

/// How many bits of the key of each port of a function count.
fn all_positions(
    alloc: Global,
    func: &Func,
    objects: &[Object],
) -> Result<Limited<u32, 4>, AllocError>
    ensures value { IfOk result (λ positions. positions
        ≡ map (positions_at (six_ports (function_of func.now)) objects.now)
        (range_with_len 0 (length (function_of func.now).handlers))) }
    ensures few { IfOk result (λ positions. length positions ≤ 4) }
{
    let mut positions = Limited::new(alloc);
    for port in 0..func.handlers.len() {
        positions.push(positions_at(func, objects, port))?;
    }
    Ok(positions)
}

/// What a certificate of a function is about, from the function's sites and their plan.
pub fn subject_of(
    alloc: Global,
    func: &Func,
    sites: &[Site],
    plan: &Plan,
) -> Result<Subject, AllocError>
    requires sites { sites.now ≡ own_sites (function_of func.now) }
    requires plan { plan.now ≡ own_plan (function_of func.now) }
    ensures value { IfOk result (λ subject. subject ≡ subject_of (function_of func.now)) }
    ensures few { IfOk result (λ subject. length subject.positions ≤ 4) }
{
    let positions = all_positions(alloc, func, plan.objects.as_slice())?;
    let sites = numbered_sites(
        alloc,
        func.objects.as_slice(),
        plan.standings.as_slice(),
        sites,
    )?;
    Ok(Subject { positions, sites })
}
