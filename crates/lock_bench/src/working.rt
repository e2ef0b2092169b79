//! Workers that share the tables of a function, or one that has them for itself.
ghost use Rattle.std.specs.Prelude.{◌≡◌, ◌<◌, true, length, All};
ghost use Rattle.nf_base.specs.Doors.{IsServed};
ghost use Rattle.nf_base.specs.Functions.{function_of};

use crate::gates::Shut;
use lock_core::is_served;
use lock_mode::{Gate, PackGate};
use lock_workers::{Idle, RunResult, run};
use nf_base::func::Func;
use nf_base::packet::Packet;
use std::alloc::{AllocError, Global};
use std::sync::Wait;
use std::thread::Threads;

/// Whether each packet is of one of so many ports.
fn have_ports(packets: &[Packet], ports: u32) -> bool
    ensures { result ≡ true → All (λ p. p.id.port < ports) packets.now }
{
    packets.iter().all(|p| p.id.port < ports)
}

/// Whether each packet is skipped, or its port has a handler for it.
fn are_served(packets: &[Packet], func: &Func) -> bool
    ensures { result ≡ true → All (IsServed (function_of func.now)) packets.now }
{
    packets.iter().all(|p| is_served(func, p))
}

/// What packets come to by workers that a gate lets in, unless one has no port or no handler there, or
/// there is no worker.
fn work_by<R: Threads + Wait + Sync, G: Gate + Drop + Send>(
    rt: &R,
    alloc: Global,
    func: &Func,
    workers: u32,
    packets: &[Packet],
    gate: &mut G,
) -> Result<Option<RunResult>, AllocError> {
    let ports = func.handlers.len();
    if workers == 0 || packets.len() > 4_294_967_296 {
        return Ok(None);
    }
    if !have_ports(packets, ports) || !are_served(packets, func) {
        return Ok(None);
    }
    match run(rt, alloc, func, workers, packets, &Idle, gate) {
        Ok(worked) => Ok(Some(worked)),
        Err(refused) => Err(refused),
    }
}

/// What packets come to by so many workers, or, where that is 0, by one that shares its tables with
/// nobody.
pub fn work<R: Threads + Wait + Sync>(
    rt: &R,
    alloc: Global,
    func: &Func,
    workers: u32,
    packets: &[Packet],
) -> Result<Option<RunResult>, AllocError> {
    if workers == 0 {
        work_by(rt, alloc, func, 1, packets, &mut Shut::new())
    } else {
        work_by(rt, alloc, func, workers, packets, &mut PackGate::new())
    }
}
