//! The summary of a run over made-up traffic.
//!
//! | line | text |
//! |---|---|
//! | all packets | `packets <count>` |
//! | each port | `port <port> <count>` |
//! | how they were handled | `mode <mode> <workers>` |
//! | all outputs | `sent <records>` |
//! | each chain, in text order | `entries <name> <live entries>` |
ghost use Rattle.std.specs.Prelude.{◌≡◌, ◌≤◌, ◌++◌, length, OnOk, IfOk, codes, decimal};
ghost use Rattle.nf_base.specs.Functions.{function_of};
ghost use Rattle.run_history.specs.Line.{mode_word};
ghost use Rattle.traffic_summary.specs.Summary.{count_at, port_line, port_lines, numbers_text, live, entries_line, entries_lines, left_text};

use crate::text::{push_bytes, push_decimal};
use nf_base::decl::ChainDecl;
use nf_base::func::Func;
use nf_base::state::{Chain, Entry, State};
use nf_base::workers::Workers;
use run_history::line::Mode;
use std::alloc::{AllocError, Global};

// How many of so many packets come in at a port.
fn count_at(packets: u32, ports: u32, port: u32) -> u64
    requires { 1 ≤ ports }
    ensures { result ≡ count_at packets ports port }
{
    let whole = u64::from(packets / ports);
    if port < packets % ports {
        whole + 1
    } else {
        whole
    }
}

fn push_port(out: &mut Vec<u8>, packets: u32, ports: u32, port: u32) -> Result<(), AllocError>
    requires { 1 ≤ ports }
    ensures ok { OnOk result (out.new.items ≡ out.old.items ++ port_line packets ports port) }
{
    push_bytes(out, b"port ")?;
    push_decimal(out, u64::from(port))?;
    push_bytes(out, b" ")?;
    push_decimal(out, count_at(packets, ports, port))?;
    push_bytes(out, b"\n")
}

fn push_ports(out: &mut Vec<u8>, packets: u32, ports: u32) -> Result<(), AllocError>
    requires { 1 ≤ ports }
    ensures ok { OnOk result (out.new.items ≡ out.old.items ++ port_lines packets ports 0 ports) }
{
    for port in 0..ports {
        push_port(out, packets, ports, port)?;
    }
    Ok(())
}

fn word_of(mode: Mode) -> &'static [u8]
    ensures { result.now ≡ mode_word mode }
{
    match mode {
        Mode::One => b"one",
        Mode::Shard => b"shard",
        Mode::Lock => b"lock",
    }
}

fn push_mode(out: &mut Vec<u8>, mode: Mode, workers: Workers) -> Result<(), AllocError>
    ensures ok { OnOk result (out.new.items ≡ out.old.items ++
        (codes "mode " ++ mode_word mode ++ codes " " ++ decimal workers ++ codes "\n")) }
{
    push_bytes(out, b"mode ")?;
    push_bytes(out, word_of(mode))?;
    push_bytes(out, b" ")?;
    push_decimal(out, u64::from(workers.get()))?;
    push_bytes(out, b"\n")
}

/// How many packets there were, and at each of so many ports, and how they were handled.
pub fn numbers(
    alloc: Global,
    packets: u32,
    ports: u32,
    mode: Mode,
    workers: Workers,
) -> Result<Vec<u8>, AllocError>
    requires { 1 ≤ ports }
    ensures { IfOk result (λ v. v.items ≡ numbers_text packets ports mode workers) }
{
    let mut out = Vec::new(alloc);
    push_bytes(&mut out, b"packets ")?;
    push_decimal(&mut out, u64::from(packets))?;
    push_bytes(&mut out, b"\n")?;
    push_ports(&mut out, packets, ports)?;
    push_mode(&mut out, mode, workers)?;
    Ok(out)
}

fn live(slots: &[Option<Entry>]) -> usize
    ensures { result ≡ live slots.now }
{
    let mut count: usize = 0;
    for slot in slots {
        if slot.is_some() {
            count += 1;
        }
    }
    count
}

fn push_entries(out: &mut Vec<u8>, decl: &ChainDecl, chain: &Chain) -> Result<(), AllocError>
    ensures ok { OnOk result (out.new.items ≡ out.old.items ++ entries_line decl.now chain.now) }
{
    push_bytes(out, b"entries ")?;
    push_bytes(out, decl.name.as_slice())?;
    push_bytes(out, b" ")?;
    push_decimal(out, live(chain.slots.as_slice()) as u64)?;
    push_bytes(out, b"\n")
}

fn push_chains(out: &mut Vec<u8>, decls: &[ChainDecl], chains: &[Chain]) -> Result<(), AllocError>
    ensures ok { OnOk result (out.new.items ≡ out.old.items ++ entries_lines decls.now chains.now) }
{
    let count = decls.len().min(chains.len());
    for k in 0..count {
        push_entries(out, &decls[k], &chains[k])?;
    }
    Ok(())
}

/// The same, and how many records the run left in all outputs, and how many entries each chain has in its
/// last state.
pub fn summary(
    alloc: Global,
    func: &Func,
    packets: u32,
    mode: Mode,
    workers: Workers,
    sent: u64,
    state: &State,
) -> Result<Vec<u8>, AllocError>
    requires { 1 ≤ length func.now.handlers }
    ensures { IfOk result (λ v. v.items ≡
        numbers_text packets (length func.now.handlers) mode workers
        ++ left_text (function_of func.now) sent state.now) }
{
    let mut out = numbers(alloc, packets, func.handlers.len(), mode, workers)?;
    push_bytes(&mut out, b"sent ")?;
    push_decimal(&mut out, sent)?;
    push_bytes(&mut out, b"\n")?;
    push_chains(&mut out, func.chains.as_slice(), state.chains.as_slice())?;
    Ok(out)
}
