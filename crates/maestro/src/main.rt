//! The program: the words of the command line, the files of the system and the toolchain's gate to shared
//! tables, given to the top call.
#![tactic(auto)]

ghost use Rattle.std.specs.Prelude.{map, string_bytes};
ghost use Rattle.command_words.specs.Commands.{command_of};
ghost use Rattle.call_base.specs.Outside.{seen};
ghost use Rattle.lock_mode.specs.Gates.{Rose};
ghost use Rattle.maestro.specs.Exits.{Exits};

use lock_mode::Gate;
use maestro_cli::{Idle, PackGate, Status, maestro};
use nf_files::{Files, RealFiles};
use std::alloc::Global;
use std::process::ExitCode;
use std::sync::{Arc, Wait};
use std::thread::Threads;
use std::{env, io};

fn words(rt: &HostRuntime) -> io::Result<Vec<String>> {
    let mut words = Vec::new(rt.alloc());
    for word in env::args(rt)? {
        words.push(word)?;
    }
    Ok(words)
}

// Does what the words ask for, and gives what the process ends with: the number of the call's status.
fn exit_code<
    R: Threads + Wait + Clone + Send + Sync + Drop + 'static,
    F: Files,
    L: Gate + Drop + Send,
>(
    rt: &R,
    alloc: Global,
    words: &[String],
    files: &mut F,
    turns: &Arc<Idle>,
    gate: &mut L,
) -> ExitCode
    ensures { let before = seen (F.told files.old) (F.counted files.old) in
        Exits (Rose (L.refused gate.old) (L.refused gate.new))
        (command_of (map string_bytes words.now)) before
        (seen (F.told files.new) (F.counted files.new)) result }
{
    let status = maestro(rt, alloc, words, files, turns, gate);
    ExitCode::from(status.number())
}

fn main(rt: HostRuntime) -> ExitCode {
    let Ok(words) = words(&rt) else {
        return ExitCode::from(Status::Memory.number());
    };
    let Ok(turns) = Arc::new(rt.alloc(), Idle) else {
        return ExitCode::from(Status::Memory.number());
    };
    let mut files = RealFiles::new(rt.alloc(), &rt, rt.stdout(), rt.stderr());
    let mut gate = PackGate::new();
    exit_code(
        &rt,
        rt.alloc(),
        words.as_slice(),
        &mut files,
        &turns,
        &mut gate,
    )
}
