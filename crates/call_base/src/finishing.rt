//! What a run leaves once its packets are handled: the text of its last state, and the lines on it.
ghost use Rattle.std.specs.Prelude.{◌≡◌, ◌+◌, length, string_bytes};
ghost use Rattle.nf_base.specs.Functions.{function_of};
ghost use Rattle.run_history.specs.StateText as states;
ghost use Rattle.call_base.specs.Names as names;
ghost use Rattle.call_base.specs.Outside.{seen};
ghost use Rattle.call_base.specs.Leaving.{PutsTo, OutTo, FinishesTo};

use crate::names::name_at;
use crate::opening::create_next;
use crate::say::say;
use capture_format::CaptureFormat;
use nf_base::func::Func;
use nf_base::state::State;
use nf_files::{Files, write_whole};
use run_history::state_text::state_text;
use std::alloc::Global;
use stream_run::RunFault;

// Puts a text into a file that is created behind a number that was given last.
fn put_text<F: Files>(files: &mut F, name: &String, text: &[u8], last: u32) -> Result<(), RunFault>
    requires last { (F.told files.old).next ≡ last + 1 }
    ensures { PutsTo (string_bytes name.now) text.now (seen (F.told files.old) (F.counted files.old))
        (seen (F.told files.new) (F.counted files.new)) result }
{
    match create_next(files, name, last) {
        Ok(file) => match write_whole(files, file, text) {
            Ok(()) => Ok(()),
            Err(fault) => Err(RunFault::of(file, fault)),
        },
        Err(stop) => Err(stop),
    }
}

// Creates the file of the last state, behind a number that was given last, and writes it.
fn leave_state<F: Files>(
    alloc: Global,
    files: &mut F,
    func: &Func,
    format: CaptureFormat,
    out: &String,
    state: &State,
    last: u32,
) -> Result<(), RunFault>
    requires last { (F.told files.old).next ≡ last + 1 }
    ensures { let ports = length func.now.handlers in
        let name = names.name_at format (string_bytes out.now) ports (ports + 1) in
        let bytes = states.state_text (function_of func.now) state.now in
        PutsTo name bytes (seen (F.told files.old) (F.counted files.old))
        (seen (F.told files.new) (F.counted files.new)) result }
{
    let ports = func.handlers.len();
    let name = match name_at(alloc, format, out, ports, ports + 1) {
        Ok(name) => name,
        Err(_) => return Err(RunFault::Memory),
    };
    match state_text(alloc, func, state) {
        Ok(text) => put_text(files, &name, text.as_slice(), last),
        Err(_) => Err(RunFault::Memory),
    }
}

/// Prints the lines on a run.
pub fn print_lines<F: Files>(files: &mut F, lines: &[u8]) -> Result<(), RunFault>
    ensures { OutTo lines.now (seen (F.told files.old) (F.counted files.old))
        (seen (F.told files.new) (F.counted files.new)) result }
{
    say(files, 0, lines)
}

/// Leaves the last state of a run whose outputs are of this format, behind a number that was given last,
/// and prints the lines on it.
pub fn finish<F: Files>(
    alloc: Global,
    files: &mut F,
    func: &Func,
    format: CaptureFormat,
    out: &String,
    state: &State,
    lines: &[u8],
    last: u32,
) -> Result<(), RunFault>
    requires last { (F.told files.old).next ≡ last + 1 }
    ensures { let ports = length func.now.handlers in
        let name = names.name_at format (string_bytes out.now) ports (ports + 1) in
        let bytes = states.state_text (function_of func.now) state.now in
        FinishesTo name bytes lines.now (seen (F.told files.old) (F.counted files.old))
        (seen (F.told files.new) (F.counted files.new)) result }
{
    match leave_state(alloc, files, func, format, out, state, last) {
        Ok(()) => print_lines(files, lines),
        Err(stop) => Err(stop),
    }
}
