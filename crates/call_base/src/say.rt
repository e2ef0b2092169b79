//! What is printed, given to the standard outputs.
ghost use Rattle.std.specs.Prelude.{◌≡◌, ◌≢◌, ◌<◌};
ghost use Rattle.stream_run.specs.Writing.{IsStopCause, StopsAt};
ghost use Rattle.call_base.specs.declared.status.Status.TheVariants.{Done};
ghost use Rattle.call_base.specs.Outside.{seen};
ghost use Rattle.call_base.specs.Printed.{Says, Tells, after_stop};
ghost use Rattle.call_base.specs.PrintedOut.{PrintsTo, stop_at_stdout};

use crate::status::{CallFault, RunFile, Status};
use crate::text::error_line;
use nf_files::{Files, write_whole};
use stream_run::RunFault;

/// Gives a piece to standard output, whose number is 0, or to standard error, whose number is 1.
pub fn say<F: Files>(files: &mut F, file: u32, piece: &[u8]) -> Result<(), RunFault>
    requires standard { file < 2 }
    ensures wrote { Says (F.told files.old) (F.told files.new) file piece.now result }
    ensures at { StopsAt file result }
    ensures cause { IsStopCause (F.counted files.old) (F.counted files.new) result }
{
    match write_whole(files, file, piece) {
        Ok(()) => Ok(()),
        Err(fault) => Err(RunFault::of(file, fault)),
    }
}

// What a stop of printing is.
fn stop_at_stdout(stop: RunFault) -> CallFault
    ensures { result ≡ stop_at_stdout stop }
{
    match stop {
        RunFault::File(_) => CallFault::File(RunFile::Stdout),
        RunFault::Memory => CallFault::Memory,
    }
}

/// Prints on standard output.
pub fn print_out<F: Files>(files: &mut F, piece: &[u8]) -> Result<(), CallFault>
    ensures { PrintsTo (seen (F.told files.old) (F.counted files.old))
        (seen (F.told files.new) (F.counted files.new)) piece.now result }
{
    match say(files, 0, piece) {
        Ok(()) => Ok(()),
        Err(stop) => Err(stop_at_stdout(stop)),
    }
}

// A status after standard error could not be written: a fault that stands already is not hidden.
fn after_stop(due: Status, stop: RunFault) -> Status
    ensures { result ≡ after_stop due stop }
{
    match (due, stop) {
        (Status::FileFault(file), _) => Status::FileFault(file),
        (_, RunFault::File(_)) => Status::FileFault(RunFile::Stderr),
        (_, RunFault::Memory) => Status::Memory,
    }
}

// Says on standard error how a call ended that is no success.
fn complain<F: Files>(files: &mut F, due: Status) -> Status
    requires { due ≢ Done }
    ensures { Tells (seen (F.told files.old) (F.counted files.old))
        (seen (F.told files.new) (F.counted files.new)) due result }
{
    match say(files, 1, error_line(due).as_slice()) {
        Ok(()) => due,
        Err(stop) => after_stop(due, stop),
    }
}

/// Says on standard error how a call ended, where that is no success.
pub fn tell<F: Files>(files: &mut F, due: Status) -> Status
    ensures { Tells (seen (F.told files.old) (F.counted files.old))
        (seen (F.told files.new) (F.counted files.new)) due result }
{
    match due {
        Status::Done => Status::Done,
        _ => complain(files, due),
    }
}
