//! A certificate that is written into a file, and the verdict that is printed behind it.
ghost use Rattle.std.specs.Prelude.{◌≡◌, string_bytes};
ghost use Rattle.call_base.specs.Outside.{seen};
ghost use Rattle.call_base.specs.PrintedOut.{stop_at_stdout};
ghost use Rattle.prove_call.specs.Leaving.{WritesUnder, PrintsOut, Leaves};

use crate::texts::Texts;
use call_base::finishing::print_lines;
use call_base::status::{CallFault, RunFile};
use nf_files::{Files, FilesFault, write_whole};
use stream_run::RunFault;

// Creates a certificate's file, and writes it whole.
fn write_certificate<F: Files>(files: &mut F, name: &String, text: &[u8]) -> Result<(), CallFault>
    ensures { WritesUnder (string_bytes name.now) text.now (seen (F.told files.old) (F.counted files.old))
        (seen (F.told files.new) (F.counted files.new)) result }
{
    match files.create_out(name) {
        Ok(file) => match write_whole(files, file, text) {
            Ok(()) => Ok(()),
            Err(FilesFault::Failed) => Err(CallFault::File(RunFile::Proof)),
            Err(FilesFault::Memory(_)) => Err(CallFault::Memory),
        },
        Err(FilesFault::Failed) => Err(CallFault::File(RunFile::Proof)),
        Err(FilesFault::Memory(_)) => Err(CallFault::Memory),
    }
}

// What a stop of printing is.
fn stop_at_stdout(stop: RunFault) -> CallFault
    ensures { result ≡ stop_at_stdout stop }
{
    match stop {
        RunFault::File(_) => CallFault::File(RunFile::Stdout),
        RunFault::Memory => CallFault::Memory,
    }
}

// Prints a verdict.
fn print_verdict<F: Files>(files: &mut F, text: &[u8]) -> Result<(), CallFault>
    ensures { PrintsOut text.now (seen (F.told files.old) (F.counted files.old))
        (seen (F.told files.new) (F.counted files.new)) result }
{
    match print_lines(files, text) {
        Ok(()) => Ok(()),
        Err(stop) => Err(stop_at_stdout(stop)),
    }
}

/// Writes a certificate under a name, and prints the verdict once that is written whole.
pub(crate) fn leave<F: Files>(files: &mut F, name: &String, texts: &Texts) -> Result<(), CallFault>
    ensures { let name = string_bytes name.now in
        Leaves name texts.now.certificate.items texts.now.printed.items
        (seen (F.told files.old) (F.counted files.old)) (seen (F.told files.new) (F.counted files.new)) result }
{
    match write_certificate(files, name, texts.certificate.as_slice()) {
        Ok(()) => print_verdict(files, texts.printed.as_slice()),
        Err(stop) => Err(stop),
    }
}
