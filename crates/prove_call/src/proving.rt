//! The keys of the function under a name, with their certificate.
ghost use Rattle.std.specs.Prelude.{◌≡◌, string_bytes};
ghost use Rattle.nf_base.specs.Functions.{function_of};
ghost use Rattle.command_words.specs.View as view;
ghost use Rattle.declared_laws.specs.Declares.{DeclaresObjects};
ghost use Rattle.call_base.specs.Source.{HasFewPaths};
ghost use Rattle.call_base.specs.Outside.{seen};
ghost use Rattle.prove_call.specs.Proving.{ProvesUnder, ProvesTo};

use crate::leaving::leave;
use crate::texts::texts_of;
use call_base::loading::{NoFunction, read_function};
use call_base::status::CallFault;
use command_words::ProveCommand;
use nf_base::func::Func;
use nf_files::Files;
use std::alloc::Global;

// Writes the certificate of a function's keys, and prints the keys. Both texts are made before the file
// is created: where memory for them runs out no file is touched.
fn prove_under<F: Files>(
    alloc: Global,
    files: &mut F,
    func: &Func,
    command: &ProveCommand,
) -> Result<(), CallFault>
    requires few { HasFewPaths (function_of func.now) }
    requires declares { DeclaresObjects (function_of func.now) }
    ensures { ProvesUnder (function_of func.now) command.now.card (string_bytes command.now.proof)
        (seen (F.told files.old) (F.counted files.old))
        (seen (F.told files.new) (F.counted files.new)) result }
{
    match texts_of(alloc, func, command.card) {
        Ok(texts) => leave(files, &command.proof, &texts),
        Err(_) => Err(CallFault::Memory),
    }
}

/// Writes a certificate of the keys of the function under a name, or of there being none, and then
/// prints the verdict, as `keys` does.
///
/// The function's text is read first. The certificate's file is created where that is a network
/// function, and the verdict is printed once the certificate is written whole.
pub fn prove_keys<F: Files>(
    alloc: Global,
    files: &mut F,
    command: &ProveCommand,
) -> Result<(), NoFunction>
    ensures { ProvesTo (view.prove command.now) (seen (F.told files.old) (F.counted files.old))
        (seen (F.told files.new) (F.counted files.new)) result }
{
    match read_function(alloc, files, &command.function) {
        Ok(found) => match prove_under(alloc, files, &found.source.func, command) {
            Ok(()) => Ok(()),
            Err(stop) => Err(NoFunction::Stop(stop)),
        },
        Err(none) => Err(none),
    }
}
