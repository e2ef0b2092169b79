//! A text on a function: what is printed of it, and nothing else is done.
ghost use Rattle.std.specs.Prelude.{◌≡◌, ◌++◌, OnOk, IfOk, codes, decimal, length};
ghost use Rattle.nf_base.specs.Functions.{function_of};
ghost use Rattle.command_words.specs.View.{describe};
ghost use Rattle.call_base.specs.Source.{path_counts, HasFewPaths};
ghost use Rattle.call_base.specs.Outside.{seen};
ghost use Rattle.describe_call.specs.Describing as meant;
ghost use Rattle.describe_call.specs.Described.{PrintsText, DescribesTo};

use crate::explaining::{explanation, verdict};
use call_base::function::{PathCounts, Source};
use call_base::loading::{NoFunction, read_function};
use call_base::say::print_out;
use call_base::status::CallFault;
use command_words::{DescribeCommand, Description};
use itoa::Buffer;
use nf_base::card::Card;
use nf_base::func::Func;
use nf_files::Files;
use std::alloc::{AllocError, Global};

fn push_bytes(text: &mut Vec<u8>, bytes: &[u8]) -> Result<(), AllocError>
    ensures { OnOk result (text.new.items ≡ text.old.items ++ bytes.now) }
{
    text.extend_from_slice(bytes)
}

fn push_number(text: &mut Vec<u8>, number: u32) -> Result<(), AllocError>
    ensures { OnOk result (text.new.items ≡ text.old.items ++ decimal number) }
{
    let mut buffer = Buffer::new();
    text.extend_from_slice(buffer.format(number).as_bytes())
}

// A number, with what it counts in front.
fn push_count(text: &mut Vec<u8>, what: &[u8], number: u32) -> Result<(), AllocError>
    ensures { OnOk result (text.new.items ≡ text.old.items ++ (what.now ++ decimal number)) }
{
    push_bytes(text, what)?;
    push_number(text, number)
}

// The number of a handler for IPv6 behind a slash, where there is one.
fn push_six(text: &mut Vec<u8>, count: Option<u32>) -> Result<(), AllocError>
    ensures { OnOk result (text.new.items ≡ text.old.items ++ meant.six_text count) }
{
    match count {
        None => Ok(()),
        Some(count) => push_count(text, b"/", count),
    }
}

// Each port's numbers behind a space.
fn push_counts(text: &mut Vec<u8>, counts: &[PathCounts]) -> Result<(), AllocError>
    ensures { OnOk result (text.new.items ≡ text.old.items ++ meant.counts_text counts.now) }
{
    for count in counts {
        push_count(text, b" ", count.four)?;
        push_six(text, count.six)?;
    }
    Ok(())
}

// The name of a function, and how many ports, chains and arrays it has.
fn push_objects(text: &mut Vec<u8>, func: &Func) -> Result<(), AllocError>
    ensures { OnOk result (text.new.items ≡ text.old.items ++ meant.objects_text (function_of func.now)) }
{
    push_bytes(text, func.name.as_slice())?;
    push_count(text, b": ports ", func.handlers.len())?;
    push_count(text, b", chains ", func.chains.len())?;
    push_count(text, b", arrays ", func.arrays.len())
}

// The line of a function that is one.
fn check_line(alloc: Global, source: &Source) -> Result<Vec<u8>, AllocError>
    requires counts { source.now.paths.items ≡ path_counts (function_of source.now.func) }
    ensures { IfOk result (λ line. line.items ≡ meant.check_line (function_of source.now.func)) }
{
    let mut line = Vec::from_slice(alloc, b"ok ")?;
    push_objects(&mut line, &source.func)?;
    push_bytes(&mut line, b", paths")?;
    push_counts(&mut line, source.paths.as_slice())?;
    push_bytes(&mut line, b"\n")?;
    Ok(line)
}

// What is printed of a function, for a network card.
fn description(
    alloc: Global,
    what: Description,
    source: &Source,
    card: Card,
) -> Result<Vec<u8>, AllocError>
    requires counts { source.now.paths.items ≡ path_counts (function_of source.now.func) }
    requires few { HasFewPaths (function_of source.now.func) }
    ensures { IfOk result (λ text. meant.IsDescription what (function_of source.now.func) card text.items) }
{
    match what {
        Description::Check => check_line(alloc, source),
        Description::Explain => explanation(alloc, &source.func, card),
        Description::Keys => verdict(alloc, &source.func, card),
    }
}

// Prints a text on a function.
fn print_source<F: Files>(
    alloc: Global,
    files: &mut F,
    what: Description,
    source: &Source,
    card: Card,
) -> Result<(), CallFault>
    requires counts { source.now.paths.items ≡ path_counts (function_of source.now.func) }
    requires few { HasFewPaths (function_of source.now.func) }
    ensures prints { PrintsText what (function_of source.now.func) card
        (seen (F.told files.old) (F.counted files.old)) (seen (F.told files.new) (F.counted files.new)) result }
{
    match description(alloc, what, source, card) {
        Ok(text) => print_out(files, text.as_slice()),
        Err(_) => Err(CallFault::Memory),
    }
}

/// Prints a text on the function under a name.
pub fn print_description<F: Files>(
    alloc: Global,
    files: &mut F,
    command: &DescribeCommand,
) -> Result<(), NoFunction>
    ensures describes { DescribesTo (describe command.now)
        (seen (F.told files.old) (F.counted files.old)) (seen (F.told files.new) (F.counted files.new)) result }
{
    match read_function(alloc, files, &command.function) {
        Ok(found) => match print_source(alloc, files, command.what, &found.source, command.card) {
            Ok(()) => Ok(()),
            Err(stop) => Err(NoFunction::Stop(stop)),
        },
        Err(none) => Err(none),
    }
}
