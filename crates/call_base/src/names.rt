//! The names of the files that a run leaves.
ghost use Rattle.std.specs.Prelude.{◌≡◌, ◌++◌, OnOk, IfOk, string_bytes, decimal};
ghost use Rattle.call_base.specs.Names as meant;

use capture_format::CaptureFormat;
use itoa::Buffer;
use std::alloc::{AllocError, Global};

/// Puts a decimal behind a text.
pub fn push_decimal(text: &mut String, number: u32) -> Result<(), AllocError>
    ensures { OnOk result (string_bytes text.new ≡ string_bytes text.old ++ decimal number) }
{
    let mut buffer = Buffer::new();
    text.push_str(buffer.format(number))
}

// How the names of output captures end.
fn output_end(format: CaptureFormat) -> &'static str
    ensures { result.now ≡ meant.output_end format }
{
    match format {
        CaptureFormat::Pcap => ".pcap",
        CaptureFormat::Pcapng => ".pcapng",
    }
}

/// The name of the output capture of a port.
pub fn output_name(
    alloc: Global,
    format: CaptureFormat,
    out: &String,
    port: u32,
) -> Result<String, AllocError>
    ensures { IfOk result (λ name. string_bytes name ≡ meant.output_name format (string_bytes out.now) port) }
{
    let mut name = String::from_str(alloc, out)?;
    name.push_str(".")?;
    push_decimal(&mut name, port)?;
    name.push_str(output_end(format))?;
    Ok(name)
}

// The name of the journal.
fn journal_name(alloc: Global, out: &String) -> Result<String, AllocError>
    ensures { IfOk result (λ name. string_bytes name ≡ meant.journal_name (string_bytes out.now)) }
{
    let mut name = String::from_str(alloc, out)?;
    name.push_str(".journal")?;
    Ok(name)
}

// The name of the text of the last state.
fn state_name(alloc: Global, out: &String) -> Result<String, AllocError>
    ensures { IfOk result (λ name. string_bytes name ≡ meant.state_name (string_bytes out.now)) }
{
    let mut name = String::from_str(alloc, out)?;
    name.push_str(".state")?;
    Ok(name)
}

/// The name of the file that a run of so many ports creates behind so many others: the outputs, of this
/// format, in the order of their ports, the journal, and the text of the last state.
#[tactic(auto, unfolding(crate::specs::Names::name_at))]
pub fn name_at(
    alloc: Global,
    format: CaptureFormat,
    out: &String,
    ports: u32,
    place: u32,
) -> Result<String, AllocError>
    ensures { IfOk result (λ name. string_bytes name ≡ meant.name_at format (string_bytes out.now) ports place) }
{
    if place < ports {
        output_name(alloc, format, out, place)
    } else if place == ports {
        journal_name(alloc, out)
    } else {
        state_name(alloc, out)
    }
}
