//! What the files of a run begin with.
ghost use Rattle.std.specs.Prelude.{◌≡◌, ◌^◌, ◌≤◌, ℕ, Some, length, slice_get, IfOk};
ghost use Rattle.run_history.specs.Headings.{IsHeading};
ghost use Rattle.stream_run.specs.Texts.{head};
ghost use Rattle.stream_run.specs.Writing.{Holding, files_of};

use crate::sink::Sink;
use capture_format::{CaptureFormat, push_head};
use nf_base::card::Card;
use nf_base::seq::Seq;
use nf_base::workers::Workers;
use run_history::header::Header;
use run_history::line::{JournalLine, Mode, push_line};
use std::alloc::{AllocError, Global};

// What a file begins with: an output with the header of a capture, the journal with a line.
fn head(
    alloc: Global,
    mode: Mode,
    workers: Workers,
    card: Card,
    format: CaptureFormat,
    ports: u32,
    file: u32,
) -> Result<Vec<u8>, AllocError>
    requires { IsHeading (record { mode = mode; workers = workers; card = card }) }
    ensures { IfOk result (λ bytes. bytes.items ≡ head mode workers card format ports file) }
{
    let mut bytes = Vec::new(alloc);
    if file < ports {
        push_head(&mut bytes, format)?;
    } else {
        push_line(
            &mut bytes,
            &JournalLine::Header(Header::new(mode, workers, card)),
        )?;
    }
    Ok(bytes)
}

/// The files of a run, each with what it begins with still to be given to it: the outputs with the
/// header of a capture of this format, in the order of their ports, and the journal with its first line
/// behind them.
pub fn begin_sinks(
    alloc: Global,
    mode: Mode,
    workers: Workers,
    card: Card,
    format: CaptureFormat,
    ports: u32,
    targets: &[u32],
) -> Result<Seq<Sink>, AllocError>
    requires heading { IsHeading (record { mode = mode; workers = workers; card = card }) }
    requires few { length targets.now ≤ 2 ^ 32 }
    ensures files { IfOk result (λ sinks. files_of sinks ≡ targets.now) }
    ensures heads { IfOk result (λ sinks. (k : ℕ) → (s : Holding) →
        slice_get sinks k ≡ Some s →
        (s.format ≡ format) × (s.held ≡ head mode workers card format ports k)) }
{
    let mut sinks = Seq::new(alloc);
    for (k, file) in targets.iter().enumerate() {
        let bytes = head(alloc, mode, workers, card, format, ports, k as u32)?;
        sinks.push(Sink::new(*file, format, bytes))?;
    }
    Ok(sinks)
}
