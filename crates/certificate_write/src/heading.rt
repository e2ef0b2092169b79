//! The first line.
ghost use Rattle.std.specs.Prelude.{◌≡◌, ◌++◌, OnOk, codes};
ghost use Rattle.certificate_write.specs.Texts.{table_word, size_word, kind_word, heading_text};

use crate::push::push_bytes;
use certificate_text::{Heading, Kind};
use nf_base::card::{KeySize, TableSize};
use std::alloc::AllocError;

fn push_table(out: &mut Vec<u8>, table: TableSize) -> Result<(), AllocError>
    ensures { OnOk result (out.new.items ≡ out.old.items ++ table_word table) }
{
    match table {
        TableSize::Entries128 => push_bytes(out, b"128"),
        TableSize::Entries512 => push_bytes(out, b"512"),
    }
}

fn push_size(out: &mut Vec<u8>, size: KeySize) -> Result<(), AllocError>
    ensures { OnOk result (out.new.items ≡ out.old.items ++ size_word size) }
{
    match size {
        KeySize::Bytes40 => push_bytes(out, b"40"),
        KeySize::Bytes52 => push_bytes(out, b"52"),
    }
}

fn push_kind(out: &mut Vec<u8>, kind: Kind) -> Result<(), AllocError>
    ensures { OnOk result (out.new.items ≡ out.old.items ++ kind_word kind) }
{
    match kind {
        Kind::Sharded => push_bytes(out, b"sharded"),
        Kind::Locked => push_bytes(out, b"locked"),
    }
}

/// Puts the first line of a certificate behind what stands there, with its LF.
pub fn push_heading(out: &mut Vec<u8>, heading: Heading) -> Result<(), AllocError>
    ensures { OnOk result (out.new.items ≡ out.old.items ++ (heading_text heading ++ codes "\n")) }
{
    push_bytes(out, b"maestro proof 1 ")?;
    push_table(out, heading.card.table)?;
    push_bytes(out, b" ")?;
    push_size(out, heading.card.key)?;
    push_bytes(out, b" ")?;
    push_kind(out, heading.kind)?;
    push_bytes(out, b"\n")
}
