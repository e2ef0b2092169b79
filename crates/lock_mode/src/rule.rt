//! The rule of the published tables: never fewer entries than a reader knows of.
use crate::history_counter::Naming;
use crate::table_copy::{Op, TableCopy};
use crossbeam_utils::rule::{Outcome, Protocol};
use left_right::reader::{Reader, Reading};
use left_right::writer::Writer;

pub struct Rising;

impl<J: Naming> Protocol<TableCopy<J>, u64> for Rising {
    ghost use Rattle.lock_mode.specs.TableCopies.{Rises};

    ghost holds = { Rises };

    ghost first = { 0 };
}

/// A step to tables of a history that is no shorter.
pub struct Seeing;

impl<J: Naming> Outcome<TableCopy<J>, u64> for Seeing {
    ghost use Rattle.lock_mode.specs.TableCopies.{Sees};

    ghost then = { Sees };
}

/// A seat's reader of the published tables.
pub type TableReader<J> = Reader<TableCopy<J>, u64, Rising>;

/// What a reader is in.
pub type TableEntry<J> = Reading<TableCopy<J>, u64, Rising>;

/// The writer of the published tables.
pub type TableWriter<J> = Writer<TableCopy<J>, Op<J>, u64, Rising>;
