//! A gate that makes no readers.
ghost use Rattle.std.specs.Prelude.{◌≡◌};

use lock_mode::{Gate, MakeFault, Naming, TableCopy, TableEntry, TablePair, TableReader};
use std::alloc::Global;
use std::sync::Wait;

/// Refuses everybody, and counts it.
#[derive(Drop)]
pub struct Shut {
    refused: u64,
}

impl Shut {
    pub fn new() -> Shut {
        Shut { refused: 0 }
    }

    pub fn refused(&self) -> u64 {
        self.refused
    }
}

impl Gate for Shut {
    ghost refused = { λ g. g.refused };

    fn seat(&self) -> Shut {
        Shut { refused: 0 }
    }

    fn enter<J: Naming>(
        &mut self,
        reader: TableReader<J>,
    ) -> Result<TableEntry<J>, TableReader<J>> {
        self.refused = self.refused.saturating_add(1);
        Err(reader)
    }

    fn make<J: Naming, R: Wait>(
        &mut self,
        _rt: &R,
        _alloc: Global,
        first: TableCopy<J>,
        second: TableCopy<J>,
        _seats: u32,
    ) -> Result<TablePair<J>, MakeFault> {
        drop(first);
        drop(second);
        self.refused = self.refused.saturating_add(1);
        Err(MakeFault::Refused)
    }
}
