//! Worked rows: packs and workers of a few packets.
ghost use Rattle.ring_line.specs.Rows.{PacksAreTold, LinesAreToldOf};

/// What stands in two packs, and which of two may tell that a share ended.
pub fn packs_are_told()
    ensures { PacksAreTold }
{}

/// The events of three packets at two queues, and what was collected of each.
pub fn lines_are_told()
    ensures { LinesAreToldOf }
{}
