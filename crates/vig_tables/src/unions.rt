//! What holds of the union of shares' states.
//!
//! Each function's contract is a law; its body does nothing.
ghost use Rattle.vig_tables.specs.Union.{OwnersOwn, UnionsAreOne, GreatestIsOneOfTheirs, CellsAreTheChangedOnes};

/// Of so many shares the owner of an index is the one whose own it is.
pub fn owners_own()
    ensures { OwnersOwn }
{}

/// Two states that are the union of the same states are one.
pub fn unions_are_one()
    ensures { UnionsAreOne }
{}

/// The greatest stamp of the union is that of a share, and none of a share is above it.
pub fn the_greatest_stamp_is_a_shares()
    ensures { GreatestIsOneOfTheirs }
{}

/// A cell of the union is the one copy that was changed; where none was, it is as it opened.
pub fn cells_are_the_changed_ones()
    ensures { CellsAreTheChangedOnes }
{}
