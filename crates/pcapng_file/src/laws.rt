//! Laws of pcapng captures. Each function's contract is a law; its body does nothing.
ghost use Rattle.pcapng_file.specs.Laws.{BlocksMoveOn, WrittenBlocksAreRead, WrittenCapturesAreRead};
ghost use Rattle.pcapng_file.specs.Limits.{LimitRows};
ghost use Rattle.pcapng_file.specs.Rows.{WrittenRows, HeaderRows, SectionRows, OtherRows, TimeRows};

/// Captures worked out by hand.
pub fn rows_hold()
    ensures written { WrittenRows }
    ensures headers { HeaderRows }
    ensures sections { SectionRows }
    ensures others { OtherRows }
    ensures times { TimeRows }
{}

/// Blocks and captures at the limits.
pub fn limits_hold()
    ensures { LimitRows }
{}

/// A whole block has at least 12 bytes, which are all there, and ends before byte 2^64.
pub fn blocks_move_on()
    ensures { BlocksMoveOn }
{}

/// What was written is read again, whatever follows it.
pub fn what_is_written_is_read()
    ensures block { WrittenBlocksAreRead }
    ensures capture { WrittenCapturesAreRead }
{}
