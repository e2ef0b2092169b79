//! Laws of what captures hold. Each function's contract is a law; its body does nothing.
ghost use Rattle.packet_feed.specs.Laws.{RecordsAreHeld, BlocksAreHeld, OthersAreSkipped};

/// A capture in the libpcap file format holds its records, at their times.
pub fn records_are_held()
    ensures { RecordsAreHeld }
{}

/// One whose first four bytes are 0a 0d 0d 0a is read as pcapng, and holds the packets of its blocks.
pub fn blocks_are_held()
    ensures { BlocksAreHeld }
{}

/// A packet of another link type than Ethernet has no fields.
pub fn others_are_skipped()
    ensures { OthersAreSkipped }
{}
