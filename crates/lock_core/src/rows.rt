//! Worked rows: two seats at a learning bridge, and a short order, as the definitions compute them.
ghost use Rattle.lock_core.specs.Bridge.{BothOrdersAreRight, ASeatSeesItsOwn, OpeningTablesAreWritten, OnlyAloneIsHistory, ALookIsAtItsPrefix, ASeatHasSeenItsLast, ALookGoesBehindOthers};

/// Of two packets for each other's address either may come first, and is flooded.
pub fn both_orders_are_right()
    ensures { BothOrdersAreRight }
{}

/// A packet that a seat handled alone it may look at again, and on the opening tables it may not.
pub fn a_seat_sees_its_own()
    ensures looks { ASeatSeesItsOwn }
    ensures writes { OpeningTablesAreWritten }
{}

/// The history is what was handled alone, with each seat's numbers.
pub fn only_alone_is_history()
    ensures { OnlyAloneIsHistory }
{}

/// A look stands behind as many entries as it saw.
pub fn a_look_is_at_its_prefix()
    ensures calls { ALookIsAtItsPrefix }
    ensures seen { ASeatHasSeenItsLast }
    ensures put { ALookGoesBehindOthers }
{}
