//! Laws of the orders of packets. Each function's contract is a law; its body does nothing.
ghost use Rattle.locked_run.specs.Laws.{EachStandsOnce, OthersGoBetween, NoneGoesBefore};

/// Whichever order is kept, the packets are the same, each once.
pub fn each_stands_once()
    ensures { EachStandsOnce }
{}

/// A packet of another port may come first, and one of the same port may not.
pub fn ports_keep_their_order()
    ensures between { OthersGoBetween }
    ensures never { NoneGoesBefore }
{}
