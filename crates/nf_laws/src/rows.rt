//! Worked rows: what checked functions do with a few packets, as the definitions compute it.
ghost use Rattle.nf_laws.specs.Firewall.{AFlowIsLetBack, AStrangerIsDropped, OnlyOneFlowMeets, APacketIsQuiet, APacketTakesAPath};
ghost use Rattle.nf_laws.specs.Policer.{AnEntryOutlivesItsLastTick, OnlyVacantIndicesAreChoices, TheSixthHostIsDropped, StampsDontFall, AColumnAddsUp};
ghost use Rattle.nf_laws.specs.Nat.{OnlyTheAnswerIsLetBack};
ghost use Rattle.nf_laws.specs.Bridge.{ABridgeLearns};
ghost use Rattle.nf_laws.specs.Tickets.{ATakenKeyComesBeforeAFullChain, AFreedIndexIsVacant, QueueOneStops, TwoQueuesAnswerAlike};
ghost use Rattle.nf_laws.specs.Sums.{AnArrayCounts, ADivisionByNothingIsNothing};

/// A firewall lets the answer to a packet in.
pub fn a_flow_is_let_back()
    ensures { AFlowIsLetBack }
{}

/// A firewall drops what nothing went out to.
pub fn a_stranger_is_dropped()
    ensures { AStrangerIsDropped }
{}

/// At a firewall the packets of one flow meet, and those of two flows don't.
pub fn only_one_flow_meets()
    ensures { OnlyOneFlowMeets }
{}

/// A packet that uses an entry again at once changes nothing.
pub fn a_packet_is_quiet()
    ensures { APacketIsQuiet }
{}

/// A firewall's port 0 has four paths, and a packet takes one of them.
pub fn a_packet_takes_a_path()
    ensures { APacketTakesAPath }
{}

/// An entry stands at the last nanosecond of its lifetime, and not at the next one.
pub fn an_entry_outlives_its_last_tick()
    ensures { AnEntryOutlivesItsLastTick }
{}

/// No step takes an index that is live or past the end, or one choice too few or too many.
pub fn only_vacant_indices_are_choices()
    ensures { OnlyVacantIndicesAreChoices }
{}

/// A policer for five hosts drops the packets of the sixth.
pub fn the_sixth_host_is_dropped()
    ensures { TheSixthHostIsDropped }
{}

/// A packet that comes with an earlier time gets the greatest stamp so far.
pub fn stamps_dont_fall()
    ensures { StampsDontFall }
{}

/// A free column adds up, packet by packet.
pub fn a_column_adds_up()
    ensures { AColumnAddsUp }
{}

/// A NAT lets the answer in, translated back, and nobody else.
pub fn only_the_answer_is_let_back()
    ensures { OnlyTheAnswerIsLetBack }
{}

/// A bridge floods to an address until it has seen it, and from its lifetime's end.
pub fn a_bridge_learns()
    ensures { ABridgeLearns }
{}

/// A key that is taken is told before a chain that is full.
pub fn a_taken_key_comes_before_a_full_chain()
    ensures { ATakenKeyComesBeforeAFullChain }
{}

/// A freed index is vacant, its variable reads 0, and the entry made there next is another one.
pub fn a_freed_index_is_vacant()
    ensures { AFreedIndexIsVacant }
{}

/// Queue 1 of 2 stops once its indices 1 and 3 have entries.
pub fn queue_one_stops()
    ensures { QueueOneStops }
{}

/// Two queues answer their packets as the undivided function does.
pub fn two_queues_answer_alike()
    ensures { TwoQueuesAnswerAlike }
{}

/// An array counts in 8 bits, and not past its end.
pub fn an_array_counts()
    ensures { AnArrayCounts }
{}

/// A division by 0 gives 0, and a difference stops at 0.
pub fn a_division_by_nothing_is_nothing()
    ensures { ADivisionByNothingIsNothing }
{}
