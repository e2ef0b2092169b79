//! What a worker's handling is, in the words of the machine of shards. The function's contract is
//! the law; its body does nothing.
ghost use Rattle.ring_line.specs.Handled.{HandlingIsWork};
ghost use Rattle.ring_line.specs.Plays.{WorkersAreAPlay, HaltsAreStops};

/// A worker that handled packets one after another has done what the machine's worker does when it
/// works as often: it has the same answers and the same state, or it has stopped at the same packet.
pub fn handling_is_work()
    ensures { HandlingIsWork }
{}

/// What all workers came to is a play of the machine: the packets were dispatched in the order
/// sent,
/// each worker worked those of its queue, in order, each once, and each answer was collected as its
/// worker gave it, in the order sent. Where a share's end stands in front, the machine is at that
/// stop.
pub fn workers_are_a_play()
    ensures play { WorkersAreAPlay }
    ensures stop { HaltsAreStops }
{}
