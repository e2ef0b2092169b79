//! Laws of right lines.
//!
//! Each function's contract is a law; its body does nothing.
ghost use Rattle.journal_check.specs.Laws.{LinesTellSteps, QueuesAreShares, FirewallLines};

/// A line and its packet determine the step.
pub fn lines_tell_steps()
    ensures { LinesTellSteps }
{}

/// What a line of a queue's packet has to keep to is the rule of the queue's share.
pub fn queues_are_shares()
    ensures { QueuesAreShares }
{}

/// A firewall's two lines, worked out by hand.
pub fn firewall_lines_are_right()
    ensures { FirewallLines }
{}
