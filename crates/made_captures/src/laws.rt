//! Laws of made captures.
//!
//! Each function's contract is a law.
ghost use Rattle.made_captures.specs.Laws.{CapturesAreWhole, CapturesAreTraffic};

use gen_traffic::laws::each_is_handled;

/// Each made capture is whole, and has the packets of the traffic that come in at its port.
pub fn captures_are_whole()
    ensures { CapturesAreWhole }
{}

/// The packets of made captures in capture order are the traffic that they are made of.
pub fn captures_are_traffic()
    ensures { CapturesAreTraffic }
{
    each_is_handled();
}
