//! Laws of captures as they are written. Each function's contract is a law; its body does nothing.
ghost use Rattle.capture_format.specs.Laws.{HeadsAreSpelled, HeadsAreLong, APacketInPcapng, PacketsHoldTheirFrames};

/// What a capture in pcapng begins with, and a packet of 5 bytes in it, byte by byte.
pub fn blocks_are_spelled()
    ensures head { HeadsAreSpelled }
    ensures long { HeadsAreLong }
    ensures packet { APacketInPcapng }
{}

/// A packet's frame stands in it as it is, behind a front that has one length in each format.
pub fn packets_hold_their_frames()
    ensures { PacketsHoldTheirFrames }
{}
