//! Laws of captures. Each function's contract is a law; its body does nothing.
ghost use Rattle.pcap_file.specs.Laws.{CapturesAreSpelled, SpelledIsRead, WrittenIsRead};

/// What a capture comes to is spelled by its bytes, and what is spelled by them is what it comes to.
pub fn captures_are_spelled()
    ensures spelled { CapturesAreSpelled }
    ensures only { SpelledIsRead }
{}

/// What was written is read again, whatever follows it.
pub fn what_is_written_is_read()
    ensures { WrittenIsRead }
{}
