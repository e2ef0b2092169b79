//! The path that a packet takes.
ghost use Rattle.nf_laws.specs.Paths.{CoursesTakePaths, PacketsTakePaths, OutcomesAreAlongPaths, TestsGoByThePacket};

/// What a packet takes is one of its text's paths, at every state and with all choices.
pub fn packets_take_paths()
    ensures courses { CoursesTakePaths }
    ensures packets { PacketsTakePaths }
{}

/// The outcomes of a packet with legal choices are those along its path.
pub fn outcomes_are_along_paths()
    ensures { OutcomesAreAlongPaths }
{}

/// On its path a test of the packet alone goes as the packet's fields say.
pub fn tests_go_by_the_packet()
    ensures { TestsGoByThePacket }
{}
