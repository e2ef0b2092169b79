//! Laws of runs.
//!
//! Each function's contract is a law; its body does nothing.
ghost use Rattle.stream_run.specs.Journals.{JournalsAreOne};
ghost use Rattle.stream_run.specs.Laws.{LegalRunsGoOn, FilesOnlyGrow, OutputsArePackets, OutputsAreCaptures, JournalsAreLines, HandledAreTurns};

/// From any legal run, further packets of the function's ports can be handled.
pub fn legal_runs_go_on()
    ensures { LegalRunsGoOn }
{}

/// What a run leaves in an output or in the journal is the front of what any longer run leaves there.
pub fn files_only_grow()
    ensures { FilesOnlyGrow }
{}

/// An output is a capture of the packets that are sent out at its port, and the journal a header and a
/// line for each packet, both in the order in which they were handled.
pub fn files_are_of_packets()
    ensures packets { OutputsArePackets }
    ensures outputs { OutputsAreCaptures }
    ensures journal { JournalsAreLines }
{}

/// A legal run handles each packet, with the choices that were made for it.
pub fn handled_are_turns()
    ensures { HandledAreTurns }
{}

/// A journal's bytes determine the mode, the number of workers, the card, and each packet's number, worker,
/// action and choices. They don't go by the format of the outputs.
pub fn journals_are_one()
    ensures { JournalsAreOne }
{}
