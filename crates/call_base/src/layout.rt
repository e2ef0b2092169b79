//! Which file of a call a number is.
ghost use Rattle.std.specs.Prelude.{◌≡◌};
ghost use Rattle.call_base.specs.Layout as meant;

use crate::status::{CallFault, Halt, RunFile};
use stream_run::RunFault;

/// What a call opens behind its captures.
#[derive(Clone, Copy, Debug, PartialEq, Eq)]
pub enum FileOrder {
    /// The outputs of a run are created in port order, then the journal, and the state last.
    Created,
    /// The journal of a run is read, and then its outputs in port order.
    Read,
}

impl FileOrder {
    // The file of a place, of so many ports.
    fn file(self, ports: u32, place: u32) -> RunFile
        ensures { result ≡ meant.file_behind self ports place }
    {
        match self {
            FileOrder::Created => created_file(ports, place),
            FileOrder::Read => read_file(place),
        }
    }
}

// What is created there.
fn created_file(ports: u32, place: u32) -> RunFile
    ensures { result ≡ meant.file_behind FileOrder.Created ports place }
{
    if place < ports {
        RunFile::Output(place)
    } else if place == ports {
        RunFile::OutJournal
    } else {
        RunFile::State
    }
}

// What is read there.
fn read_file(place: u32) -> RunFile
    ensures { result ≡ meant.file_behind FileOrder.Read 0 place }
{
    if place == 0 {
        RunFile::Journal
    } else {
        RunFile::Output(place.saturating_sub(1))
    }
}

/// The files of a call by their numbers: that of its text, which is opened first, how many captures
/// there are and how many ports, and what stands behind the captures.
#[derive(Clone, Copy, Debug, PartialEq, Eq)]
pub struct Layout {
    pub first: u32,
    pub captures: u32,
    pub ports: u32,
    pub behind: FileOrder,
}

impl Layout {
    // The file that was opened behind so many others, of which the first is the text.
    fn opened_file(self, place: u32) -> RunFile
        ensures { result ≡ meant.opened_file self.behind self.captures self.ports place }
    {
        if place <= self.captures {
            RunFile::Capture(place.saturating_sub(1))
        } else {
            let behind = place.saturating_sub(self.captures).saturating_sub(1);
            self.behind.file(self.ports, behind)
        }
    }

    /// The file of a number.
    pub fn file(self, number: u32) -> RunFile
        ensures { result ≡ (meant.numbering_of self).file_of number }
    {
        if number == self.first {
            RunFile::Nf
        } else if number == 0 {
            RunFile::Stdout
        } else if number == 1 {
            RunFile::Stderr
        } else {
            self.opened_file(number.saturating_sub(self.first))
        }
    }

    /// What a stop by the file of a number is for this call.
    pub fn halt(self, stop: RunFault) -> Halt
        ensures { result ≡ Halt.Stop (meant.stop_named (meant.numbering_of self) stop) }
    {
        match stop {
            RunFault::File(number) => Halt::Stop(CallFault::File(self.file(number))),
            RunFault::Memory => Halt::Stop(CallFault::Memory),
        }
    }
}
