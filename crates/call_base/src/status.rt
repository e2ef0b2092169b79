//! How the program ends.
ghost use Rattle.std.specs.Prelude.{◌≡◌};
ghost use Rattle.call_base.specs.Statuses.{number_of_status, end_status, refusal_status, stop_status};

use crate::object_name::ObjectName;
use nf_base::packet::PacketId;
use nf_syntax::SyntaxKind;
use nf_types::TypingKind;
use shard_rules::Rule;

/// A file of a call.
#[derive(Clone, Copy, Debug, PartialEq, Eq)]
pub enum RunFile {
    /// The network function's text.
    Nf,
    /// The capture of a port.
    Capture(u32),
    /// A journal that is read.
    Journal,
    /// The output capture of a port.
    Output(u32),
    /// A journal that is written.
    OutJournal,
    /// The text of the last state.
    State,
    /// A certificate of keys.
    Proof,
    Stdout,
    Stderr,
}

/// What is wrong with a network function's text.
#[derive(Clone, Copy, Debug, PartialEq, Eq)]
pub enum Fault {
    /// It breaks the grammar.
    Syntax(SyntaxKind),
    /// It breaks a type rule.
    Typing(TypingKind),
    /// A handler has more than 4,096 feasible paths.
    TooManyPaths,
}

/// The first fault of a text. Lines and columns count from 1.
#[derive(Clone, Copy, Debug, PartialEq, Eq)]
pub struct TextFault {
    pub kind: Fault,
    pub line: u32,
    pub column: u32,
}

/// A packet at which its queue's share of a chain has no index left.
#[derive(Clone, Copy, Debug, PartialEq, Eq)]
pub struct FullShare {
    /// The name of the chain.
    pub chain: ObjectName,
    pub queue: u32,
    pub packet: PacketId,
}

/// Why a function has no keys.
#[derive(Clone, Copy, Debug, PartialEq, Eq)]
pub enum NoKeys {
    /// The first written object that has sites and keeps no label, with its rule.
    Object { name: ObjectName, rule: Rule },
    /// Each object keeps a label: the hash itself can't serve all of them.
    Hash,
}

/// Where a journal, or the outputs beside it, first differ from those of every run.
#[derive(Clone, Copy, Debug, PartialEq, Eq)]
pub enum Difference {
    /// A line of the journal. Lines count from 1.
    Line(u64),
    /// All lines are right, and this is the least port whose output differs.
    Output(u32),
}

/// How a run ends that nothing stops.
#[derive(Clone, Copy, Debug, PartialEq, Eq)]
pub enum End {
    /// All packets were handled.
    Whole,
    /// All packets were handled, up to where captures are torn; this is the least port of a torn one, and the
    /// offset of the torn record in its capture, in bytes.
    Torn { port: u32, offset: u64 },
    /// There are more packets than this; as many were handled.
    TooMany { most: u32 },
    /// The packets before one were handled, at which its queue's share of a chain has no index left.
    ShareFull(FullShare),
}

/// Why nothing was begun.
#[derive(Clone, Copy, Debug, PartialEq, Eq)]
pub enum Refusal {
    /// The captures are not as many as the function's ports.
    Usage,
    /// The text is no network function.
    Text(TextFault),
    /// Keys are asked for, and there are none.
    NoKeys(NoKeys),
    /// This is the least port whose file is no capture.
    NotCapture { port: u32 },
}

/// Why a call could not go on.
#[derive(Clone, Copy, Debug, PartialEq, Eq)]
pub enum CallFault {
    /// A call on a file failed.
    File(RunFile),
    Memory,
}

/// Why a run has no end.
#[derive(Clone, Copy, Debug, PartialEq, Eq)]
pub enum Halt {
    Refusal(Refusal),
    Stop(CallFault),
}

/// How a call of the program ended.
#[derive(Clone, Copy, Debug, PartialEq, Eq)]
pub enum Status {
    Done,
    /// The words are no command, or the captures are not as many as the function's ports.
    Usage,
    /// The text is no network function; this is its first fault. Lines and columns count from 1.
    Refused { kind: Fault, line: u32, column: u32 },
    /// A call on a file failed; this was the first.
    FileFault(RunFile),
    /// This is the least port whose file is no capture.
    NotCapture { port: u32 },
    /// All packets were handled, up to where captures are torn; this is the least port of a torn one, and the
    /// offset of the torn record in its capture, in bytes.
    Torn { port: u32, offset: u64 },
    /// The packets before one were handled, at which its queue's share of a chain has no index left.
    ShareFull(FullShare),
    /// There are more packets than this; as many were handled.
    TooMany { most: u32 },
    /// Keys are asked for, and there are none.
    NoKeys(NoKeys),
    Memory,
    /// A journal, or the outputs beside it, are those of no run.
    Differs(Difference),
    /// A certificate of keys shows nothing; this is its first wrong line. Lines count from 1.
    ProofFails { line: u64 },
}

impl Status {
    /// The number that the process ends with.
    pub fn number(self) -> u8
        ensures { result ≡ number_of_status self }
    {
        match self {
            Status::Done => 0,
            Status::Usage => 1,
            Status::Refused { .. } => 2,
            Status::FileFault(_) => 3,
            Status::NotCapture { .. } => 4,
            Status::Torn { .. } => 5,
            Status::ShareFull(_) => 6,
            Status::TooMany { .. } => 7,
            Status::NoKeys(_) => 8,
            Status::Memory => 9,
            Status::Differs(_) => 10,
            Status::ProofFails { .. } => 11,
        }
    }
}

impl End {
    /// The status of a run that ends so.
    pub fn status(self) -> Status
        ensures { result ≡ end_status self }
    {
        match self {
            End::Whole => Status::Done,
            End::Torn { port, offset } => Status::Torn { port, offset },
            End::TooMany { most } => Status::TooMany { most },
            End::ShareFull(full) => Status::ShareFull(full),
        }
    }
}

impl Refusal {
    /// The status of a call that is refused so.
    pub fn status(self) -> Status
        ensures { result ≡ refusal_status self }
    {
        match self {
            Refusal::Usage => Status::Usage,
            Refusal::Text(TextFault { kind, line, column }) => {
                Status::Refused { kind, line, column }
            }
            Refusal::NoKeys(why) => Status::NoKeys(why),
            Refusal::NotCapture { port } => Status::NotCapture { port },
        }
    }
}

impl CallFault {
    /// The status of a call that is stopped so.
    pub fn status(self) -> Status
        ensures { result ≡ stop_status self }
    {
        match self {
            CallFault::File(file) => Status::FileFault(file),
            CallFault::Memory => Status::Memory,
        }
    }
}
