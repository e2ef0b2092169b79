//! What is printed.
ghost use Rattle.std.specs.Prelude.{◌≡◌, ◌+◌, ◌≤◌, ◌++◌, decimal, codes, length};
ghost use Rattle.run_history.specs.Line.{mode_word};
ghost use Rattle.call_base.specs.Texts as meant;

use crate::line::{Line, push_bytes, push_number};
use crate::status::{Difference, Fault, FullShare, NoKeys, RunFile, Status};
use nf_base::packet::PacketId;
use nf_base::workers::Workers;
use nf_syntax::SyntaxKind;
use nf_types::TypingKind;
use run_history::line::Mode;

fn push_file(line: &mut Line, file: RunFile)
    requires { length line.old.items ≤ 80 }
    ensures bytes { line.new.items ≡ line.old.items ++ meant.file_text file }
    ensures len { length line.new.items ≤ length line.old.items + 60 }
{
    match file {
        RunFile::Nf => push_bytes(line, b"nf"),
        RunFile::Capture(port) => {
            push_bytes(line, b"capture ");
            push_number(line, u64::from(port));
        }
        RunFile::Journal => push_bytes(line, b"journal"),
        RunFile::Output(port) => {
            push_bytes(line, b"output ");
            push_number(line, u64::from(port));
        }
        RunFile::OutJournal => push_bytes(line, b"out journal"),
        RunFile::State => push_bytes(line, b"state"),
        RunFile::Proof => push_bytes(line, b"proof"),
        RunFile::Stdout => push_bytes(line, b"stdout"),
        RunFile::Stderr => push_bytes(line, b"stderr"),
    }
}

#[tactic(auto, unfolding(crate::specs::Texts::fault_title))]
fn push_fault_title(line: &mut Line)
    requires { length line.old.items ≤ 20 }
    ensures bytes { line.new.items ≡ line.old.items ++ meant.fault_title }
    ensures len { length line.new.items ≡ length line.old.items + 12 }
{
    push_bytes(line, b"file fault: ");
}

fn push_fault(line: &mut Line, file: RunFile)
    requires { length line.old.items ≤ 20 }
    ensures bytes { line.new.items ≡ line.old.items ++ (meant.fault_title ++ meant.file_text file) }
    ensures len { length line.new.items ≤ length line.old.items + 140 }
{
    push_fault_title(line);
    push_file(line, file);
}

fn push_place(line: &mut Line, row: u32, column: u32)
    requires { length line.old.items ≤ 50 }
    ensures bytes { line.new.items ≡ line.old.items ++ (decimal row ++ codes ":" ++ decimal column) }
    ensures len { length line.new.items ≤ length line.old.items + 81 }
{
    push_number(line, u64::from(row));
    push_bytes(line, b":");
    push_number(line, u64::from(column));
}

fn kind_text(kind: Fault) -> &'static str
    ensures text { result.now ≡ meant.kind_text kind }
    ensures len { length result.now ≤ 3 }
{
    match kind {
        Fault::Syntax(SyntaxKind::Byte) => "S1",
        Fault::Syntax(SyntaxKind::Number) => "S2",
        Fault::Syntax(SyntaxKind::Token) => "S3",
        Fault::Syntax(SyntaxKind::End) => "S4",
        Fault::Syntax(SyntaxKind::Limit) => "S5",
        Fault::Typing(TypingKind::Unknown) => "T01",
        Fault::Typing(TypingKind::Twice) => "T02",
        Fault::Typing(TypingKind::Amount) => "T03",
        Fault::Typing(TypingKind::FreeColumn) => "T04",
        Fault::Typing(TypingKind::ReadOnly) => "T05",
        Fault::Typing(TypingKind::NotInScope) => "T06",
        Fault::Typing(TypingKind::Limit) => "T07",
        Fault::Typing(TypingKind::NoHandler) => "T08",
        Fault::Typing(TypingKind::OtherFamily) => "T09",
        Fault::TooManyPaths => "P1",
    }
}

fn push_refusal(line: &mut Line, kind: Fault, row: u32, column: u32)
    requires { length line.old.items ≤ 20 }
    ensures bytes { line.new.items ≡ line.old.items ++
        (codes "refused " ++ meant.kind_text kind ++ codes " at " ++ decimal row ++ codes ":" ++ decimal column) }
    ensures len { length line.new.items ≤ length line.old.items + 140 }
{
    push_bytes(line, b"refused ");
    push_bytes(line, kind_text(kind).as_bytes());
    push_bytes(line, b" at ");
    push_place(line, row, column);
}

fn push_capture(line: &mut Line, port: u32)
    requires { length line.old.items ≤ 20 }
    ensures bytes { line.new.items ≡ line.old.items ++ (codes "capture " ++ decimal port) }
    ensures len { length line.new.items ≤ length line.old.items + 48 }
{
    push_bytes(line, b"capture ");
    push_number(line, u64::from(port));
}

fn push_no_header(line: &mut Line, port: u32)
    requires { length line.old.items ≤ 20 }
    ensures bytes { line.new.items ≡ line.old.items ++
        (codes "capture " ++ decimal port ++ codes " has no pcap header") }
    ensures len { length line.new.items ≤ length line.old.items + 140 }
{
    push_capture(line, port);
    push_bytes(line, b" has no pcap header");
}

fn push_tear(line: &mut Line, port: u32, offset: u64)
    requires { length line.old.items ≤ 20 }
    ensures bytes { line.new.items ≡ line.old.items ++
        (codes "capture " ++ decimal port ++ codes " is torn at byte " ++ decimal offset) }
    ensures len { length line.new.items ≤ length line.old.items + 140 }
{
    push_capture(line, port);
    push_bytes(line, b" is torn at byte ");
    push_number(line, offset);
}

fn push_too_many(line: &mut Line, most: u32)
    requires { length line.old.items ≤ 20 }
    ensures bytes { line.new.items ≡ line.old.items ++
        (codes "more than " ++ decimal most ++ codes " packets") }
    ensures len { length line.new.items ≤ length line.old.items + 140 }
{
    push_bytes(line, b"more than ");
    push_number(line, u64::from(most));
    push_bytes(line, b" packets");
}

fn push_packet(line: &mut Line, id: PacketId)
    requires { length line.old.items ≤ 150 }
    ensures bytes { line.new.items ≡ line.old.items ++ meant.packet_text id }
    ensures len { length line.new.items ≤ length line.old.items + 81 }
{
    push_number(line, u64::from(id.port));
    push_bytes(line, b" ");
    push_number(line, u64::from(id.seq));
}

fn push_queued(line: &mut Line, queue: u32, id: PacketId)
    requires { length line.old.items ≤ 80 }
    ensures bytes { line.new.items ≡ line.old.items ++ meant.queued_text queue id }
    ensures len { length line.new.items ≤ length line.old.items + 138 }
{
    push_bytes(line, b", queue ");
    push_number(line, u64::from(queue));
    push_bytes(line, b", packet ");
    push_packet(line, id);
}

fn push_full(line: &mut Line, full: FullShare)
    requires { length line.old.items ≤ 20 }
    ensures bytes { line.new.items ≡ line.old.items ++ meant.full_text full }
    ensures len { length line.new.items ≤ length line.old.items + 190 }
{
    push_bytes(line, b"share full: chain ");
    push_bytes(line, full.chain.as_slice());
    push_queued(line, full.queue, full.packet);
}

fn push_no_keys(line: &mut Line, why: NoKeys)
    requires { length line.old.items ≤ 20 }
    ensures bytes { line.new.items ≡ line.old.items ++ (codes "no keys: " ++ meant.cause_text why) }
    ensures len { length line.new.items ≤ length line.old.items + 140 }
{
    push_bytes(line, b"no keys: ");
    match why {
        NoKeys::Object { name, rule } => {
            push_bytes(line, name.as_slice());
            push_bytes(line, b" ");
            push_bytes(line, rule.word().as_bytes());
        }
        NoKeys::Hash => push_bytes(line, b"hash"),
    }
}

fn push_difference(line: &mut Line, at: Difference)
    requires { length line.old.items ≤ 20 }
    ensures bytes { line.new.items ≡ line.old.items ++
        (codes "replay differs at " ++ meant.difference_text at) }
    ensures len { length line.new.items ≤ length line.old.items + 140 }
{
    push_bytes(line, b"replay differs at ");
    match at {
        Difference::Line(number) => {
            push_bytes(line, b"line ");
            push_number(line, number);
        }
        Difference::Output(port) => {
            push_bytes(line, b"output ");
            push_number(line, u64::from(port));
        }
    }
}

fn push_failing(line: &mut Line, number: u64)
    requires { length line.old.items ≤ 20 }
    ensures bytes { line.new.items ≡ line.old.items ++
        (codes "proof fails at line " ++ decimal number) }
    ensures len { length line.new.items ≤ length line.old.items + 140 }
{
    push_bytes(line, b"proof fails at line ");
    push_number(line, number);
}

fn push_words(line: &mut Line, status: Status)
    requires { length line.old.items ≤ 20 }
    ensures bytes { line.new.items ≡ line.old.items ++ meant.status_words status }
    ensures len { length line.new.items ≤ length line.old.items + 190 }
{
    match status {
        Status::Done => {}
        Status::Usage => push_bytes(line, b"bad command line"),
        Status::Refused {
            kind,
            line: row,
            column,
        } => push_refusal(line, kind, row, column),
        Status::FileFault(file) => push_fault(line, file),
        Status::NotCapture { port } => push_no_header(line, port),
        Status::Torn { port, offset } => push_tear(line, port, offset),
        Status::ShareFull(full) => push_full(line, full),
        Status::TooMany { most } => push_too_many(line, most),
        Status::NoKeys(why) => push_no_keys(line, why),
        Status::Memory => push_bytes(line, b"out of memory"),
        Status::Differs(at) => push_difference(line, at),
        Status::ProofFails { line: number } => push_failing(line, number),
    }
}

/// The line on standard error of a status that is no success.
pub fn error_line(status: Status) -> Line
    ensures { result.items ≡ meant.error_line status }
{
    let mut line = Line::new();
    push_bytes(&mut line, b"maestro: ");
    push_words(&mut line, status);
    push_bytes(&mut line, b"\n");
    line
}

fn mode_word(mode: Mode) -> &'static str
    ensures text { result.now ≡ mode_word mode }
    ensures len { length result.now ≤ 5 }
{
    match mode {
        Mode::One => "one",
        Mode::Shard => "shard",
        Mode::Lock => "lock",
    }
}

/// The line on standard output of a run of so many packets, in a mode, by so many workers.
pub fn ran_line(packets: u32, mode: Mode, workers: Workers) -> Line
    ensures { result.items ≡ meant.ran_line packets mode workers }
{
    let mut line = Line::new();
    push_bytes(&mut line, b"ran ");
    push_number(&mut line, u64::from(packets));
    push_bytes(&mut line, b" ");
    push_bytes(&mut line, mode_word(mode).as_bytes());
    push_bytes(&mut line, b" ");
    push_number(&mut line, u64::from(workers.get()));
    push_bytes(&mut line, b"\n");
    line
}
