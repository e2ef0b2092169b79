//! The whole program.
ghost use Rattle.std.specs.Prelude.{◌≤◌, length, map, string_bytes, Some};
ghost use Rattle.command_words.specs.Commands.{command_of};
ghost use Rattle.command_words.specs.View as view;
ghost use Rattle.call_base.specs.Outside.{seen};
ghost use Rattle.maestro_cli.specs.Answer.{Answers, Comes, ComesTo, Runs, Replays, Gens, Hashes, Describes, Certifies, Proves};
ghost use Rattle.maestro_cli.specs.Causes.{HasCallCause};
ghost use Rattle.describe_call.specs.Described.{HashesTo};
ghost use Rattle.lock_mode.specs.Gates.{Rose};

use call_base::loading::NoFunction;
use call_base::say::{print_out, tell};
use call_base::status::{CallFault, Halt, Refusal, Status};
use certify_call::judge;
use command_words::{
    CertifyCommand, Command, DescribeCommand, GenCommand, HashCommand, ProveCommand, ReplayCommand,
    RunCommand, command_of,
};
use describe_call::{hash_line, print_description};
use gen_call::generate;
use lock_mode::Gate;
use nf_base::worker_turns::Turns;
use nf_files::Files;
use prove_call::prove_keys;
use replay_call::replay;
use run_call::run;
use std::alloc::Global;
use std::sync::{Arc, Wait};
use std::thread::Threads;

// Does a run.
fn do_run<
    R: Threads + Wait + Clone + Send + Sync + Drop + 'static,
    F: Files,
    G: Turns + Send + Sync + Drop + 'static,
    L: Gate + Drop + Send,
>(
    rt: &R,
    alloc: Global,
    files: &mut F,
    command: &RunCommand,
    turns: &Arc<G>,
    gate: &mut L,
) -> Status
    requires some { 1 ≤ length command.now.captures.items }
    requires few { length command.now.captures.items ≤ 4 }
    ensures { let before = seen (F.told files.old) (F.counted files.old) in
        Runs (Rose (L.refused gate.old) (L.refused gate.new)) (view.run command.now) before
        (seen (F.told files.new) (F.counted files.new)) result }
{
    match run(rt, alloc, files, command, turns, gate) {
        Ok(end) => end.status(),
        Err(Halt::Refusal(refusal)) => refusal.status(),
        Err(Halt::Stop(stop)) => stop.status(),
    }
}

// Does a replay.
fn do_replay<F: Files>(alloc: Global, files: &mut F, command: &ReplayCommand) -> Status
    requires some { 1 ≤ length command.now.captures.items }
    requires few { length command.now.captures.items ≤ 4 }
    ensures { Replays (view.replay command.now) (seen (F.told files.old) (F.counted files.old))
        (seen (F.told files.new) (F.counted files.new)) result }
{
    match replay(alloc, files, command) {
        Ok(checked) => checked.status(),
        Err(Halt::Refusal(refusal)) => refusal.status(),
        Err(Halt::Stop(stop)) => stop.status(),
    }
}

// Does a run over made-up traffic.
fn do_gen<
    R: Threads + Wait + Clone + Send + Sync + Drop + 'static,
    F: Files,
    G: Turns + Send + Sync + Drop + 'static,
    L: Gate + Drop + Send,
>(
    rt: &R,
    alloc: Global,
    files: &mut F,
    command: &GenCommand,
    turns: &Arc<G>,
    gate: &mut L,
) -> Status
    requires flows { 1 ≤ (view.gen command.now).flows }
    ensures { let before = seen (F.told files.old) (F.counted files.old) in
        Gens (Rose (L.refused gate.old) (L.refused gate.new)) (view.gen command.now) before
        (seen (F.told files.new) (F.counted files.new)) result }
{
    match generate(rt, alloc, files, command, turns, gate) {
        Ok(made) => made.status(),
        Err(Halt::Refusal(refusal)) => refusal.status(),
        Err(Halt::Stop(stop)) => stop.status(),
    }
}

// Prints the line of a hash.
fn print_hash<F: Files>(
    alloc: Global,
    files: &mut F,
    command: &HashCommand,
) -> Result<(), CallFault>
    ensures { HashesTo (view.hash command.now) (seen (F.told files.old) (F.counted files.old))
        (seen (F.told files.new) (F.counted files.new)) result }
{
    match hash_line(alloc, command) {
        Ok(line) => print_out(files, line.as_bytes()),
        Err(_) => Err(CallFault::Memory),
    }
}

// Does a hash.
fn do_hash<F: Files>(alloc: Global, files: &mut F, command: &HashCommand) -> Status
    ensures { Hashes (view.hash command.now) (seen (F.told files.old) (F.counted files.old))
        (seen (F.told files.new) (F.counted files.new)) result }
{
    match print_hash(alloc, files, command) {
        Ok(()) => Status::Done,
        Err(stop) => stop.status(),
    }
}

// Prints a text on a function.
fn do_describe<F: Files>(alloc: Global, files: &mut F, command: &DescribeCommand) -> Status
    ensures { Describes (view.describe command.now) (seen (F.told files.old) (F.counted files.old))
        (seen (F.told files.new) (F.counted files.new)) result }
{
    match print_description(alloc, files, command) {
        Ok(()) => Status::Done,
        Err(NoFunction::Text(fault)) => Refusal::Text(fault).status(),
        Err(NoFunction::Stop(stop)) => stop.status(),
    }
}

// Judges a certificate.
fn do_certify<F: Files>(alloc: Global, files: &mut F, command: &CertifyCommand) -> Status
    ensures { Certifies (view.certify command.now) (seen (F.told files.old) (F.counted files.old))
        (seen (F.told files.new) (F.counted files.new)) result }
{
    match judge(alloc, files, command) {
        Ok(judged) => judged.status(),
        Err(NoFunction::Text(fault)) => Refusal::Text(fault).status(),
        Err(NoFunction::Stop(stop)) => stop.status(),
    }
}

// Prints keys, and writes their certificate.
fn do_prove<F: Files>(alloc: Global, files: &mut F, command: &ProveCommand) -> Status
    ensures { Proves (view.prove command.now) (seen (F.told files.old) (F.counted files.old))
        (seen (F.told files.new) (F.counted files.new)) result }
{
    match prove_keys(alloc, files, command) {
        Ok(()) => Status::Done,
        Err(NoFunction::Text(fault)) => Refusal::Text(fault).status(),
        Err(NoFunction::Stop(stop)) => stop.status(),
    }
}

// Does what a command asks for.
fn obey<
    R: Threads + Wait + Clone + Send + Sync + Drop + 'static,
    F: Files,
    G: Turns + Send + Sync + Drop + 'static,
    L: Gate + Drop + Send,
>(rt: &R, alloc: Global, files: &mut F, command: &Command, turns: &Arc<G>, gate: &mut L) -> Status
    requires few { view.HasFew command.now }
    ensures { let before = seen (F.told files.old) (F.counted files.old) in
        Comes (Rose (L.refused gate.old) (L.refused gate.new)) (Some (view.asked command.now)) before
        (seen (F.told files.new) (F.counted files.new)) result }
{
    match command {
        Command::Run(asked) => do_run(rt, alloc, files, asked, turns, gate),
        Command::Replay(asked) => do_replay(alloc, files, asked),
        Command::Gen(asked) => do_gen(rt, alloc, files, asked, turns, gate),
        Command::Hash(asked) => do_hash(alloc, files, asked),
        Command::Describe(asked) => do_describe(alloc, files, asked),
        Command::Certify(asked) => do_certify(alloc, files, asked),
        Command::Prove(asked) => do_prove(alloc, files, asked),
    }
}

// Does what words ask for.
fn carry_out<
    R: Threads + Wait + Clone + Send + Sync + Drop + 'static,
    F: Files,
    G: Turns + Send + Sync + Drop + 'static,
    L: Gate + Drop + Send,
>(rt: &R, alloc: Global, words: &[String], files: &mut F, turns: &Arc<G>, gate: &mut L) -> Status
    ensures { let before = seen (F.told files.old) (F.counted files.old) in
        ComesTo (Rose (L.refused gate.old) (L.refused gate.new))
        (command_of (map string_bytes words.now)) before
        (seen (F.told files.new) (F.counted files.new)) result }
{
    match command_of(alloc, words) {
        Ok(Some(command)) => obey(rt, alloc, files, &command, turns, gate),
        Ok(None) => Status::Usage,
        Err(_) => Status::Memory,
    }
}

/// Does what the words ask for, and says how it ended.
///
/// The words begin with the program's name. Then stand
/// - `run`, a network function's file, the front of the outputs' names, and one to four captures; with the
///   options `--workers`, 1 to 16, `--mode`, `auto`, `shard` or `lock`, `--max-packets N`, 10,000,000 where it is left
///   out, those of a network card: `--table`, 128 or 512, and `--key-bytes`, 40 or 52, 128 and 40 where they are
///   left out, and `--pcapng`, by which outputs are pcapng captures and not pcap ones;
/// - `replay`, a network function's file, a journal, the front of the outputs' names, and one to four captures;
///   with the options `--max-packets` and `--pcapng`, by which outputs are such;
/// - `gen`, a network function's file, the front of the outputs' names, a seed, how many packets are made, and of
///   how many flows, 1 to 65,536; with the options `--workers`, `--mode`, those of a network card, and `--pcapng`;
/// - `hash`, a source and a destination as `ADDRESS:PORT`; with the options `--key`, 80 or 104 hexadecimal digits,
///   `--workers`, 1 to 16, and those of a network card;
/// - `check`, `explain` or `keys`, a network function's file; the last two with the options of a network card, and
///   `keys` with `--proof` and the name of a certificate's file, which is written;
/// - `certify`, a network function's file and a certificate of its keys, or of there being none.
///
/// Several workers of a run, over captures or made-up traffic, are threads of `rt`; where one can't be started,
/// the caller does its work. What they come to is told to `turns`. Workers that share tables go in by `gate`;
/// where it can't make the ways in, one worker does the run.
pub fn maestro<
    R: Threads + Wait + Clone + Send + Sync + Drop + 'static,
    F: Files,
    G: Turns + Send + Sync + Drop + 'static,
    L: Gate + Drop + Send,
>(rt: &R, alloc: Global, words: &[String], files: &mut F, turns: &Arc<G>, gate: &mut L) -> Status
    // What the call came to, what it asked for and which call failed; and what standard error holds of that.
    ensures answer { let before = seen (F.told files.old) (F.counted files.old) in
        Answers (Rose (L.refused gate.old) (L.refused gate.new))
        (command_of (map string_bytes words.now)) before
        (seen (F.told files.new) (F.counted files.new)) result }
    // Which call failed first, and that none did but at a file fault.
    ensures cause { let command = command_of (map string_bytes words.now) in
        HasCallCause (F.told files.old) command (F.counted files.old) (F.counted files.new) result }
{
    let due = carry_out(rt, alloc, words, files, turns, gate);
    tell(files, due)
}
