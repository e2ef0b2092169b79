//! The words that a command line may have, for `clap`.

ghost use Rattle.std.specs.Prelude.{◌≡◌, false, IfOk};
ghost use Rattle.clap.specs.Words.{app_of};
ghost use Rattle.clap.specs.declared.builder.command.Command.TheViews.{out-Command};
ghost use Rattle.command_words.specs.Grammar as grammar;
ghost use Rattle.command_words.specs.Made.{IsRule, IsMade};

use clap::{Arg, ArgAction, Command};
use std::alloc::{AllocError, Global};

/// One word that has to be there.
fn word<'a>(alloc: Global, id: &'a str) -> Arg<'a>
    ensures { IsRule result (grammar.word id.entry.now) }
{
    Arg::new(alloc, id).required(true).action(ArgAction::Set)
}

/// One word or more.
fn words<'a>(alloc: Global, id: &'a str) -> Arg<'a>
    ensures { IsRule result (grammar.words id.entry.now) }
{
    Arg::new(alloc, id).required(true).action(ArgAction::Append)
}

/// An option with a value, `--id`, which may be left out.
fn option<'a>(alloc: Global, id: &'a str) -> Arg<'a>
    ensures { IsRule result (grammar.option id.entry.now) }
{
    Arg::new(alloc, id).long(id).action(ArgAction::Set)
}

/// An option without a value, `--id`, which may be left out.
fn flag<'a>(alloc: Global, id: &'a str) -> Arg<'a>
    ensures { IsRule result (grammar.flag id.entry.now) }
{
    Arg::new(alloc, id).long(id).action(ArgAction::SetTrue)
}

/// `run NF OUT CAPTURE..`
fn run_names<'a>(alloc: Global) -> Result<Command<'a>, AllocError>
    ensures { IfOk result (λ c. IsMade c grammar.run_names) }
{
    Command::new(alloc, "run")
        .arg(word(alloc, "function"))?
        .arg(word(alloc, "out"))?
        .arg(words(alloc, "capture"))
}

/// `[--table 128|512] [--key-bytes 40|52]`, behind the words that are there: the sizes of a network
/// card.
fn with_card<'a>(alloc: Global, command: Command<'a>) -> Result<Command<'a>, AllocError>
    requires local { (out-Command command).has_globals ≡ false }
    ensures { IfOk result (λ c. IsMade c (grammar.with_card (app_of command.entry))) }
{
    command
        .arg(option(alloc, "table"))?
        .arg(option(alloc, "key-bytes"))
}

/// `run NF OUT CAPTURE.. [--workers W] [--mode M] [--max-packets N]`
fn run_amounts<'a>(alloc: Global) -> Result<Command<'a>, AllocError>
    ensures { IfOk result (λ c. IsMade c grammar.run_amounts) }
{
    run_names(alloc)?
        .arg(option(alloc, "workers"))?
        .arg(option(alloc, "mode"))?
        .arg(option(alloc, "max-packets"))
}

/// `run NF OUT CAPTURE.. [--workers W] [--mode M] [--max-packets N] [--table 128|512] [--key-bytes 40|52]
/// [--pcapng]`
fn run_words<'a>(alloc: Global) -> Result<Command<'a>, AllocError>
    ensures { IfOk result (λ c. IsMade c grammar.run_app) }
{
    with_card(alloc, run_amounts(alloc)?)?.arg(flag(alloc, "pcapng"))
}

/// `replay NF JOURNAL OUT`
fn replay_names<'a>(alloc: Global) -> Result<Command<'a>, AllocError>
    ensures { IfOk result (λ c. IsMade c grammar.replay_names) }
{
    Command::new(alloc, "replay")
        .arg(word(alloc, "function"))?
        .arg(word(alloc, "journal"))?
        .arg(word(alloc, "out"))
}

/// `replay NF JOURNAL OUT CAPTURE.. [--max-packets N] [--pcapng]`
fn replay_words<'a>(alloc: Global) -> Result<Command<'a>, AllocError>
    ensures { IfOk result (λ c. IsMade c grammar.replay_app) }
{
    replay_names(alloc)?
        .arg(words(alloc, "capture"))?
        .arg(option(alloc, "max-packets"))?
        .arg(flag(alloc, "pcapng"))
}

/// `gen NF OUT SEED`
fn gen_names<'a>(alloc: Global) -> Result<Command<'a>, AllocError>
    ensures { IfOk result (λ c. IsMade c grammar.gen_names) }
{
    Command::new(alloc, "gen")
        .arg(word(alloc, "function"))?
        .arg(word(alloc, "out"))?
        .arg(word(alloc, "seed"))
}

/// `gen NF OUT SEED COUNT FLOWS`
fn gen_amounts<'a>(alloc: Global) -> Result<Command<'a>, AllocError>
    ensures { IfOk result (λ c. IsMade c grammar.gen_amounts) }
{
    gen_names(alloc)?
        .arg(word(alloc, "count"))?
        .arg(word(alloc, "flows"))
}

/// `gen NF OUT SEED COUNT FLOWS [--workers W] [--mode M] [--table 128|512] [--key-bytes 40|52] [--pcapng]`
fn gen_words<'a>(alloc: Global) -> Result<Command<'a>, AllocError>
    ensures { IfOk result (λ c. IsMade c grammar.gen_app) }
{
    let command = gen_amounts(alloc)?
        .arg(option(alloc, "workers"))?
        .arg(option(alloc, "mode"))?;
    with_card(alloc, command)?.arg(flag(alloc, "pcapng"))
}

/// `hash SRC:PORT DST:PORT [--key HEX] [--workers W] [--table 128|512] [--key-bytes 40|52]`
fn hash_words<'a>(alloc: Global) -> Result<Command<'a>, AllocError>
    ensures { IfOk result (λ c. IsMade c grammar.hash_app) }
{
    let command = Command::new(alloc, "hash")
        .arg(word(alloc, "source"))?
        .arg(word(alloc, "destination"))?
        .arg(option(alloc, "key"))?
        .arg(option(alloc, "workers"))?;
    with_card(alloc, command)
}

/// `check NF`, or another word in its place that asks for a text on a function.
fn description_names<'a>(alloc: Global, name: &'a str) -> Result<Command<'a>, AllocError>
    ensures { IfOk result (λ c. IsMade c (grammar.description_names name.entry.now)) }
{
    Command::new(alloc, name).arg(word(alloc, "function"))
}

/// `keys NF [--table 128|512] [--key-bytes 40|52]`, or another word in the place of `keys`.
fn description_words<'a>(alloc: Global, name: &'a str) -> Result<Command<'a>, AllocError>
    ensures { IfOk result (λ c. IsMade c (grammar.description_app name.entry.now)) }
{
    with_card(alloc, description_names(alloc, name)?)
}

/// `certify NF FILE`
fn certify_words<'a>(alloc: Global) -> Result<Command<'a>, AllocError>
    ensures { IfOk result (λ c. IsMade c grammar.certify_app) }
{
    Command::new(alloc, "certify")
        .arg(word(alloc, "function"))?
        .arg(word(alloc, "proof"))
}

/// `keys NF [--table 128|512] [--key-bytes 40|52] [--proof FILE]`
fn keys_words<'a>(alloc: Global) -> Result<Command<'a>, AllocError>
    ensures { IfOk result (λ c. IsMade c grammar.keys_app) }
{
    description_words(alloc, "keys")?.arg(option(alloc, "proof"))
}

/// `check`, `explain` and `keys`, behind the commands that are there: `check` says nothing of keys, so
/// it asks for no card.
fn with_descriptions<'a>(alloc: Global, command: Command<'a>) -> Result<Command<'a>, AllocError>
    requires local { (out-Command command).has_globals ≡ false }
    ensures { IfOk result (λ c. IsMade c (grammar.with_descriptions (app_of command.entry))) }
{
    command
        .subcommand(description_names(alloc, "check")?)?
        .subcommand(description_words(alloc, "explain")?)?
        .subcommand(keys_words(alloc)?)
}

/// The commands that handle packets, behind the commands that are there.
fn with_runs<'a>(alloc: Global, command: Command<'a>) -> Result<Command<'a>, AllocError>
    requires local { (out-Command command).has_globals ≡ false }
    ensures { IfOk result (λ c. IsMade c (grammar.with_runs (app_of command.entry))) }
{
    command
        .subcommand(run_words(alloc)?)?
        .subcommand(replay_words(alloc)?)?
        .subcommand(gen_words(alloc)?)
}

/// Every command.
pub fn all_words<'a>(alloc: Global) -> Result<Command<'a>, AllocError>
    ensures { IfOk result (λ c. IsMade c grammar.app) }
{
    let command = with_runs(alloc, Command::new(alloc, "maestro"))?
        .subcommand(hash_words(alloc)?)?
        .subcommand(certify_words(alloc)?)?;
    with_descriptions(alloc, command)
}
