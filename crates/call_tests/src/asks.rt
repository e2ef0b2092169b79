// What a line of words asks for, in words of its own.
use command_words::{
    Command, Description, Ends, GenCommand, HashCommand, ModeChoice, ReplayCommand, RunCommand,
    command_of,
};
use nf_base::card::Card;
use nf_base::hash_key::HashKey;
use nf_base::packet::Addresses;
use std::alloc::{AllocError, Global};

fn mode_word(mode: ModeChoice) -> &'static str {
    match mode {
        ModeChoice::Auto => "auto",
        ModeChoice::Shard => "shard",
        ModeChoice::Lock => "lock",
    }
}

fn description_word(what: Description) -> &'static str {
    match what {
        Description::Check => "check",
        Description::Explain => "explain",
        Description::Keys => "keys",
    }
}

/// Names, each behind a space.
fn spaced(alloc: Global, names: &[String]) -> Result<String, AllocError> {
    let mut said = String::new(alloc);
    for name in names {
        said.push_str(" ")?;
        said.push_str(name.as_str())?;
    }
    Ok(said)
}

fn card_words(alloc: Global, card: Card) -> Result<String, AllocError> {
    format!(in alloc; "{} {}", card.table.entries(), card.key.bytes())
}

fn run_words(alloc: Global, run: &RunCommand) -> Result<String, AllocError> {
    let captures = spaced(alloc, run.captures.as_slice())?;
    let card = card_words(alloc, run.card)?;
    let (function, out) = (run.function.as_str(), run.out.as_str());
    let (most, workers, mode) = (run.most, run.workers.get(), mode_word(run.mode));
    let (captures, card) = (captures.as_str(), card.as_str());
    format!(in alloc; "run {function} {out}{captures} {most} {workers} {mode} {card}")
}

fn replay_words(alloc: Global, replay: &ReplayCommand) -> Result<String, AllocError> {
    let captures = spaced(alloc, replay.captures.as_slice())?;
    let (function, journal) = (replay.function.as_str(), replay.journal.as_str());
    let (out, most, captures) = (replay.out.as_str(), replay.most, captures.as_str());
    format!(in alloc; "replay {function} {journal} {out}{captures} {most}")
}

fn gen_words(alloc: Global, made: &GenCommand) -> Result<String, AllocError> {
    let card = card_words(alloc, made.card)?;
    let (function, out, card) = (made.function.as_str(), made.out.as_str(), card.as_str());
    let (seed, count, flows) = (made.seed, made.count, made.flows);
    let (workers, mode) = (made.workers.get(), mode_word(made.mode));
    format!(in alloc; "gen {function} {out} {seed} {count} {flows} {workers} {mode} {card}")
}

fn ends_words(alloc: Global, ends: Ends) -> Result<String, AllocError> {
    let (from, to) = (ends.source_port, ends.destination_port);
    match ends.addresses {
        Addresses::Four { src, dst } => format!(in alloc; "four {src} {dst} {from} {to}"),
        Addresses::Six { src, dst } => format!(in alloc; "six {src} {dst} {from} {to}"),
    }
}

fn key_word(alloc: Global, key: &Option<HashKey>) -> Result<String, AllocError> {
    match key {
        Some(key) => hex::encode(alloc, key.as_slice()),
        None => String::from_str(alloc, "-"),
    }
}

fn hash_words(alloc: Global, hash: &HashCommand) -> Result<String, AllocError> {
    let ends = ends_words(alloc, hash.ends)?;
    let key = key_word(alloc, &hash.key)?;
    let card = card_words(alloc, hash.card)?;
    let (ends, key, card) = (ends.as_str(), key.as_str(), card.as_str());
    format!(in alloc; "hash {ends} {key} {} {card}", hash.workers.get())
}

fn command_words(alloc: Global, command: &Command) -> Result<String, AllocError> {
    match command {
        Command::Run(run) => run_words(alloc, run),
        Command::Replay(replay) => replay_words(alloc, replay),
        Command::Gen(made) => gen_words(alloc, made),
        Command::Hash(hash) => hash_words(alloc, hash),
        Command::Describe(it) => {
            let card = card_words(alloc, it.card)?;
            let what = description_word(it.what);
            format!(in alloc; "{what} {} {}", it.function.as_str(), card.as_str())
        }
        Command::Prove(it) => {
            let card = card_words(alloc, it.card)?;
            let (function, proof) = (it.function.as_str(), it.proof.as_str());
            format!(in alloc; "prove {function} {proof} {}", card.as_str())
        }
        Command::Certify(it) => {
            format!(in alloc; "certify {} {}", it.function.as_str(), it.proof.as_str())
        }
    }
}

/// What words ask for: a command with what it is about, one space apart, or `nothing`.
pub fn asked(alloc: Global, words: &[String]) -> Result<String, AllocError> {
    match command_of(alloc, words)? {
        Some(command) => command_words(alloc, &command),
        None => String::from_str(alloc, "nothing"),
    }
}
