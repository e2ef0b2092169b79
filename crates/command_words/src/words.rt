//! From a command line's words to the command that they ask for.

ghost use Rattle.std.specs.Prelude.{◌≡◌, ◌≤◌, IfOk, IfSome, map, length, option_map, string_bytes};
ghost use Rattle.clap.specs.Words.{all_of, first_of, found_of, rows_of, subcommand_rows_of};
ghost use Rattle.command_words.specs.Texts.{and_then, endpoint_in, flows_in, key_size_in, table_in, workers_in};
ghost use Rattle.command_words.specs.Commands as meant;
ghost use Rattle.command_words.specs.View as view;

use crate::command::{
    CertifyCommand, Command, DescribeCommand, Description, GenCommand, HashCommand, ModeChoice,
    ProveCommand, ReplayCommand, RunCommand,
};
use crate::endpoint::{Endpoint, Ends, endpoint_in, ends_between, number_up_to};
use crate::grammar::all_words;
use crate::key::key_in;
use capture_format::CaptureFormat;
use clap::ArgMatches;
use clap::error::ErrorKind;
use nf_base::card::{Card, KeySize, TableSize};
use nf_base::hash_key::HashKey;
use nf_base::workers::Workers;
use nf_tokens::decimal;
use std::alloc::{AllocError, Global};

/// The value of an argument that has one.
#[tactic(auto, using(crate::proofs::Rows::first_in_rows))]
fn value<'a>(matches: &ArgMatches<'a>, id: &str) -> Option<&'a str>
    ensures { option_map (λ s. s.now) result ≡ first_of id.now (rows_of (found_of matches.now)) }
{
    matches.get_str(id)
}

/// All values of an argument.
#[tactic(auto, using(crate::proofs::Rows::all_in_rows))]
fn values<'m, 'a>(matches: &'m ArgMatches<'a>, id: &str) -> Option<&'m [&'a str]>
    ensures { option_map (λ s. map (λ v. v.now) s.now) result ≡ all_of id.now (rows_of (found_of matches.now)) }
{
    matches.get_strs(id)
}

/// 1 to 16.
fn workers_in(text: &[u8]) -> Option<Workers>
    ensures { result ≡ workers_in text.now }
{
    match number_up_to(16, text) {
        Some(n) if n >= 1 => Some(Workers::new(n as u32)),
        _ => None,
    }
}

/// 1 to 16, and 1 where the option is left out.
fn workers_or_one(text: Option<&str>) -> Option<Workers>
    ensures { result ≡ meant.or_default 1 workers_in (option_map (λ s. s.now) text.entry) }
{
    match text {
        None => Some(Workers::new(1)),
        Some(text) => workers_in(text.as_bytes()),
    }
}

/// The mode that a word asks for.
fn mode_named(name: &str) -> Option<ModeChoice>
    ensures { result ≡ meant.mode_named name.now }
{
    match name {
        "auto" => Some(ModeChoice::Auto),
        "shard" => Some(ModeChoice::Shard),
        "lock" => Some(ModeChoice::Lock),
        _ => None,
    }
}

/// `auto` where the option is left out.
fn mode_in(text: Option<&str>) -> Option<ModeChoice>
    ensures { result ≡ meant.mode_in (option_map (λ s. s.now) text.entry) }
{
    match text {
        None => Some(ModeChoice::Auto),
        Some(text) => mode_named(text),
    }
}

/// 10,000,000 where the option is left out.
fn most_in(text: Option<&str>) -> Option<u32>
    ensures { result ≡ meant.most_in (option_map (λ s. s.now) text.entry) }
{
    match text {
        None => Some(10_000_000),
        Some(text) => match number_up_to(4_294_967_295, text.as_bytes()) {
            Some(n) => Some(n as u32),
            None => None,
        },
    }
}

/// 128 or 512.
fn table_in(text: &[u8]) -> Option<TableSize>
    ensures { result ≡ table_in text.now }
{
    TableSize::of(decimal(text)?)
}

/// 40 or 52.
fn key_size_in(text: &[u8]) -> Option<KeySize>
    ensures { result ≡ key_size_in text.now }
{
    KeySize::of(decimal(text)?)
}

/// A table of 128 entries and keys of 40 bytes where the options are left out.
fn card_in(table: Option<&str>, key: Option<&str>) -> Option<Card>
    ensures { let entries = option_map (λ s. s.now) table.entry in
        let bytes = option_map (λ s. s.now) key.entry in
        result ≡ meant.card_in entries bytes }
{
    let table = match table {
        None => Card::usual().table,
        Some(text) => table_in(text.as_bytes())?,
    };
    let key = match key {
        None => Card::usual().key,
        Some(text) => key_size_in(text.as_bytes())?,
    };
    Some(Card { table, key })
}

/// The network card that is asked for.
fn card_asked(matches: &ArgMatches) -> Option<Card>
    ensures { result ≡ meant.card_asked (rows_of (found_of matches.now)) }
{
    card_in(value(matches, "table"), value(matches, "key-bytes"))
}

/// Pcapng where the option stands among the words: clap gives the text `true` there.
fn format_in(text: Option<&str>) -> CaptureFormat
    ensures { result ≡ meant.format_in (option_map (λ s. s.now) text.entry) }
{
    match text {
        Some("true") => CaptureFormat::Pcapng,
        _ => CaptureFormat::Pcap,
    }
}

/// The format of the outputs that is asked for.
fn format_asked(matches: &ArgMatches) -> CaptureFormat
    ensures { result ≡ meant.format_asked (rows_of (found_of matches.now)) }
{
    format_in(value(matches, "pcapng"))
}

fn copied(alloc: Global, names: &[&str]) -> Result<Vec<String>, AllocError>
    ensures { IfOk result (λ copies. map string_bytes copies.items ≡ map (λ s. s.now) names.now) }
{
    let mut copies = Vec::new(alloc);
    for name in names {
        copies.push(String::from_str(alloc, name)?)?;
    }
    Ok(copies)
}

/// One to four captures.
fn captures_in(alloc: Global, names: Option<&[&str]>) -> Result<Option<Vec<String>>, AllocError>
    ensures few { IfOk result (λ r. IfSome r (λ v. (1 ≤ length v.items) × (length v.items ≤ 4))) }
    ensures value { IfOk result (λ r. option_map (λ v. map string_bytes v.items) r ≡ meant.captures_in (option_map (λ s. map (λ v. v.now) s.now) names.entry)) }
{
    match names {
        Some(names) if 1 <= names.len() && names.len() <= 4 => Ok(Some(copied(alloc, names)?)),
        _ => Ok(None),
    }
}

fn run_command(alloc: Global, matches: &ArgMatches) -> Result<Option<RunCommand>, AllocError>
    ensures few { IfOk result (λ r. IfSome r (λ c. (1 ≤ length c.captures.items) × (length c.captures.items ≤ 4))) }
    ensures value { IfOk result (λ r. option_map view.run r ≡ meant.run_in (rows_of (found_of matches.now))) }
{
    let Some(function) = value(matches, "function") else {
        return Ok(None);
    };
    let Some(out) = value(matches, "out") else {
        return Ok(None);
    };
    let Some(captures) = captures_in(alloc, values(matches, "capture"))? else {
        return Ok(None);
    };
    let workers = workers_or_one(value(matches, "workers"));
    let mode = mode_in(value(matches, "mode"));
    let card = card_asked(matches);
    let most = most_in(value(matches, "max-packets"));
    let format = format_asked(matches);
    match (workers, mode, card, most) {
        (Some(workers), Some(mode), Some(card), Some(most)) => Ok(Some(RunCommand {
            function: String::from_str(alloc, function)?,
            out: String::from_str(alloc, out)?,
            captures,
            workers,
            mode,
            card,
            most,
            format,
        })),
        _ => Ok(None),
    }
}

fn replay_command(alloc: Global, matches: &ArgMatches) -> Result<Option<ReplayCommand>, AllocError>
    ensures few { IfOk result (λ r. IfSome r (λ c. (1 ≤ length c.captures.items) × (length c.captures.items ≤ 4))) }
    ensures value { IfOk result (λ r. option_map view.replay r ≡ meant.replay_in (rows_of (found_of matches.now))) }
{
    let Some(function) = value(matches, "function") else {
        return Ok(None);
    };
    let Some(journal) = value(matches, "journal") else {
        return Ok(None);
    };
    let Some(out) = value(matches, "out") else {
        return Ok(None);
    };
    let Some(captures) = captures_in(alloc, values(matches, "capture"))? else {
        return Ok(None);
    };
    let format = format_asked(matches);
    match most_in(value(matches, "max-packets")) {
        Some(most) => Ok(Some(ReplayCommand {
            function: String::from_str(alloc, function)?,
            journal: String::from_str(alloc, journal)?,
            out: String::from_str(alloc, out)?,
            captures,
            most,
            format,
        })),
        None => Ok(None),
    }
}

/// A number of 32 bits, where it is there.
fn seed_in(text: Option<&str>) -> Option<u32>
    ensures { result ≡ meant.seed_in (option_map (λ s. s.now) text.entry) }
{
    Some(number_up_to(4_294_967_295, text?.as_bytes())? as u32)
}

/// Up to 10,000,000, where it is there.
fn count_in(text: Option<&str>) -> Option<u32>
    ensures { result ≡ meant.count_in (option_map (λ s. s.now) text.entry) }
{
    Some(number_up_to(10_000_000, text?.as_bytes())? as u32)
}

/// 1 to 65,536, where it is there.
fn flows_in(text: Option<&str>) -> Option<u32>
    ensures value { result ≡ and_then (option_map (λ s. s.now) text.entry) flows_in }
    ensures within { IfSome result (λ n. (1 ≤ n) × (n ≤ 65536)) }
{
    match number_up_to(65_536, text?.as_bytes()) {
        Some(n) if n >= 1 => Some(n as u32),
        _ => None,
    }
}

fn gen_command(alloc: Global, matches: &ArgMatches) -> Result<Option<GenCommand>, AllocError>
    ensures few { IfOk result (λ r. IfSome r (λ c. (1 ≤ c.flows) × (c.flows ≤ 65536))) }
    ensures value { IfOk result (λ r. option_map view.gen r ≡ meant.gen_in (rows_of (found_of matches.now))) }
{
    let Some(function) = value(matches, "function") else {
        return Ok(None);
    };
    let Some(out) = value(matches, "out") else {
        return Ok(None);
    };
    let seed = seed_in(value(matches, "seed"));
    let count = count_in(value(matches, "count"));
    let flows = flows_in(value(matches, "flows"));
    let workers = workers_or_one(value(matches, "workers"));
    let mode = mode_in(value(matches, "mode"));
    let card = card_asked(matches);
    let format = format_asked(matches);
    match (seed, count, flows, workers, mode, card) {
        (Some(seed), Some(count), Some(flows), Some(workers), Some(mode), Some(card)) => {
            Ok(Some(GenCommand {
                function: String::from_str(alloc, function)?,
                out: String::from_str(alloc, out)?,
                seed,
                count,
                flows,
                workers,
                mode,
                card,
                format,
            }))
        }
        _ => Ok(None),
    }
}

/// An address, a colon and a port, where they are there.
fn end_in(text: Option<&str>) -> Option<Endpoint>
    ensures { result ≡ and_then (option_map (λ s. s.now) text.entry) endpoint_in }
{
    endpoint_in(text?.as_bytes())
}

/// Two ends whose addresses are of one version of IP, where they are there.
fn ends_in(source: Option<&str>, destination: Option<&str>) -> Option<Ends>
    ensures { let from = option_map (λ s. s.now) source.entry in
        let to = option_map (λ s. s.now) destination.entry in
        result ≡ meant.ends_in from to }
{
    ends_between(end_in(source)?, end_in(destination)?)
}

/// A key, where one is given.
fn given_key(text: Option<&str>) -> Option<Option<HashKey>>
    ensures { result ≡ meant.given_key (option_map (λ s. s.now) text.entry) }
{
    match text {
        None => Some(None),
        Some(text) => Some(Some(key_in(text.as_bytes())?)),
    }
}

fn hash_command(matches: &ArgMatches) -> Option<HashCommand>
    ensures { option_map view.hash result ≡ meant.hash_in (rows_of (found_of matches.now)) }
{
    let ends = ends_in(value(matches, "source"), value(matches, "destination"));
    let key = given_key(value(matches, "key"));
    let workers = workers_or_one(value(matches, "workers"));
    let card = card_asked(matches);
    match (ends, key, workers, card) {
        (Some(ends), Some(key), Some(workers), Some(card)) => Some(HashCommand {
            ends,
            key,
            workers,
            card,
        }),
        _ => None,
    }
}

/// The network card that a text on a function is for.
fn described_card(what: Description, matches: &ArgMatches) -> Option<Card>
    ensures { result ≡ meant.described_card what (rows_of (found_of matches.now)) }
{
    match what {
        Description::Check => Some(Card::usual()),
        Description::Explain | Description::Keys => card_asked(matches),
    }
}

fn describe_command(
    alloc: Global,
    what: Description,
    matches: &ArgMatches,
) -> Result<Option<DescribeCommand>, AllocError>
    ensures { IfOk result (λ r. option_map view.describe r ≡ meant.describe_in what (rows_of (found_of matches.now))) }
{
    match (value(matches, "function"), described_card(what, matches)) {
        (Some(function), Some(card)) => Ok(Some(DescribeCommand {
            what,
            function: String::from_str(alloc, function)?,
            card,
        })),
        _ => Ok(None),
    }
}

fn certify_command(
    alloc: Global,
    matches: &ArgMatches,
) -> Result<Option<CertifyCommand>, AllocError>
    ensures { IfOk result (λ r. option_map view.certify r ≡ meant.certify_in (rows_of (found_of matches.now))) }
{
    match (value(matches, "function"), value(matches, "proof")) {
        (Some(function), Some(proof)) => Ok(Some(CertifyCommand {
            function: String::from_str(alloc, function)?,
            proof: String::from_str(alloc, proof)?,
        })),
        _ => Ok(None),
    }
}

fn prove_command(
    alloc: Global,
    proof: &str,
    matches: &ArgMatches,
) -> Result<Option<ProveCommand>, AllocError>
    ensures { IfOk result (λ r. option_map view.prove r ≡ meant.prove_in proof.now (rows_of (found_of matches.now))) }
{
    match (value(matches, "function"), card_asked(matches)) {
        (Some(function), Some(card)) => Ok(Some(ProveCommand {
            function: String::from_str(alloc, function)?,
            proof: String::from_str(alloc, proof)?,
            card,
        })),
        _ => Ok(None),
    }
}

/// Keys alone, or with a certificate where a name is given for one.
fn keys_command(alloc: Global, matches: &ArgMatches) -> Result<Option<Command>, AllocError>
    ensures few { IfOk result (λ r. IfSome r view.HasFew) }
    ensures value { IfOk result (λ r. option_map view.asked r ≡ meant.keys_in (rows_of (found_of matches.now))) }
{
    match value(matches, "proof") {
        Some(proof) => Ok(prove_command(alloc, proof, matches)?.map(Command::Prove)),
        None => Ok(describe_command(alloc, Description::Keys, matches)?.map(Command::Describe)),
    }
}

/// Which text on a function a name asks for, but for `keys`.
fn description_named(name: &str) -> Option<Description>
    ensures { result ≡ meant.description_named name.now }
{
    match name {
        "check" => Some(Description::Check),
        "explain" => Some(Description::Explain),
        _ => None,
    }
}

/// The command of a name, with what stands beside it.
fn named(alloc: Global, name: &str, matches: &ArgMatches) -> Result<Option<Command>, AllocError>
    ensures few { IfOk result (λ r. IfSome r view.HasFew) }
    ensures value { IfOk result (λ r. option_map view.asked r ≡ meant.named name.now (rows_of (found_of matches.now))) }
{
    if name == "run" {
        Ok(run_command(alloc, matches)?.map(Command::Run))
    } else if name == "replay" {
        Ok(replay_command(alloc, matches)?.map(Command::Replay))
    } else if name == "gen" {
        Ok(gen_command(alloc, matches)?.map(Command::Gen))
    } else if name == "hash" {
        Ok(hash_command(matches).map(Command::Hash))
    } else if name == "certify" {
        Ok(certify_command(alloc, matches)?.map(Command::Certify))
    } else if name == "keys" {
        keys_command(alloc, matches)
    } else {
        match description_named(name) {
            Some(what) => Ok(describe_command(alloc, what, matches)?.map(Command::Describe)),
            None => Ok(None),
        }
    }
}

/// The command of the subcommand that was met.
#[tactic(auto, using(crate::proofs::Rows::met))]
fn in_match(alloc: Global, matches: &ArgMatches) -> Result<Option<Command>, AllocError>
    ensures few { IfOk result (λ r. IfSome r view.HasFew) }
    ensures value { IfOk result (λ r. option_map view.asked r ≡ meant.in_match (subcommand_rows_of matches.now)) }
{
    match matches.subcommand() {
        Some((name, found)) => named(alloc, name, found),
        None => Ok(None),
    }
}

/// The command that these words ask for, the first of which is the program's name; None where they ask for
/// none.
pub fn command_of(alloc: Global, words: &[String]) -> Result<Option<Command>, AllocError>
    ensures few { IfOk result (λ r. IfSome r view.HasFew) }
    ensures value { IfOk result (λ r. option_map view.asked r ≡ meant.command_of (map string_bytes words.now)) }
{
    let command = all_words(alloc)?;
    match command.try_get_matches_from(words) {
        Ok(matches) => in_match(alloc, &matches),
        Err(error) => match error.kind() {
            ErrorKind::OutOfMemory => Err(AllocError),
            _ => Ok(None),
        },
    }
}
