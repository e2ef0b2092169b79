//! What a command line asks for.

use crate::endpoint::Ends;
use capture_format::CaptureFormat;
use nf_base::card::Card;
use nf_base::hash_key::HashKey;
use nf_base::workers::Workers;

/// Which mode is asked for, of a run by two workers or more. One worker runs in mode `one`.
#[derive(Clone, Copy, Debug, PartialEq, Eq)]
pub enum ModeChoice {
    /// The mode that the function's verdict allows.
    Auto,
    /// Workers that share nothing.
    Shard,
    /// Workers that share their tables.
    Lock,
}

/// A run of a function over captures.
#[derive(Drop)]
pub struct RunCommand {
    /// The name of the function's text.
    pub function: String,
    /// The front of the names of the files that the run leaves.
    pub out: String,
    /// The name of a capture for each port, 1 to 4.
    pub captures: Vec<String>,
    /// How many workers handle them.
    pub workers: Workers,
    pub mode: ModeChoice,
    /// The sizes of the network card that spreads them.
    pub card: Card,
    /// The most packets that are handled.
    pub most: u32,
    /// In what format the outputs are to be.
    pub format: CaptureFormat,
}

/// The check of a run's journal and outputs.
#[derive(Drop)]
pub struct ReplayCommand {
    /// The name of the function's text.
    pub function: String,
    /// The name of the run's journal.
    pub journal: String,
    /// The front of the names of the run's outputs.
    pub out: String,
    /// The name of a capture for each port, 1 to 4.
    pub captures: Vec<String>,
    /// The most packets of the journal that are gone through.
    pub most: u32,
    /// In what format the outputs are.
    pub format: CaptureFormat,
}

/// A run of a function over made-up traffic.
#[derive(Drop)]
pub struct GenCommand {
    /// The name of the function's text.
    pub function: String,
    /// The front of the names of the files that the run leaves.
    pub out: String,
    /// What the traffic is drawn by.
    pub seed: u32,
    /// How many packets there are, at most 10,000,000.
    pub count: u32,
    /// How many flows they are of, 1 to 65,536.
    pub flows: u32,
    /// How many workers handle them.
    pub workers: Workers,
    pub mode: ModeChoice,
    /// The sizes of the network card that spreads them.
    pub card: Card,
    /// In what format the outputs are to be.
    pub format: CaptureFormat,
}

/// The hash of a packet between two ends.
#[derive(Drop)]
pub struct HashCommand {
    /// The packet's two ends.
    pub ends: Ends,
    /// The key of the hash, where one is given.
    pub key: Option<HashKey>,
    /// How many workers the queues are for.
    pub workers: Workers,
    /// The size of the indirection table, and that of the default key, for where no key is given.
    pub card: Card,
}

/// What is printed of a function.
#[derive(Clone, Copy, Debug, PartialEq, Eq)]
pub enum Description {
    /// What it declares, and how many feasible paths each handler has.
    Check,
    /// Its objects with the sites of each, and then the verdict.
    Explain,
    /// The verdict: the keys of its ports, or why there are none.
    Keys,
}

/// A text on a function.
#[derive(Drop)]
pub struct DescribeCommand {
    pub what: Description,
    /// The name of the function's text.
    pub function: String,
    /// The sizes of the network card that keys are for; those of every card where none are asked for.
    pub card: Card,
}

/// The keys of a function with a certificate: what `keys` prints, and the certificate is written.
#[derive(Drop)]
pub struct ProveCommand {
    /// The name of the function's text.
    pub function: String,
    /// The name of the certificate.
    pub proof: String,
    /// The sizes of the network card that keys are for.
    pub card: Card,
}

/// The judging of a certificate of a function's keys, or of there being none.
#[derive(Drop)]
pub struct CertifyCommand {
    /// The name of the function's text.
    pub function: String,
    /// The name of the certificate.
    pub proof: String,
}

/// A command.
#[derive(Drop)]
pub enum Command {
    Run(RunCommand),
    Replay(ReplayCommand),
    Gen(GenCommand),
    Hash(HashCommand),
    Describe(DescribeCommand),
    Certify(CertifyCommand),
    Prove(ProveCommand),
}
