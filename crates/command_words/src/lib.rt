//! The words of a command line, as the command that they ask for.
#![tactic(auto)]

mod command;
mod digit;
mod endpoint;
mod grammar;
mod key;
mod words;

pub use command::{
    CertifyCommand, Command, DescribeCommand, Description, GenCommand, HashCommand, ModeChoice,
    ProveCommand, ReplayCommand, RunCommand,
};
pub use endpoint::Ends;
pub use words::command_of;
