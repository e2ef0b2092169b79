//! A replay that is asked for, with its function.

use call_base::layout::Layout;
use command_words::ReplayCommand;
use nf_base::func::Func;

/// A replay that a command asks for, the function that it is of, and the numbers of its files.
#[derive(Drop)]
pub(crate) struct Job<'a> {
    pub(crate) command: &'a ReplayCommand,
    pub(crate) func: &'a Func,
    pub(crate) layout: Layout,
}
