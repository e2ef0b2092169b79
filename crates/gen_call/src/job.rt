//! A run over made-up traffic that is to be done.

use call_base::layout::Layout;
use command_words::GenCommand;
use nf_base::func::Func;

/// What was asked for, the function, and the numbers of its files.
#[derive(Drop)]
pub(crate) struct Job<'a> {
    pub(crate) command: &'a GenCommand,
    pub(crate) func: &'a Func,
    pub(crate) layout: Layout,
}
