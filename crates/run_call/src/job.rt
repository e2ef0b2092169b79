//! A run that is to be done.

use crate::worker_plan::WorkerPlan;
use call_base::layout::Layout;
use command_words::RunCommand;
use nf_base::func::Func;

/// A run that is to be done: what was asked for, the function, who handles the packets, and the numbers
/// of its files.
#[derive(Drop)]
pub struct Job<'a> {
    pub command: &'a RunCommand,
    pub func: &'a Func,
    pub worker_plan: &'a WorkerPlan,
    pub layout: Layout,
}
