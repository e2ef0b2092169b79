//! The lines that sum a run up.
ghost use Rattle.std.specs.Prelude.{◌≡◌, ◌≤◌, ◌++◌, length, IfOk};
ghost use Rattle.nf_base.specs.Functions.{function_of};
ghost use Rattle.traffic_summary.specs.Summary.{numbers_text};
ghost use Rattle.command_words.specs.View as view;
ghost use Rattle.gen_call.specs.Runs.{left_lines};

use command_words::GenCommand;
use nf_base::func::Func;
use nf_base::state::State;
use run_history::line::Mode;
use std::alloc::{AllocError, Global};
use traffic_summary::{numbers, summary};

/// The lines on a run that left a state and so many records; in mode `lock` these are not told.
pub(crate) fn lines_on(
    alloc: Global,
    command: &GenCommand,
    func: &Func,
    mode: Mode,
    state: &State,
    sent: u64,
) -> Result<Vec<u8>, AllocError>
    requires { 1 ≤ length func.now.handlers }
    ensures { let c = view.gen command.now in IfOk result (λ text. text.items ≡
        numbers_text c.count (length func.now.handlers) mode c.workers
        ++ left_lines mode (function_of func.now) sent state.now) }
{
    match mode {
        Mode::Lock => numbers(
            alloc,
            command.count,
            func.handlers.len(),
            mode,
            command.workers,
        ),
        _ => summary(
            alloc,
            func,
            command.count,
            mode,
            command.workers,
            sent,
            state,
        ),
    }
}
