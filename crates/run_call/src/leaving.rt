//! What a run leaves once its packets are handled: the text of its last state, and the line on it.
ghost use Rattle.std.specs.Prelude.{◌≡◌, ◌+◌, ℕ};
ghost use Rattle.nf_base.specs.declared.state.State.{State as RunState};
ghost use Rattle.lock_mode.specs.Gates.{Rose};
ghost use Rattle.call_base.specs.Outside.{Outside, seen};
ghost use Rattle.run_call.specs.Ending.{RunsTo};
ghost use Rattle.run_call.specs.Runs.{left_by};
ghost use Rattle.run_call.specs.Progress as progress;
ghost use Rattle.run_call.specs.Progress.{IsJob, HasRun, asked, ports_of};

use crate::job::Job;
use call_base::finishing::{finish, print_lines};
use call_base::status::{End, Halt};
use call_base::text::ran_line;
use nf_files::Files;
use run_history::line::Mode;
use std::alloc::Global;
use stream_run::{Ending, Ran};

// How a run ends, by how its packets ended and by the first torn capture.
fn end_of(most: u32, ending: Ending, tear: Option<(u32, u64)>) -> End
    ensures { result ≡ progress.end_of most ending tear }
{
    match (ending, tear) {
        (Ending::TooMany, _) => End::TooMany { most },
        (Ending::All, None) => End::Whole,
        (Ending::All, Some((port, offset))) => End::Torn { port, offset },
    }
}

/// Says how many packets there were before a share stop, which leaves no state.
pub(crate) fn print_ran<F: Files>(
    files: &mut F,
    job: &Job,
    mode: Mode,
    packets: u32,
    end: End,
) -> Result<End, Halt>
    ghost before: { Outside }
    requires job { IsJob before.told job.now }
    requires stateless { left_by (ports_of job.now) end ≡ ports_of job.now + 1 }
    // Whatever the gate to the tables counted, it stays so.
    ensures runs { (old new : ℕ) → (state : RunState) →
        HasRun (Rose old new) before (seen (F.told files.old) (F.counted files.old)) job.now mode
        packets state end →
        RunsTo (Rose old new) (asked job.now) before (seen (F.told files.new) (F.counted files.new)) result }
{
    let line = ran_line(packets, mode, job.command.workers);
    match print_lines(files, line.as_slice()) {
        Ok(()) => Ok(end),
        Err(stop) => Err(job.layout.halt(stop)),
    }
}

/// Leaves the last state of a run that was in this mode, and says how many packets there were. The
/// number that was given last is that of the journal.
pub(crate) fn leave_ran<F: Files>(
    alloc: Global,
    files: &mut F,
    job: &Job,
    mode: Mode,
    ran: &Ran,
    tear: Option<(u32, u64)>,
    last: u32,
) -> Result<End, Halt>
    ghost before: { Outside }
    requires job { IsJob before.told job.now }
    requires last { (F.told files.old).next ≡ last + 1 }
    ensures runs { (old new : ℕ) →
        let end = progress.end_of (asked job.now).most ran.now.ending tear in
        HasRun (Rose old new) before (seen (F.told files.old) (F.counted files.old)) job.now mode
        ran.now.packets ran.now.state end →
        RunsTo (Rose old new) (asked job.now) before (seen (F.told files.new) (F.counted files.new)) result }
{
    let end = end_of(job.command.most, ran.ending, tear);
    let line = ran_line(ran.packets, mode, job.command.workers);
    let out = &job.command.out;
    match finish(
        alloc,
        files,
        job.func,
        job.command.format,
        out,
        &ran.state,
        line.as_slice(),
        last,
    ) {
        Ok(()) => Ok(end),
        Err(stop) => Err(job.layout.halt(stop)),
    }
}
