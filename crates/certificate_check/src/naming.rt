//! What has to be done where each bit of a vector that isn't the wanted one is named.
ghost use Rattle.std.specs.Prelude.{◌≡◌, ◌≤◌, ◌++◌, [], All, OnOk, length};
ghost use Rattle.gf2_solve.specs.Sums.{bit};
ghost use Rattle.certificate_laws.specs.Fixed.{none_fixed};
ghost use Rattle.certificate_laws.specs.Due.{nots};
ghost use Rattle.certificate_check.specs.Tasks.{due_of, IsWithin};
ghost use Rattle.certificate_check.specs.Naming.{bit_tasks};

use crate::tasks::{Ask, Task};
use std::alloc::AllocError;

/// Puts what has to be done for a bit behind other tasks, the next thing last: where it isn't the
/// wanted one, it is named, and a tree with the wanted one follows; then it is fixed to its own.
fn push_bit(tasks: &mut Vec<Task>, place: u32, wanted: bool, own: bool) -> Result<(), AllocError>
    ensures { OnOk result (tasks.new.items ≡ tasks.old.items ++ bit_tasks place wanted own) }
{
    tasks.push(Task::Fix {
        place,
        value: Some(own),
    })?;
    if own ^ wanted {
        tasks.push(Task::Ask(Ask::Tree))?;
        tasks.push(Task::Fix {
            place,
            value: Some(wanted),
        })?;
        tasks.push(Task::Ask(Ask::Name { place }))?;
    }
    Ok(())
}

/// Puts what has to be done for all bits of a vector that count.
#[tactic(auto, using(crate::proofs::Vectors::named_none, crate::proofs::Vectors::named_more, crate::proofs::Vectors::named_left, crate::proofs::Vectors::named_all))]
pub fn push_nots(
    tasks: &mut Vec<Task>,
    counted: &[bool],
    wanted: &[bool],
    x: &[bool],
) -> Result<(), AllocError>
    requires none { tasks.old.items ≡ [] }
    requires few { length x.now ≤ 65536 }
    requires counted { length counted.now ≡ length x.now }
    requires wanted { length wanted.now ≡ length x.now }
    ensures within { OnOk result (All (IsWithin (length x.now)) tasks.new.items) }
    ensures due { OnOk result (due_of (none_fixed (length x.now)) tasks.new.items
        ≡ nots (bit counted.now) (length x.now) wanted.now x.now (length x.now) 0) }
{
    let mut place = x.len();
    while place > 0 {
        place -= 1;
        if counted[place] {
            push_bit(tasks, place as u32, wanted[place], x[place])?;
        }
    }
    Ok(())
}
