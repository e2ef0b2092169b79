//! What a checker has still to do, the next thing last. Trees are checked without a recursion.
ghost use Rattle.std.specs.Prelude.{◌≡◌, ◌∷◌, [], All, Some, None, length};
ghost use Rattle.certificate_check.specs.declared.tasks.Ask.{Ask};
ghost use Rattle.certificate_check.specs.Tasks.{due_of_ask, due_of, IsWithin};

/// What is asked of the next line.
#[derive(Clone, Copy)]
pub enum Ask {
    /// The line that names a bit.
    Name { place: u32 },
    Tree,
    /// The sum of a clash.
    Clash,
    /// The sum of a place of a span, which so many follow.
    Zeros { place: u32, further: u32 },
}

/// A thing to do.
#[derive(Clone, Copy)]
pub enum Task {
    /// A bit is fixed, or no longer.
    Fix { place: u32, value: Option<bool> },
    Ask(Ask),
}

/// Goes on to what is asked next.
#[tactic(auto, using(crate::proofs::Doing::on_none, crate::proofs::Doing::on_fixed, crate::proofs::Doing::fix_within, crate::proofs::Doing::on_asked, crate::proofs::Doing::rest_within, crate::proofs::Doing::asked_within, crate::proofs::Doing::on_left))]
pub fn next(fixed: &mut [Option<bool>], tasks: &mut Vec<Task>) -> Option<Ask>
    requires { All (IsWithin (length fixed.old)) tasks.old.items }
    ensures length { length fixed.new ≡ length fixed.old }
    ensures within { All (IsWithin (length fixed.old)) tasks.new.items }
    ensures none { result ≡ None → due_of fixed.old tasks.old.items ≡ [] }
    ensures some { (ask : Ask) → result ≡ Some ask →
        due_of fixed.old tasks.old.items
        ≡ due_of_ask fixed.new ask ∷ due_of fixed.new tasks.new.items }
    ensures asked { (ask : Ask) → result ≡ Some ask → IsWithin (length fixed.old) (Task.Ask ask) }
{
    while let Some(task) = tasks.pop() {
        match task {
            Task::Fix { place, value } => fixed[place as usize] = value,
            Task::Ask(ask) => return Some(ask),
        }
    }
    None
}
