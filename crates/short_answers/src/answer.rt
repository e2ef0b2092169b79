//! What packets came to: an action alone, or one of the answers that are kept whole.
ghost use Rattle.std.specs.Prelude.{◌≡◌, ◌<◌, ◌≤◌, ◌+◌, ◌^◌, [], length, IsTrue};
ghost use Rattle.std.specs.Vec.{vec_len, vec_capacity};
ghost use mathlib.Core.List.{IsPrefix};
ghost use Rattle.nf_base.specs.Step.{no_edits};
ghost use Rattle.short_answers.specs.Answers.{plain, answer_in, IsThere};

use nf_base::done::{Action, Done, Edits};
use nf_base::picks::Picks;

/// What a packet came to, as it is kept.
#[derive(Clone, Copy, Debug, PartialEq, Eq)]
pub enum Answer {
    /// An action alone.
    Plain(Action),
    /// The answer at this place among those that are kept whole.
    Whole(u32),
}

/// What a packet came to, as it is told.
#[derive(Clone, Copy, Debug)]
pub enum Told<'a> {
    /// An action alone: no field is edited, and no entry is made.
    Plain(Action),
    /// All that it came to.
    Whole(&'a Done),
}

/// An answer that is an action alone.
pub fn plain(action: Action) -> Done
    ensures { result ≡ plain action }
{
    Done {
        action,
        edits: Edits::none(),
        picks: Picks::new(),
    }
}

// Whether no field is given a value.
fn are_none(edits: &Edits) -> bool
    ensures { IsTrue result → edits.now ≡ no_edits }
{
    match edits {
        Edits {
            src_mac: None,
            dst_mac: None,
            src_ip: None,
            dst_ip: None,
            src_ip6: None,
            dst_ip6: None,
            ttl: None,
            src_port: None,
            dst_port: None,
        } => true,
        _ => false,
    }
}

// Whether an answer with these is no more than its action.
fn is_alone(edits: &Edits, picks: &Picks) -> bool
    ensures edits { IsTrue result → edits.now ≡ no_edits }
    ensures picks { IsTrue result → picks.now ≡ [] }
{
    picks.len() == 0 && are_none(edits)
}

/// Keeps what a packet came to, which is put behind the answers that are kept whole where it is more
/// than an action.
pub fn keep(whole: &mut Vec<Done>, action: Action, edits: &Edits, picks: &Picks) -> Answer
    requires room { vec_len whole.old < vec_capacity whole.old }
    requires few { vec_len whole.old < 2 ^ 32 }
    ensures there { IsThere (length whole.new.items) result }
    ensures is { answer_in whole.new.items result
        ≡ record { action = action; edits = edits.now; picks = picks.now } }
    ensures begins { IsPrefix whole.old.items whole.new.items }
    ensures len { vec_len whole.new ≤ vec_len whole.old + 1 }
    ensures capacity { vec_capacity whole.new ≡ vec_capacity whole.old }
{
    if is_alone(edits, picks) {
        return Answer::Plain(action);
    }
    let place = whole.len() as u32;
    whole.push_reserved(Done {
        action,
        edits: *edits,
        picks: picks.again(),
    });
    Answer::Whole(place)
}
