//! How many look-ups may still come in a handler.

ghost use Rattle.std.specs.Prelude.{◌≡◌};
ghost use Rattle.nf_tree.specs.View.{question_of};
ghost use Rattle.nf_types.specs.Counts.{whole_room, behind_question, behind_new};

use nf_tree::Question;

/// How many `get`, `find` and `new` together a handler may have.
const MOST_LOOKUPS: u32 = 32;

/// How many `new` a handler may have.
const MOST_NEWS: u32 = 16;

/// What may still come in a handler.
#[derive(Clone, Copy, Debug, PartialEq, Eq)]
pub struct Room {
    /// How many `get`, `find` and `new` together.
    pub lookups: u32,
    /// How many `new`.
    pub news: u32,
}

impl Room {
    /// What may come in a whole handler.
    pub fn whole() -> Room
        ensures { result ≡ whole_room }
    {
        Room {
            lookups: MOST_LOOKUPS,
            news: MOST_NEWS,
        }
    }

    /// What may still come behind a question.
    pub fn behind_question(self, question: &Question) -> Room
        ensures { result ≡ behind_question self (question_of question.now) }
    {
        match question {
            Question::Test { .. } => self,
            Question::Get { .. } => Room {
                lookups: self.lookups.saturating_sub(1),
                news: self.news,
            },
            Question::Find { .. } => Room {
                lookups: self.lookups.saturating_sub(1),
                news: self.news,
            },
        }
    }

    /// What may still come behind a `new`.
    pub fn behind_new(self) -> Room
        ensures { result ≡ behind_new self }
    {
        Room {
            lookups: self.lookups.saturating_sub(1),
            news: self.news.saturating_sub(1),
        }
    }
}
