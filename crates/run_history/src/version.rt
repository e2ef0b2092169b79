//! The versions of a journal's format.
ghost use Rattle.std.specs.Prelude.{◌≡◌, ◌↔◌};
ghost use Rattle.nf_base.specs.Cards.{usual_card};
ghost use Rattle.run_history.specs.Headings.{version_of};
ghost use Rattle.run_history.specs.Line.{journal_title};

use nf_base::card::{Card, KeySize, TableSize};

/// A version of a journal's format.
#[derive(Clone, Copy, Debug, PartialEq, Eq)]
pub enum Version {
    /// 1, which tells no card: it is the usual one.
    First,
    /// 2, which tells any other card.
    Second,
}

impl Version {
    /// The version of a journal of a run with this card.
    pub fn of(card: Card) -> Version
        ensures value { result ≡ version_of card }
        ensures usual { (result ≡ Version.First) ↔ (card ≡ usual_card) }
    {
        match card {
            Card {
                table: TableSize::Entries128,
                key: KeySize::Bytes40,
            } => Version::First,
            _ => Version::Second,
        }
    }

    /// What a journal of this version begins with.
    #[tactic(auto, unfolding(crate::specs::Line::journal_title))]
    pub fn title(self) -> &'static [u8]
        ensures { result.now ≡ journal_title self }
    {
        match self {
            Version::First => b"maestro journal 1 ",
            Version::Second => b"maestro journal 2 ",
        }
    }
}
