//! The atomic actions on one word.

ghost use Rattle.std.specs.Prelude.{◌≡◌, ◌↔◌, IsTrue};
ghost use Rattle.word_table.specs.Actions.{after_action, found_by, IsLost};

use crate::name::WordName;

/// One atomic action on one word.
#[derive(Clone, Copy, Debug, PartialEq, Eq)]
pub enum Action {
    /// Reads the word.
    Load(WordName),
    /// Writes the word.
    Store(WordName, u64),
    /// Compares the word with the first number, and where they are equal writes the second.
    Cas(WordName, u64, u64),
    /// Writes the word, whatever it was.
    Swap(WordName, u64),
    /// Keeps those bits of the word that the number has.
    And(WordName, u64),
}

/// What an action found.
#[derive(Clone, Copy, Debug, PartialEq, Eq)]
pub struct Found {
    /// The word before the action.
    pub value: u64,
    /// False for an exchange whose expected word differed; nothing was written then.
    pub won: bool,
}

/// The word after an action, and what the action found.
pub fn apply(action: &Action, word: u64) -> (u64, Found)
    ensures word { result.0 ≡ after_action action.now word }
    ensures found { result.1 ≡ found_by action.now word }
    ensures lost { IsTrue result.1.won ↔ (¬ IsLost action.now word) }
{
    let (after, won) = match *action {
        Action::Load(_) => (word, true),
        Action::Store(_, new) | Action::Swap(_, new) => (new, true),
        Action::Cas(_, expected, new) if word == expected => (new, true),
        Action::Cas(..) => (word, false),
        Action::And(_, mask) => (word & mask, true),
    };
    (after, Found { value: word, won })
}
