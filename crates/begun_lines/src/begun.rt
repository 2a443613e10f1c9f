//! Lines that are begun: what may still follow, in the room that is left.
ghost use Rattle.std.specs.Prelude.{◌≡◌, ◌≢◌, ◌+◌, ◌^◌, ◌<◌, ◌≤◌, ◌⊎◌, ◌↔◌, List, [], ◌∷◌, ◌++◌, ℕ, MatchOption, IsTrue, length};
ghost use Rattle.cost_base.specs.Words.{HasNoSpace};
ghost use Rattle.text_lines.specs.Numbers.{split};
ghost use Rattle.whole_numbers.specs.Fractions.{gcd};
ghost use Rattle.begun_lines.specs.BegunLines.{IsWordStep, IsNoStep, Becomes, Alone, IsNumberInRange, IsRatio};

use crate::numbers::{Numbers, missing_digits};
use crate::ratios::missing_of_ratio;
use answer_lines::after;
use text_lines::cut;

/// A line that is begun: what is left of it to read, and how many more bytes it has room for.
#[derive(Clone, Copy)]
pub(crate) struct Begun<'a> {
    pub(crate) text: &'a [u8],
    pub(crate) room: usize,
}

impl<'a> Begun<'a> {
    /// What follows this name, where the next word is it or begins it.
    pub(crate) fn name(self, wanted: &[u8]) -> Option<Begun<'a>>
        requires { HasNoSpace wanted.now }
        ensures { MatchOption result (IsNoStep (λ w. w ≡ wanted.now) self.entry)
            (λ after. IsWordStep (λ w. w ≡ wanted.now) self.entry after) }
    {
        let missing = after(wanted, self.first_word())?;
        self.behind(missing.len())
    }

    /// Whether the line may end with this name.
    pub(crate) fn last_name(self, wanted: &[u8]) -> bool
        requires { HasNoSpace wanted.now }
        ensures { IsTrue result ↔ Becomes (Alone (λ w. w ≡ wanted.now)) self.entry }
    {
        match after(wanted, self.first_word()) {
            Some(missing) => self.ends(missing.len()),
            None => false,
        }
    }

    /// What follows a number, where the next word is one of these or begins one.
    pub(crate) fn number(self, numbers: Numbers) -> Option<Begun<'a>>
        requires coprime { gcd numbers.coprime_to numbers.least ≡ 1 }
        requires fits { numbers.greatest < 2 ^ 128 }
        ensures { MatchOption result (IsNoStep (IsNumberInRange numbers) self.entry)
            (λ after. IsWordStep (IsNumberInRange numbers) self.entry after) }
    {
        let missing = missing_digits(self.first_word(), numbers)?;
        self.behind(missing)
    }

    /// Whether the line may end with one of these numbers.
    pub(crate) fn last_number(self, numbers: Numbers) -> bool
        requires coprime { gcd numbers.coprime_to numbers.least ≡ 1 }
        requires fits { numbers.greatest < 2 ^ 128 }
        ensures { IsTrue result ↔ Becomes (Alone (IsNumberInRange numbers)) self.entry }
    {
        match missing_digits(self.first_word(), numbers) {
            Some(missing) => self.ends(missing),
            None => false,
        }
    }

    /// What follows a fraction, where the next word is one or begins one.
    pub(crate) fn ratio(self) -> Option<Begun<'a>>
        ensures { MatchOption result (IsNoStep IsRatio self.entry)
            (λ after. IsWordStep IsRatio self.entry after) }
    {
        let missing = missing_of_ratio(self.first_word())?;
        self.behind(missing)
    }

    /// The next word, as far as it stands.
    fn first_word(self) -> &'a [u8]
        ensures { (rest : List (List ℕ)) × (split 32 self.entry.text.now ≡ result.now ∷ rest) }
    {
        match cut(self.text, b' ') {
            Some((word, _)) => word,
            None => self.text,
        }
    }

    /// What follows the next word, which lacks so many bytes. With a space behind it a word must lack none.
    fn behind(self, missing: usize) -> Option<Begun<'a>>
        ensures { MatchOption result (((split 32 self.entry.text.now ≢ self.entry.text.now ∷ []) ×
            (missing ≢ 0)) ⊎ ((split 32 self.entry.text.now ≡ self.entry.text.now ∷ []) ×
            (self.entry.room < missing + 1)))
            (λ after. ((word : List ℕ) × (self.entry.text.now ≡ word ++ 32 ∷ after.text.now) ×
            (split 32 self.entry.text.now ≡ word ∷ split 32 after.text.now) × (missing ≡ 0) ×
            (after.room ≡ self.entry.room)) ⊎
            ((split 32 self.entry.text.now ≡ self.entry.text.now ∷ []) × (after.text.now ≡ []) ×
            (after.room + missing + 1 ≡ self.entry.room))) }
    {
        match cut(self.text, b' ') {
            Some((_, text)) => {
                if missing == 0 {
                    Some(Begun {
                        text,
                        room: self.room,
                    })
                } else {
                    None
                }
            }
            None => {
                let room = self.room.checked_sub(missing)?.checked_sub(1)?;
                Some(Begun { text: &[], room })
            }
        }
    }

    /// Whether the line may end with the next word, which lacks so many bytes.
    fn ends(self, missing: usize) -> bool
        ensures { IsTrue result ↔ ((split 32 self.entry.text.now ≡ self.entry.text.now ∷ []) ×
            (missing ≤ self.entry.room)) }
    {
        match cut(self.text, b' ') {
            Some(_) => false,
            None => missing <= self.room,
        }
    }
}
