// Patterns by the numbers of their letters.
ghost use Rattle.std.specs.Prelude.{◌≡◌, ℕ, ◌+◌, ◌-◌, ◌^◌, ◌<◌, ◌≤◌, ◌⊎◌, List, [], ◌∷◌, ◌++◌, length, take, MatchResult, slice_index};
ghost use Rattle.faults.specs.Causes.{bad_length};
ghost use Rattle.lists.specs.Words.{Spells};

use crate::builder::LETTERS;
use faults::Fault;

// The numbers of a pattern's first 12 letters, and how many letters it has: an array and no `Vec`, since nothing here may
// allocate, and a count that may pass 12, since a refusal says it.
#[derive(Drop)]
pub(crate) struct Spelling {
    pub(crate) first: [u8; LETTERS],
    pub(crate) count: usize,
}

impl Spelling {
    pub(crate) fn new() -> Spelling
        ensures { Spells result.first result.count [] }
    {
        Spelling {
            first: [0; LETTERS],
            count: 0,
        }
    }

    // One letter more.
    pub(crate) fn push(&mut self, number: u8)
        requires { self.old.count + 1 < 2 ^ 64 }
        ensures { (p : List ℕ) → Spells self.old.first self.old.count p → Spells self.new.first self.new.count (p ++ (number ∷ [])) }
    {
        if self.count < LETTERS {
            self.first[self.count] = number;
        }
        self.count += 1;
    }

    // The word that they make, if a pattern may be as long.
    pub(crate) fn word(&self) -> Result<Word<'_>, Fault>
        ensures { MatchResult result
            (λ w. (1 ≤ self.now.count) × (self.now.count ≤ 12) × (w.letters.now ≡ take self.now.count self.now.first))
            (λ e. ((self.now.count ≡ 0) ⊎ (12 < self.now.count)) × (e ≡ bad_length self.now.count)) }
    {
        if self.count == 0 || self.count > LETTERS {
            return Err(Fault::BadLength(self.count));
        }
        Ok(Word {
            letters: &self.first[..self.count],
        })
    }
}

// A word as long as a pattern may be.
#[derive(Drop)]
pub(crate) struct Word<'a> {
    pub(crate) letters: &'a [u8],
    ghost some: { 1 ≤ length letters.now },
    ghost short: { length letters.now ≤ 12 },
}

impl Word<'_> {
    // The letters but the last.
    pub(crate) fn front(&self) -> &[u8]
        ensures { result.now ≡ take (length self.now.letters.now - 1) self.now.letters.now }
    {
        &self.letters[..self.letters.len() - 1]
    }

    pub(crate) fn last(&self) -> u8
        ensures { result ≡ slice_index self.now.letters.now (length self.now.letters.now - 1) }
    {
        self.letters[self.letters.len() - 1]
    }
}
