// Patterns that are given as letters, or read from bytes.
ghost use Rattle.std.specs.Prelude.{◌≡◌, ℕ, map, Some, None, MatchResult};
ghost use Rattle.faults.specs.Causes.{no_letter};
ghost use Rattle.texts.specs.Texts.{reading, stray, spelled};
ghost use Rattle.lists.specs.Words.{Spells};

use crate::word::Spelling;
use faults::Fault;
use letters::{Letter, Printable};

impl Spelling {
    pub(crate) fn of<L: Letter>(pattern: &[L]) -> Spelling
        ensures { Spells result.first result.count (map L.Letter.alphabet.number pattern.now) }
    {
        let mut spelling = Spelling::new();
        for letter in pattern {
            spelling.push(letter.number());
        }
        spelling
    }

    // Every byte has to be a letter.
    pub(crate) fn read<L: Printable>(bytes: &[u8]) -> Result<Spelling, Fault>
        ensures { MatchResult result
            (λ s. (stray (reading L.Letter.alphabet L.Printable.parsed) bytes.now ≡ None)
            × Spells s.first s.count (map L.Letter.alphabet.number (spelled (reading L.Letter.alphabet L.Printable.parsed) bytes.now)))
            (λ e. (i : ℕ) × ((stray (reading L.Letter.alphabet L.Printable.parsed) bytes.now ≡ Some i) × (e ≡ no_letter i))) }
    {
        let mut spelling = Spelling::new();
        for (i, byte) in bytes.iter().enumerate() {
            let Some(letter) = L::from_byte(*byte) else {
                return Err(Fault::NoLetter(i));
            };
            spelling.push(letter.number());
        }
        Ok(spelling)
    }
}
