// What a finished list answers, as any automaton.
ghost use Rattle.std.specs.Prelude.{◌≡◌, ◌<◌};
ghost use Rattle.listlaw.proofs.Laws.{table-lawful};
ghost use Rattle.lists.specs.Lists.{bit};
ghost use Rattle.lists.specs.Finished.{stop_at, goes_to, wider};
ghost use Rattle.lists.specs.Meaning.{listed};

use crate::builder::STATES;
use crate::listed::Listed;
use automata::Automaton;
use letters::Letter;

// Whether the letter a is among the end marks.
fn marked(ends: u32, a: u8) -> bool
    requires { a < 32 }
    ensures { result ≡ bit ends a }
{
    ends >> a & 1 == 1
}

impl<'a, L: Letter> Listed<'a, L> {
    // How many patterns it took, repeats counted.
    pub fn patterns(&self) -> usize
        ensures { result ≡ self.now.taken }
    {
        self.taken
    }
}

impl<'a, L: Letter> Automaton for Listed<'a, L> {
    type Kind = L;

    ghost model = { λ s. listed L.Letter.alphabet s };

    ghost lawful = { λ s. table-lawful s.used s.columns (stop_at s.records.now s.columns s.taken) (goes_to s.words.now s.taken) s.memory s.built L.Letter.alphabet.number (wider s.used s.few) };

    fn states(&self) -> u16 {
        self.used
    }

    fn first(&self) -> u16 {
        0
    }

    fn step(&self, state: u16, letter: L) -> Option<u16> {
        let a = letter.number();
        if state >= self.used || a >= self.columns {
            return None;
        }
        if self.taken == 0 {
            return Some(0);
        }
        if marked(self.records[state as usize].ends, a) {
            return None;
        }
        Some(self.words[a as usize * STATES + state as usize])
    }

    fn memory(&self) -> u16 {
        self.memory
    }
}
