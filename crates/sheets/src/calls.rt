// The calls of a sheet: opening, a letter, a gap and close. Each takes the law of a sheet, over every list of calls, to
// the longer list.
ghost use Rattle.std.specs.Prelude.{◌≡◌, ℕ, ◌*◌, List, [], ◌∷◌, length, replicate, Ok, Err, MatchResult};
ghost use Rattle.sheetlaw.specs.Calls.{Turn, gap as paused, letter as given, tally};
ghost use Rattle.sheetlaw.specs.Step.{opening, pauses, leaves_gap, needs, cleared, close as close_of};
ghost use Rattle.sheets.specs.Views.{contents, Keeps, Stands, answered, left_in, written_to};

use crate::deciding::MOST;
use crate::sheet::Sheet;
use crate::stage::Stage;
use crate::window::Window;
use automata::Automaton;
use faults::Fault;
use joins::Marks;
use letters::Letter;
use sheetlaw::{Answer, Counts, Event};

impl<S: Automaton> Sheet<S> {
    // Opens a sheet on an automaton, which it keeps, with windows of k letters, 2 to 12 and at least the memory. The law
    // then holds with no calls made, whatever text table comes first.
    pub fn open(automaton: S, k: u16) -> Result<Sheet<S>, Fault>
    where
        S: Drop,
        ensures { MatchResult result (λ s. (opening {K = S.Kind} (S.model automaton) k ≡ Ok (contents s)) × (s.k ≡ k) × (s.automaton ≡ automaton) × ((t : List S.Kind) → Stands S.Kind.Letter.alphabet S.model t [] s t)) (λ e. opening {K = S.Kind} (S.model automaton) k ≡ Err e) }
    {
        let k = k as usize;
        if k < 2 || k > 12 {
            return Err(Fault::BadWindow(k));
        }
        let memory = automaton.memory() as usize;
        if memory > k {
            return Err(Fault::LongMemory(memory));
        }
        let blank = S::Kind::from_number(0).unwrap();
        Ok(Sheet {
            automaton,
            k,
            stage: Stage::Opening,
            running: Window::empty(blank),
            taken: 0,
            counts: Counts {
                letters: 0,
                kept: 0,
                skipped: 0,
                text: 0,
                filled: 0,
            },
        })
    }

    // A letter over words that are as many as the search needs, and zero afterwards.
    fn within(
        &mut self,
        letter: S::Kind,
        text: &mut [S::Kind],
        words: &mut [u16],
    ) -> Result<Answer, Fault>
        requires { length words.old ≡ 4 * (S.model self.old.automaton).count }
        ensures answers { result ≡ answered S.Kind.Letter.alphabet S.model self.old letter (length words.old) (length text.old) }
        ensures leaves { contents self.new ≡ left_in S.Kind.Letter.alphabet S.model self.old letter (length words.old) (length text.old) }
        ensures writes { text.new ≡ written_to S.Kind.Letter.alphabet S.model self.old letter (length words.old) text.old }
        ensures words { words.new ≡ replicate (length words.old) 0 }
        ensures keeps { Keeps self.old self.new }
    {
        let marks = Marks { words };
        let plan = self.decide(letter, text.len(), marks.words)?;
        Ok(self.carry_out(letter, plan, text))
    }

    // Takes a letter of the trace. The text table gets the letters appended from the text's end on; any work table will
    // do that has four words for each state.
    pub fn letter(
        &mut self,
        letter: S::Kind,
        text: &mut [S::Kind],
        work: &mut [u16],
    ) -> Result<Answer, Fault>
        ensures answers { result ≡ answered S.Kind.Letter.alphabet S.model self.old letter (length work.old) (length text.old) }
        ensures leaves { contents self.new ≡ left_in S.Kind.Letter.alphabet S.model self.old letter (length work.old) (length text.old) }
        ensures writes { text.new ≡ written_to S.Kind.Letter.alphabet S.model self.old letter (length work.old) text.old }
        ensures work { work.new ≡ cleared (needs (S.model self.old.automaton)) work.old }
        ensures keeps { Keeps self.old self.new }
        ensures stands { (t0 : List S.Kind) (h : List (Turn S.Kind)) → Stands S.Kind.Letter.alphabet S.model t0 h self.old text.old → Stands S.Kind.Letter.alphabet S.model t0 (given letter work.old result work.new ∷ h) self.new text.new }
    {
        // A helper for the next lines would give back a part of the table, and have to promise what is written through it.
        let needed = 4 * self.automaton.states() as usize;
        if work.len() < needed {
            return Err(Fault::ShortWork(needed));
        }
        self.within(letter, text, &mut work[0..needed])
    }

    // Takes a gap of the trace: no letters run then.
    pub fn gap(&mut self) -> Result<(), Fault>
        ensures answers { result ≡ pauses (contents self.old) }
        ensures leaves { contents self.new ≡ leaves_gap (contents self.old) }
        ensures keeps { Keeps self.old self.new }
        ensures stands { (t0 : List S.Kind) (h : List (Turn S.Kind)) (t : List S.Kind) → Stands S.Kind.Letter.alphabet S.model t0 h self.old t → Stands S.Kind.Letter.alphabet S.model t0 (paused result ∷ h) self.new t }
    {
        if self.taken >= MOST {
            return Err(Fault::FullSheet);
        }
        self.advance(Event::Gap);
        Ok(())
    }

    // Closes the sheet, and says what it has counted: by the law, the letters taken, the windows kept and skipped, the
    // letters of the text and those filled in.
    pub fn close(self) -> Counts
    where
        S: Drop,
        ensures counts { result ≡ close_of (contents self) }
        ensures stands { (t0 : List S.Kind) (h : List (Turn S.Kind)) (t : List S.Kind) → Stands S.Kind.Letter.alphabet S.model t0 h self t → result ≡ tally (S.model self.automaton) self.k h }
    {
        self.counts
    }
}
