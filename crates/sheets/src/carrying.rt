// Carrying out what was decided.
ghost use Rattle.std.specs.Prelude.{◌≡◌, ◌<◌, length};
ghost use Rattle.sheetlaw.specs.Step.{window as window_of, answer as answer_of, carry as carry_of, append as append_of};
ghost use Rattle.sheets.specs.Plans.{planned, Ready, moved};
ghost use Rattle.sheets.specs.Views.{contents, Keeps};

use crate::plan::Plan;
use crate::sheet::Sheet;
use crate::stage::Stage;
use automata::Automaton;
use sheetlaw::{Answer, Event};

impl<S: Automaton> Sheet<S> {
    // Takes a letter or a gap: the running letters change, and with them the stage. Inlined, since rewriting was slower with
    // a call. `Seeking` and `Going` have an arm each for a letter, since a pattern of both that binds it gets no proof;
    // `Opening` and `Resuming`, since they lead to two stages.
    #[inline(always)]
    pub(crate) fn advance(&mut self, event: Event<S::Kind>)
        requires few { self.old.taken < 50000 }
        ensures leaves { contents self.new ≡ moved self.old.k (contents self.old) event }
        ensures keeps { Keeps self.old self.new }
    {
        self.taken += 1;
        match (self.stage, event) {
            (Stage::Opening, Event::Letter(letter)) => {
                let window = self.window(letter);
                self.running = window;
                if window.held == self.k {
                    self.stage = Stage::Seeking;
                }
            }
            (Stage::Resuming(last), Event::Letter(letter)) => {
                let window = self.window(letter);
                self.running = window;
                if window.held == self.k {
                    self.stage = Stage::Going(last);
                }
            }
            (Stage::Seeking, Event::Letter(letter)) => self.running = self.window(letter),
            (Stage::Going(_), Event::Letter(letter)) => self.running = self.window(letter),
            (Stage::Opening, Event::Gap) | (Stage::Resuming(_), Event::Gap) => self.running.clear(),
            (Stage::Seeking, Event::Gap) => {
                self.running.clear();
                self.stage = Stage::Opening;
            }
            (Stage::Going(last), Event::Gap) => {
                self.running.clear();
                self.stage = Stage::Resuming(last);
            }
        }
    }

    // Takes the letter as planned, and writes the row of a kept window from the text's end on.
    pub(crate) fn carry_out(&mut self, letter: S::Kind, plan: Plan, text: &mut [S::Kind]) -> Answer
        requires few { self.old.taken < 50000 }
        requires ready { Ready S.Kind.Letter.alphabet self.old.k (window_of self.old.k (contents self.old) letter) self.old.counts.text (length text.old) plan }
        ensures answers { result ≡ answer_of self.old.k (planned S.Kind.Letter.alphabet (window_of self.old.k (contents self.old) letter) plan.entry) }
        ensures leaves { contents self.new ≡ carry_of self.old.k (contents self.old) letter (planned S.Kind.Letter.alphabet (window_of self.old.k (contents self.old) letter) plan.entry) }
        ensures writes { text.new ≡ append_of (contents self.old) text.old (planned S.Kind.Letter.alphabet (window_of self.old.k (contents self.old) letter) plan.entry) }
        ensures keeps { Keeps self.old self.new }
    {
        let at = self.counts.text;
        let counts = plan.count(self.k, self.counts);
        self.advance(Event::Letter(letter));
        self.counts = counts;
        match plan {
            Plan::Wait => Answer::Pending,
            Plan::Skip => Answer::Skipped,
            Plan::Keep { way, appended } => {
                let window = self.running;
                self.stage = Stage::Going(window);
                way.write(window.letters(), text, at, at + appended);
                Answer::Kept {
                    appended,
                    filled: appended.saturating_sub(self.k),
                }
            }
        }
    }
}
