// Deciding what a letter will do: nothing is changed but the words of the search.
ghost use Rattle.std.specs.Prelude.{◌≡◌, ℕ, ◌+◌, ◌*◌, ◌<◌, ◌≤◌, true, length, Some, Ok};
ghost use Rattle.joins.specs.Ways.{added};
ghost use Rattle.joins.specs.declared.ways.Way.{Way};
ghost use Rattle.sheetlaw.specs.Step.{window as window_of, needs, row_to, decide as decide_of};
ghost use Rattle.sheetlaw.specs.NextRow.{row_of};
ghost use Rattle.sheets.specs.Stages.{shown, latest, full};
ghost use Rattle.sheets.specs.Plans.{PlanIs, RowIs};
ghost use Rattle.sheets.specs.Views.{contents};
ghost use Rattle.sheets.specs.declared.plan.Plan.TheVariants.{Keep};

use crate::plan::Plan;
use crate::sheet::Sheet;
use crate::stage::Stage;
use crate::window::Window;
use automata::{Automaton, walk};
use faults::Fault;
use joins::{Search, Way};

// The most letters and gaps that a sheet takes.
pub(crate) const MOST: usize = 50000;

impl<S: Automaton> Sheet<S> {
    // The running window with a letter more.
    pub(crate) fn window(&self, letter: S::Kind) -> Window<S::Kind>
        ensures letters { shown result ≡ window_of self.now.k (contents self.now) letter }
        ensures held { (result.held ≤ self.now.k) × (1 ≤ result.held) }
        ensures whole { full self.now.stage ≡ true → result.held ≡ self.now.k }
    {
        let mut window = self.running;
        match self.stage {
            Stage::Opening | Stage::Resuming(_) => window.push(letter),
            Stage::Seeking | Stage::Going(_) => window.shift(letter),
        }
        window
    }

    // The way from the last kept window to the next one: fewer letters are filled in than an automaton can have states.
    // The first kept window becomes the text.
    fn way_to<'w>(&self, window: &Window<S::Kind>, words: &'w mut [u16]) -> Option<Way<'w>>
        requires whole { window.now.held ≡ self.now.k }
        requires work { length words.old ≡ 4 * (S.model self.now.automaton).count }
        ensures row { RowIs S.Kind.Letter.alphabet (shown window.now) result (row_to (row_of S.Kind.Letter.alphabet (S.model self.now.automaton)) (latest self.now.stage) (shown window.now)) }
        ensures few { (way : Way) → result ≡ Some way → added (length (shown window.now)) way < 4096 + length (shown window.now) }
    {
        match self.stage.last() {
            Some(last) => {
                let search = Search::over(&self.automaton, words);
                search.find(last.letters(), window.letters(), self.k - 1)
            }
            None => Some(Way::Overlap(0)),
        }
    }

    // What a letter will do, on a text table with so much room, or why it is refused.
    pub(crate) fn decide<'w>(
        &self,
        letter: S::Kind,
        room: usize,
        words: &'w mut [u16],
    ) -> Result<Plan<'w>, Fault>
        requires { length words.old ≡ 4 * (S.model self.now.automaton).count }
        ensures plan { PlanIs S.Kind.Letter.alphabet self.now.k (window_of self.now.k (contents self.now) letter) self.now.counts.text room result (decide_of (S.model self.now.automaton) self.now.k (row_of S.Kind.Letter.alphabet (S.model self.now.automaton)) (needs (S.model self.now.automaton)) room (contents self.now) letter) }
        ensures few { (way : Way) (appended : ℕ) → result ≡ Ok (Keep way appended) → appended < 4096 + self.now.k }
    {
        if self.taken >= MOST {
            return Err(Fault::FullSheet);
        }
        let window = self.window(letter);
        if window.held < self.k {
            return Ok(Plan::Wait);
        }
        if walk(&self.automaton, self.automaton.first(), window.letters()).is_none() {
            return Ok(Plan::Skip);
        }
        let Some(way) = self.way_to(&window, words) else {
            return Err(Fault::NoString(self.taken));
        };
        let appended = way.added(window.held);
        let end = self.counts.text + appended;
        if end > room {
            return Err(Fault::ShortText(end));
        }
        Ok(Plan::Keep { way, appended })
    }
}
