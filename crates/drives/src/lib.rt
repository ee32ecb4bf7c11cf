// Giving a sheet a whole trace.
#![tactic(auto)]

ghost use Rattle.std.specs.Prelude.{◌≡◌, List, length};
ghost use Rattle.sheetlaw.specs.Calls.{Turn};
ghost use Rattle.sheetlaw.specs.Step.{needs};
ghost use Rattle.sheetlaw.specs.Runs.{turns};
ghost use Rattle.sheetlaw.specs.NextRow.{row_of};
ghost use Rattle.sheets.specs.Views.{contents, Keeps, Stands};
ghost use Rattle.drives.specs.Traces.{brought, left_over, driven};

use automata::Automaton;
use sheetlaw::Event;
use sheets::Sheet;

// Gives the letters and gaps of a trace in their order, and goes on past those that are refused. What the sheet and the
// tables hold then is what the definitions of a call give for the whole list, one after another; and the law holds on.
pub fn follow<S: Automaton>(
    sheet: &mut Sheet<S>,
    events: &[Event<S::Kind>],
    text: &mut [S::Kind],
    work: &mut [u16],
)
    ensures keeps { Keeps sheet.old sheet.new }
    ensures work { work.new ≡ left_over (needs (S.model sheet.old.automaton)) work.old events.now }
    ensures leaves { (contents sheet.new, text.new) ≡ driven (S.model sheet.old.automaton) sheet.old.k (row_of S.Kind.Letter.alphabet (S.model sheet.old.automaton)) (length work.old) (contents sheet.old, text.old) events.now }
    ensures stands { (t0 : List S.Kind) (h : List (Turn S.Kind)) → Stands S.Kind.Letter.alphabet S.model t0 h sheet.old text.old → Stands S.Kind.Letter.alphabet S.model t0 (turns (S.model sheet.old.automaton) sheet.old.k (row_of S.Kind.Letter.alphabet (S.model sheet.old.automaton)) t0 h (brought (needs (S.model sheet.old.automaton)) work.old events.now)) sheet.new text.new }
{
    for event in events {
        match *event {
            Event::Letter(letter) => {
                let _ = sheet.letter(letter, text, work);
            }
            Event::Gap => {
                let _ = sheet.gap();
            }
        }
    }
}
