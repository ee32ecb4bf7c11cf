// A trace given to a sheet, with a line for every call.
ghost use Rattle.std.specs.Prelude.{◌≡◌, List, [], ◌∷◌, length, take, position};
ghost use Rattle.std.specs.Option.{is_none};
ghost use Rattle.pages.specs.Pages.{Wrote};
ghost use Rattle.sheetlaw.specs.Calls.{Turn};
ghost use Rattle.sheetlaw.specs.Step.{needs};
ghost use Rattle.sheets.specs.Views.{Keeps, Stands};
ghost use Rattle.drives.specs.Traces.{left_over};
ghost use Rattle.texts.specs.Texts.{reading, stray as stray_in, unless_stray};
ghost use Rattle.stepping.specs.Replies.{turn_line, step_lines, is_taken, all_taken};
ghost use Rattle.stepping.specs.Steps.{event as event_of, events};
ghost use Rattle.stepping.specs.OnSheets.{call_on, calls_after};

use crate::answers::{show_gap, show_letter};
use automata::Automaton;
use faults::Fault;
use files::GAP;
use letters::{Letter, Printable};
use pages::Page;
use sheetlaw::Event;
use sheets::Sheet;

// The letter or gap that a byte of a trace is.
fn read_event<L: Printable>(byte: u8) -> Option<Event<L>>
    ensures { result ≡ event_of (reading L.Letter.alphabet L.Printable.parsed) byte }
{
    if byte == GAP {
        return Some(Event::Gap);
    }
    L::from_byte(byte).map(|letter| Event::Letter(letter))
}

// The place of the first byte of a trace that is neither a letter nor a gap, or None.
fn stray<L: Printable>(trace: &[u8]) -> Option<usize>
    ensures { result ≡ position (λ b. is_none (event_of (reading L.Letter.alphabet L.Printable.parsed) b)) trace.now }
{
    trace.iter().position(|b| read_event::<L>(*b).is_none())
}

// Refuses a trace that has a byte that is neither.
pub(crate) fn check_trace<L: Printable>(trace: &[u8]) -> Result<(), Fault>
    ensures { result ≡ unless_stray (stray_in (event_of (reading L.Letter.alphabet L.Printable.parsed)) trace.now) tt }
{
    match stray::<L>(trace) {
        Some(place) => Err(Fault::NoLetter(place)),
        None => Ok(()),
    }
}

// Gives the sheet a letter or a gap, writes the line of its answer, and answers whether it was taken.
fn step<S: Automaton>(
    sheet: &mut Sheet<S>,
    place: usize,
    event: Event<S::Kind>,
    text: &mut [S::Kind],
    work: &mut [u16],
    page: &mut Page<'_>,
) -> bool
where
    S::Kind: Printable,
    ensures page { Wrote page.old page.new (turn_line S.Kind.Letter.alphabet S.Kind.Printable.printed place (call_on S.Kind.Letter.alphabet S.model sheet.old text.old work.old event)) }
    ensures taken { result ≡ is_taken (call_on S.Kind.Letter.alphabet S.model sheet.old text.old work.old event) }
    ensures work { work.new ≡ left_over (needs (S.model sheet.old.automaton)) work.old (event ∷ []) }
    ensures keeps { Keeps sheet.old sheet.new }
    ensures stands { (t0 : List S.Kind) (h : List (Turn S.Kind)) → Stands S.Kind.Letter.alphabet S.model t0 h sheet.old text.old → Stands S.Kind.Letter.alphabet S.model t0 (call_on S.Kind.Letter.alphabet S.model sheet.old text.old work.old event ∷ h) sheet.new text.new }
{
    match event {
        Event::Letter(letter) => {
            let answer = sheet.letter(letter, text, work);
            show_letter(place, letter.byte(), answer, page)
        }
        Event::Gap => {
            let answer = sheet.gap();
            show_gap(place, answer, page)
        }
    }
}

// Gives the sheet the letters and gaps of a trace in their order, and goes on past those that are refused. Writes the line
// of each, and answers whether all were taken. Bytes that are neither are passed over. The law goes over to the longer list
// of calls, of which the latest are those whose lines are written.
//
// Places are counted by hand, since a `filter_map` to letters of the kind gets no proof.
pub fn step_through<S: Automaton>(
    sheet: &mut Sheet<S>,
    trace: &[u8],
    text: &mut [S::Kind],
    work: &mut [u16],
    page: &mut Page<'_>,
) -> bool
where
    S::Kind: Printable,
    ensures page { (t0 : List S.Kind) (h : List (Turn S.Kind)) → Stands S.Kind.Letter.alphabet S.model t0 h sheet.old text.old → Wrote page.old page.new (step_lines S.Kind.Letter.alphabet S.Kind.Printable.printed (take (length (events (reading S.Kind.Letter.alphabet S.Kind.Printable.parsed) trace.now)) (calls_after S.Kind.Letter.alphabet S.model sheet.old work.old (events (reading S.Kind.Letter.alphabet S.Kind.Printable.parsed) trace.now) t0 h))) }
    ensures taken { (t0 : List S.Kind) (h : List (Turn S.Kind)) → Stands S.Kind.Letter.alphabet S.model t0 h sheet.old text.old → result ≡ all_taken (take (length (events (reading S.Kind.Letter.alphabet S.Kind.Printable.parsed) trace.now)) (calls_after S.Kind.Letter.alphabet S.model sheet.old work.old (events (reading S.Kind.Letter.alphabet S.Kind.Printable.parsed) trace.now) t0 h)) }
    ensures work { work.new ≡ left_over (needs (S.model sheet.old.automaton)) work.old (events (reading S.Kind.Letter.alphabet S.Kind.Printable.parsed) trace.now) }
    ensures keeps { Keeps sheet.old sheet.new }
    ensures stands { (t0 : List S.Kind) (h : List (Turn S.Kind)) → Stands S.Kind.Letter.alphabet S.model t0 h sheet.old text.old → Stands S.Kind.Letter.alphabet S.model t0 (calls_after S.Kind.Letter.alphabet S.model sheet.old work.old (events (reading S.Kind.Letter.alphabet S.Kind.Printable.parsed) trace.now) t0 h) sheet.new text.new }
{
    let mut place = 0;
    let mut all = true;
    for byte in trace {
        if let Some(event) = read_event::<S::Kind>(*byte) {
            let taken = step(sheet, place, event, text, work, page);
            all &= taken;
            place += 1;
        }
    }
    all
}
