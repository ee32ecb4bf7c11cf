// The automaton that a file's settings make, and its trace followed under it. `Roomy` is asked for by each function that makes
// a sheet: it is a fact about a type, and no value could carry it.
ghost use Rattle.std.specs.Prelude.{◌≡◌, IfOk};
ghost use Rattle.files.specs.Lines.{items};
ghost use Rattle.listings.specs.Listings.{limited};
ghost use Rattle.pairs.specs.contracts.Pair.{the_row as pair_row};
ghost use Rattle.runs.specs.contracts.Run.{the_row as run_row};
ghost use Rattle.sheets.specs.contracts.sheet.Sheet.{the_row as sheet_row};
ghost use Rattle.texts.specs.Texts.{reading};
ghost use Rattle.rewrites.specs.Fits.{Roomy};
ghost use Rattle.stepping.specs.Steps.{verdict, admitted, steps};
ghost use Rattle.stepping.specs.OnSheets.{Fresh};
ghost use Rattle.stepping.specs.Outcomes.{Told, concluded};

use crate::report::{Settings, show_end, show_settings};
use crate::trace::{check_trace, step_through};
use automata::Automaton;
use files::refusals::at_line;
use files::{Lines, Refusal};
use headings::show_refusal;
use letters::{Letter, Printable};
use listings::Limited;
use pages::Page;
use pairs::Pair;
use runs::Run;
use sheets::Sheet;
use stations::tail;

// Opens a sheet for a trace, once all is judged that can refuse the file: the window length and the memory, the bytes of
// the trace, and the lines after it.
fn admit<S: Automaton + Drop>(
    automaton: S,
    k: u16,
    trace: &[u8],
    lines: &mut Lines<'_>,
) -> Result<Sheet<S>, Refusal>
where
    S::Kind: Printable,
    requires { Roomy (sheet_row S.row S.Kind.row S.Automaton S.Kind.Letter) }
    ensures judged { verdict result ≡ admitted (S.model automaton) k (reading S.Kind.Letter.alphabet S.Kind.Printable.parsed) trace.now lines.old.number (items lines.old.rest.now) }
    ensures opened { IfOk result (Fresh S.Kind.Letter.alphabet S.model automaton k) }
{
    let line = lines.number();
    let sheet = at_line(Sheet::open(automaton, k), line)?;
    at_line(check_trace::<S::Kind>(trace), line)?;
    tail(lines)?;
    Ok(sheet)
}

// Follows a trace on a sheet of its own, and writes every call or the refusal of the file.
fn step_under<S: Automaton + Drop>(
    settings: Settings,
    automaton: S,
    trace: &[u8],
    lines: &mut Lines<'_>,
    text: &mut [S::Kind],
    work: &mut [u16],
    page: &mut Page<'_>,
) -> bool
where
    S::Kind: Printable,
    requires { Roomy (sheet_row S.row S.Kind.row S.Automaton S.Kind.Letter) }
    ensures { Told S.Kind.Letter.alphabet S.Kind.Printable.printed page.old page.new text.old text.new work.old work.new result (concluded settings.heading.kind settings.heading.patterns settings.heading.limit lines.old.number (items lines.old.rest.now) (steps S.Kind.Letter.alphabet text.old work.old (S.model automaton) settings.window (reading S.Kind.Letter.alphabet S.Kind.Printable.parsed) trace.now)) }
{
    let states = automaton.states() as usize;
    let memory = automaton.memory() as usize;
    match admit(automaton, settings.window, trace, lines) {
        Ok(mut sheet) => {
            settings.heading.show(page);
            show_settings(states, memory, settings.window as usize, trace.len(), page);
            let all = step_through(&mut sheet, trace, text, work, page);
            show_end(sheet.close(), text, page);
            all
        }
        Err(refusal) => show_refusal(refusal, page),
    }
}

// The same under `automaton`, and under the run automaton too where there is a limit. It stands alone since the check does
// not cover a body that keeps a `Limited` on the lent list.
pub(crate) fn step_limited<P: Automaton + Drop>(
    settings: Settings,
    automaton: P,
    trace: &[u8],
    lines: &mut Lines<'_>,
    text: &mut [P::Kind],
    work: &mut [u16],
    page: &mut Page<'_>,
) -> bool
where
    P::Kind: Printable,
    requires alone { Roomy (sheet_row P.row P.Kind.row P.Automaton P.Kind.Letter) }
    requires paired { Roomy (sheet_row (pair_row P.row (run_row P.Kind.row)) P.Kind.row ⟦<Pair<P, Run<P::Kind>> as Automaton>⟧ P.Kind.Letter) }
    ensures { Told P.Kind.Letter.alphabet P.Kind.Printable.printed page.old page.new text.old text.new work.old work.new result (concluded settings.heading.kind settings.heading.patterns settings.heading.limit lines.old.number (items lines.old.rest.now) (limited (P.model automaton) P.Kind.Letter.alphabet settings.heading.limit (λ m. steps P.Kind.Letter.alphabet text.old work.old m settings.window (reading P.Kind.Letter.alphabet P.Kind.Printable.parsed) trace.now))) }
{
    match Limited::new(automaton, settings.heading.limit) {
        Ok(Limited::Alone(automaton)) => {
            step_under(settings, automaton, trace, lines, text, work, page)
        }
        Ok(Limited::Both(pair)) => step_under(settings, pair, trace, lines, text, work, page),
        Err(fault) => show_refusal(
            Refusal {
                fault,
                line: lines.number(),
            },
            page,
        ),
    }
}
