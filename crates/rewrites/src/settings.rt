// The automaton that a file's settings make, and its trace rewritten under it.
//
// `told` is what the answer and the text come to; `left` tells of the answer and of what both tables hold then. `Roomy` is
// asked for by each function that makes a sheet: it is a fact about a type, and no value could carry it.
ghost use Rattle.std.specs.Prelude.{◌≡◌, length, Ok};
ghost use Rattle.listings.specs.Listings.{limited};
ghost use Rattle.pairs.specs.contracts.Pair.{the_row as pair_row};
ghost use Rattle.runs.specs.contracts.Run.{the_row as run_row};
ghost use Rattle.sheets.specs.contracts.sheet.Sheet.{the_row as sheet_row};
ghost use Rattle.rewrites.specs.Fits.{Roomy};
ghost use Rattle.rewrites.specs.Traces.{rewritten, told};
ghost use Rattle.rewritelaw.specs.Traces.{left_as, unless_refused, rewritten as rewritten_whole};

use crate::trace::feed;
use automata::Automaton;
use faults::Fault;
use letters::Printable;
use listings::Limited;
use pairs::Pair;
use runs::Run;
use sheetlaw::Counts;
use sheets::Sheet;

// Rewrites a trace on a sheet of its own; the text is then the front of `text`.
pub fn rewrite<S: Automaton + Drop>(
    automaton: S,
    k: u16,
    trace: &[u8],
    text: &mut [S::Kind],
    work: &mut [u16],
) -> Result<Counts, Fault>
where
    S::Kind: Printable,
    requires { Roomy (sheet_row S.row S.Kind.row S.Automaton S.Kind.Letter) }
    ensures told { told S.Kind.Letter.alphabet.number S.Kind.Printable.printed result text.new ≡ rewritten S.Kind.Letter.alphabet S.Kind.Printable.parsed S.Kind.Printable.printed (length work.old) (S.model automaton) k trace.now text.old }
    ensures left { left_as result text.new work.new ≡ rewritten_whole S.Kind.Letter.alphabet S.Kind.Printable.parsed (S.model automaton) k trace.now text.old work.old }
{
    let mut sheet = Sheet::open(automaton, k)?;
    feed(&mut sheet, trace, text, work)?;
    Ok(sheet.close())
}

// The same under `automaton`, and under the run automaton too where there is a limit. It stands alone since the check does
// not cover a body that keeps a `Limited` on the lent list.
pub fn rewrite_limited<P: Automaton + Drop>(
    automaton: P,
    limit: Option<u16>,
    k: u16,
    trace: &[u8],
    text: &mut [P::Kind],
    work: &mut [u16],
) -> Result<Counts, Fault>
where
    P::Kind: Printable,
    requires alone { Roomy (sheet_row P.row P.Kind.row P.Automaton P.Kind.Letter) }
    requires paired { Roomy (sheet_row (pair_row P.row (run_row P.Kind.row)) P.Kind.row ⟦<Pair<P, Run<P::Kind>> as Automaton>⟧ P.Kind.Letter) }
    ensures told { told P.Kind.Letter.alphabet.number P.Kind.Printable.printed result text.new ≡ limited (P.model automaton) P.Kind.Letter.alphabet limit (λ m. rewritten P.Kind.Letter.alphabet P.Kind.Printable.parsed P.Kind.Printable.printed (length work.old) m k trace.now text.old) }
    ensures left { left_as result text.new work.new ≡ unless_refused (limited (P.model automaton) P.Kind.Letter.alphabet limit Ok) text.old work.old (λ m. rewritten_whole P.Kind.Letter.alphabet P.Kind.Printable.parsed m k trace.now text.old work.old) }
{
    match Limited::new(automaton, limit)? {
        Limited::Alone(automaton) => rewrite(automaton, k, trace, text, work),
        Limited::Both(pair) => rewrite(pair, k, trace, text, work),
    }
}
