// What is found of a text, and the report of it.
ghost use Rattle.std.specs.Prelude.{◌≡◌, [], ◌∷◌, ◌++◌};
ghost use Rattle.pages.specs.Pages.{Wrote};
ghost use Rattle.texts.specs.Texts.{reading};
ghost use Rattle.listings.specs.Listings.{limited};
ghost use Rattle.checks.specs.Reports.{finding, shown, text_lines, verdict as verdict_of};

use automata::Automaton;
use faults::Fault;
use headings::{Heading, show_automaton};
use letters::{Letter, Printable};
use listings::Limited;
use pages::Page;
use texts::check_bytes;

// What came of a text: the automaton's count of states and its memory, the letters of the text, and the place of the
// letter at which it is stopped.
#[derive(Clone, Copy)]
pub struct Finding {
    pub states: usize,
    pub memory: usize,
    pub letters: usize,
    pub stopped: Option<usize>,
}

// What a file says of its automaton, and what is found of its text; the join finds other things of its contexts.
#[derive(Clone, Copy)]
pub struct Report {
    pub heading: Heading,
    pub finding: Finding,
}

// Checks `text` by `automaton`.
pub fn judge<S: Automaton>(automaton: &S, text: &[u8]) -> Result<Finding, Fault>
where
    S::Kind: Printable,
    ensures { result ≡ finding (S.model automaton.now) (reading S.Kind.Letter.alphabet S.Kind.Printable.parsed) text.now }
{
    let stopped = check_bytes(automaton, text)?;
    Ok(Finding {
        states: automaton.states() as usize,
        memory: automaton.memory() as usize,
        letters: text.len(),
        stopped,
    })
}

// Checks `text` by `automaton`, and by the run automaton too where there is a limit. It stands alone since the check does
// not cover a body that keeps a `Limited` on the lent list, and is not inlined since the walk is slower where more is at hand.
#[inline(never)]
pub fn judge_limited<P: Automaton + Drop>(
    automaton: P,
    limit: Option<u16>,
    text: &[u8],
) -> Result<Finding, Fault>
where
    P::Kind: Printable,
    ensures { result ≡ limited (P.model automaton) P.Kind.Letter.alphabet limit (λ m. finding m (reading P.Kind.Letter.alphabet P.Kind.Printable.parsed) text.now) }
{
    match Limited::new(automaton, limit)? {
        Limited::Alone(automaton) => judge(&automaton, text),
        Limited::Both(pair) => judge(&pair, text),
    }
}

fn show_verdict(stopped: Option<usize>, page: &mut Page<'_>)
    ensures { Wrote page.old page.new (verdict_of stopped) }
{
    match stopped {
        Some(place) => page.labelled(b"stopped at ", place, b"\n"),
        None => page.put(b"passes\n"),
    }
}

fn show_text(finding: &Finding, page: &mut Page<'_>)
    ensures { Wrote page.old page.new (text_lines finding.now) }
{
    page.labelled(b"text: ", finding.letters, b" letters\n");
    page.labelled(
        b"walked: ",
        finding.stopped.unwrap_or(finding.letters),
        b" letters\n",
    );
    show_verdict(finding.stopped, page);
}

impl Report {
    // Writes the report.
    pub fn show(&self, page: &mut Page<'_>)
        ensures { Wrote page.old page.new (shown self.now) }
    {
        self.heading.show(page);
        show_automaton(self.finding.states, self.finding.memory, page);
        show_text(&self.finding, page);
    }
}
