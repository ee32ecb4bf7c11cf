// What a station file comes to under the check, from its bytes to what is printed.
ghost use Rattle.std.specs.Prelude.{◌≡◌, ℕ, ◌+◌, min, List, [], length};
ghost use Rattle.files.specs.Lines.{items};
ghost use Rattle.pages.specs.Pages.{over, Wrote};
ghost use Rattle.checks.specs.Outcomes.{body, body_of, outcome as outcome_of, printed, passed};
ghost use Rattle.lent.specs.Lent.{SameList};

use crate::report::{Report, judge_limited};
use files::refusals::at_line;
use files::{INPUT, Lines, Refusal};
use headings::{Heading, show_refusal};
use lent::LentList;
use letters::{Letter, Printable, Seepage, Trend, Two};
use listings::read;
use lists::{Builder, Record};
use pages::{Page, Printed};
use stations::{Kind, early, header, tail};

// A file of the kind `L` from the line after its kind line on.
// It begins as every program does, in four lines that name all that a function for them would have to give back. `kind`
// is the value for `L`: letters know of no file.
fn check_body<L: Printable>(
    kind: Kind,
    lines: &mut Lines<'_>,
    records: &mut [Record],
    words: &mut [u16],
) -> Result<Report, Refusal>
    ensures { result ≡ body kind L.Letter.alphabet L.Printable.parsed (length records.old) (length words.old) (lines.old.number + 1) (items lines.old.rest.now) }
{
    let mut list = Builder::<L>::start(records, words);
    let preface = read(lines, &mut list)?;
    let listed = list.finish();
    let heading = Heading {
        kind,
        patterns: listed.patterns(),
        limit: preface.form.limit,
    };
    let finding = at_line(
        judge_limited(listed, heading.limit, preface.trace),
        lines.number(),
    )?;
    tail(lines)?;
    Ok(Report { heading, finding })
}

// The report on a file, or its first refusal.
// A case for each kind, since a kind is a type and no closure is generic over types.
fn outcome(input: &[u8], tables: &mut LentList<'_>) -> Result<Report, Refusal>
    ensures answer { result ≡ outcome_of (length tables.old.records.now) (length tables.old.words.now) input.now }
    ensures list { SameList tables.old tables.new }
{
    if input.len() > INPUT {
        return Err(early());
    }
    let mut lines = Lines::new(input);
    match header(&mut lines)? {
        Kind::Two => check_body::<Two>(Kind::Two, &mut lines, tables.records, tables.words),
        Kind::Trend => check_body::<Trend>(Kind::Trend, &mut lines, tables.records, tables.words),
        Kind::Seepage => check_body::<Seepage>(
            Kind::Seepage,
            &mut lines,
            tables.records,
            tables.words,
        ),
    }
}

// Writes an outcome, and answers whether it is a text that passes.
fn show(outcome: Result<Report, Refusal>, page: &mut Page<'_>) -> bool
    ensures page { Wrote page.old page.new (printed outcome) }
    ensures passes { result ≡ passed outcome }
{
    match outcome {
        Ok(report) => {
            report.show(page);
            report.finding.stopped.is_none()
        }
        Err(refusal) => show_refusal(refusal, page),
    }
}

// Checks the text of a station file, and writes the report or the refusal line to the front of `out`; it is done where the
// text passes. The list of the file's patterns is built on `tables`.
pub fn check_file(input: &[u8], tables: &mut LentList<'_>, out: &mut [u8]) -> Printed
    ensures out { out.new ≡ over (printed (outcome_of (length tables.old.records.now) (length tables.old.words.now) input.now)) out.old }
    ensures length { result.length ≡ min (length (printed (outcome_of (length tables.old.records.now) (length tables.old.words.now) input.now))) (length out.old) }
    ensures passes { result.done ≡ passed (outcome_of (length tables.old.records.now) (length tables.old.words.now) input.now) }
    ensures list { SameList tables.old tables.new }
{
    let outcome = outcome(input, tables);
    let mut page = Page::new(out);
    let done = show(outcome, &mut page);
    Printed {
        length: page.used(),
        done,
    }
}
