// What a station file comes to when its trace is followed, from its bytes to what is printed.
ghost use Rattle.std.specs.Prelude.{◌≡◌, ◌+◌, min, length};
ghost use Rattle.files.specs.Lines.{items};
ghost use Rattle.pages.specs.Pages.{over, Wrote};
ghost use Rattle.lent.specs.Lent.{SameLetters, SameList};
ghost use Rattle.rewrites.specs.Fits.{Roomy, alone, paired};
ghost use Rattle.stepping.specs.Outcomes.{Told, body, outcome, file_printed, file_complete, two_left, trend_left, seepage_left, file_work, FileLaw};

use crate::report::Settings;
use crate::settings::step_limited;
use automata::Automaton;
use files::{INPUT, Lines};
use headings::{Heading, show_refusal};
use lent::{LentLetters, LentList};
use letters::{Letter, Printable, Seepage, Trend, Two};
use listings::read;
use lists::{Builder, Listed, Record};
use pages::{Page, Printed};
use pairs::Pair;
use rewrites::outcome::WINDOW;
use runs::Run;
use stations::{Kind, early, header};

// A file of the kind `L` from the line after its kind line on.
// It begins as every program does, in four lines that name all that a function for them would have to give back. `kind`
// is the value for `L`: letters know of no file.
fn step_body<L: Printable>(
    kind: Kind,
    lines: &mut Lines<'_>,
    records: &mut [Record],
    words: &mut [u16],
    text: &mut [L],
    work: &mut [u16],
    page: &mut Page<'_>,
) -> bool
    requires alone { Roomy (alone L.row ⟦<Listed<'static, L> as Automaton>⟧ L.Letter) }
    requires paired { Roomy (paired L.row ⟦<Pair<Listed<'static, L>, Run<L>> as Automaton>⟧ L.Letter) }
    ensures { Told L.Letter.alphabet L.Printable.printed page.old page.new text.old text.new work.old work.new result (body kind L.Letter.alphabet L.Printable.parsed (length records.old) (length words.old) text.old work.old (lines.old.number + 1) (items lines.old.rest.now)) }
{
    let mut list = Builder::<L>::start(records, words);
    match read(lines, &mut list) {
        Ok(preface) => {
            let listed = list.finish();
            let heading = Heading {
                kind,
                patterns: listed.patterns(),
                limit: preface.form.limit,
            };
            let window = preface.form.window.unwrap_or(WINDOW);
            let settings = Settings { heading, window };
            step_limited(settings, listed, preface.trace, lines, text, work, page)
        }
        Err(refusal) => show_refusal(refusal, page),
    }
}

// The whole file, printed.
// A case for each kind, since a kind is a type and no closure is generic over types.
fn step_lines(
    input: &[u8],
    tables: &mut LentList<'_>,
    texts: &mut LentLetters<'_>,
    work: &mut [u16],
    page: &mut Page<'_>,
) -> bool
    ensures page { Wrote page.old page.new (file_printed (outcome (length tables.old.records.now) (length tables.old.words.now) work.old texts.old.two.now texts.old.trend.now texts.old.seepage.now input.now)) }
    ensures complete { result ≡ file_complete (outcome (length tables.old.records.now) (length tables.old.words.now) work.old texts.old.two.now texts.old.trend.now texts.old.seepage.now input.now) }
    ensures two { texts.new.two.now ≡ two_left texts.old.two.now (outcome (length tables.old.records.now) (length tables.old.words.now) work.old texts.old.two.now texts.old.trend.now texts.old.seepage.now input.now) }
    ensures trend { texts.new.trend.now ≡ trend_left texts.old.trend.now (outcome (length tables.old.records.now) (length tables.old.words.now) work.old texts.old.two.now texts.old.trend.now texts.old.seepage.now input.now) }
    ensures seepage { texts.new.seepage.now ≡ seepage_left texts.old.seepage.now (outcome (length tables.old.records.now) (length tables.old.words.now) work.old texts.old.two.now texts.old.trend.now texts.old.seepage.now input.now) }
    ensures lent { SameLetters texts.old texts.new }
    ensures work { work.new ≡ file_work work.old (outcome (length tables.old.records.now) (length tables.old.words.now) work.old texts.old.two.now texts.old.trend.now texts.old.seepage.now input.now) }
    ensures law { FileLaw (outcome (length tables.old.records.now) (length tables.old.words.now) work.old texts.old.two.now texts.old.trend.now texts.old.seepage.now input.now) }
    ensures list { SameList tables.old tables.new }
{
    if input.len() > INPUT {
        return show_refusal(early(), page);
    }
    let mut lines = Lines::new(input);
    match header(&mut lines) {
        Ok(Kind::Two) => step_body(
            Kind::Two,
            &mut lines,
            tables.records,
            tables.words,
            texts.two,
            work,
            page,
        ),
        Ok(Kind::Trend) => step_body(
            Kind::Trend,
            &mut lines,
            tables.records,
            tables.words,
            texts.trend,
            work,
            page,
        ),
        Ok(Kind::Seepage) => step_body(
            Kind::Seepage,
            &mut lines,
            tables.records,
            tables.words,
            texts.seepage,
            work,
            page,
        ),
        Err(refusal) => show_refusal(refusal, page),
    }
}

// Follows the trace of a station file on a sheet, and writes every call, the text and its counts, or the refusal line, to
// the front of `out`; it is done where every letter and gap was taken. The list of the file's patterns is built on `tables`;
// the text table is that of `texts` for the file's kind. `law` is the whole law of a sheet, of the calls whose
// lines are written.
pub fn steps_file(
    input: &[u8],
    tables: &mut LentList<'_>,
    texts: &mut LentLetters<'_>,
    work: &mut [u16],
    out: &mut [u8],
) -> Printed
    ensures out { out.new ≡ over (file_printed (outcome (length tables.old.records.now) (length tables.old.words.now) work.old texts.old.two.now texts.old.trend.now texts.old.seepage.now input.now)) out.old }
    ensures length { result.length ≡ min (length (file_printed (outcome (length tables.old.records.now) (length tables.old.words.now) work.old texts.old.two.now texts.old.trend.now texts.old.seepage.now input.now))) (length out.old) }
    ensures complete { result.done ≡ file_complete (outcome (length tables.old.records.now) (length tables.old.words.now) work.old texts.old.two.now texts.old.trend.now texts.old.seepage.now input.now) }
    ensures two { texts.new.two.now ≡ two_left texts.old.two.now (outcome (length tables.old.records.now) (length tables.old.words.now) work.old texts.old.two.now texts.old.trend.now texts.old.seepage.now input.now) }
    ensures trend { texts.new.trend.now ≡ trend_left texts.old.trend.now (outcome (length tables.old.records.now) (length tables.old.words.now) work.old texts.old.two.now texts.old.trend.now texts.old.seepage.now input.now) }
    ensures seepage { texts.new.seepage.now ≡ seepage_left texts.old.seepage.now (outcome (length tables.old.records.now) (length tables.old.words.now) work.old texts.old.two.now texts.old.trend.now texts.old.seepage.now input.now) }
    ensures lent { SameLetters texts.old texts.new }
    ensures work { work.new ≡ file_work work.old (outcome (length tables.old.records.now) (length tables.old.words.now) work.old texts.old.two.now texts.old.trend.now texts.old.seepage.now input.now) }
    ensures law { FileLaw (outcome (length tables.old.records.now) (length tables.old.words.now) work.old texts.old.two.now texts.old.trend.now texts.old.seepage.now input.now) }
    ensures list { SameList tables.old tables.new }
{
    let mut page = Page::new(out);
    let done = step_lines(input, tables, texts, work, &mut page);
    Printed {
        length: page.used(),
        done,
    }
}
