// What a station file comes to when it is rewritten, from its bytes to what is printed.
//
// Two definitions of it stand in the clauses and agree: one of what is printed, and one that tells of the tables too.
ghost use Rattle.std.specs.Prelude.{◌≡◌, ◌+◌, min, length};
ghost use Rattle.files.specs.Lines.{items};
ghost use Rattle.pages.specs.Pages.{over, Wrote};
ghost use Rattle.lent.specs.Lent.{SameLetters, SameList};
ghost use Rattle.rewrites.specs.Fits.{Roomy, alone, paired};
ghost use Rattle.rewritelaw.specs.Laws.{GoodLaw, FirstLaw};
ghost use Rattle.rewritelaw.specs.Traces.{left_as};
ghost use Rattle.rewritelaw.specs.Outcomes.{body as body_whole, outcome as whole, printed as printed_whole, written as whole_written};
ghost use Rattle.rewrites.specs.Traces.{told};
ghost use Rattle.rewrites.specs.Outcomes.{body as body_of, outcome, printed as printed_of, written as is_written};

use crate::report::show;
use crate::settings::rewrite_limited;
use automata::Automaton;
use files::refusals::at_line;
use files::{INPUT, Lines, Refusal};
use headings::show_refusal;
use lent::{LentLetters, LentList};
use letters::{Letter, Printable, Seepage, Trend, Two};
use listings::read;
use lists::{Builder, Listed, Record};
use pages::{Page, Printed};
use pairs::Pair;
use runs::Run;
use sheetlaw::Counts;
use stations::{Kind, early, header, tail};

// The window length of a file that names none.
pub const WINDOW: u16 = 4;

// A file of the kind `L` from the line after its kind line on. The text is then the front of `text`.
// It begins as every program does, in four lines that name all that a function for them would have to give back.
fn body<L: Printable>(
    lines: &mut Lines<'_>,
    records: &mut [Record],
    words: &mut [u16],
    text: &mut [L],
    work: &mut [u16],
) -> Result<Counts, Refusal>
    requires alone { Roomy (alone L.row ⟦<Listed<'static, L> as Automaton>⟧ L.Letter) }
    requires paired { Roomy (paired L.row ⟦<Pair<Listed<'static, L>, Run<L>> as Automaton>⟧ L.Letter) }
    ensures told { told L.Letter.alphabet.number L.Printable.printed result text.new ≡ body_of L.Letter.alphabet L.Printable.parsed L.Printable.printed (length records.old) (length words.old) (length work.old) text.old (lines.old.number + 1) (items lines.old.rest.now) }
    ensures left { left_as result text.new work.new ≡ body_whole L.Letter.alphabet L.Printable.parsed (length records.old) (length words.old) text.old work.old (lines.old.number + 1) (items lines.old.rest.now) }
{
    let mut list = Builder::<L>::start(records, words);
    let preface = read(lines, &mut list)?;
    let listed = list.finish();
    let form = preface.form;
    let window = form.window.unwrap_or(WINDOW);
    let counts = at_line(
        rewrite_limited(listed, form.limit, window, preface.trace, text, work),
        lines.number(),
    )?;
    tail(lines)?;
    Ok(counts)
}

// The same, printed.
fn print_body<L: Printable>(
    lines: &mut Lines<'_>,
    tables: &mut LentList<'_>,
    text: &mut [L],
    work: &mut [u16],
    page: &mut Page<'_>,
) -> bool
    requires alone { Roomy (alone L.row ⟦<Listed<'static, L> as Automaton>⟧ L.Letter) }
    requires paired { Roomy (paired L.row ⟦<Pair<Listed<'static, L>, Run<L>> as Automaton>⟧ L.Letter) }
    ensures page { Wrote page.old page.new (printed_of (body_of L.Letter.alphabet L.Printable.parsed L.Printable.printed (length tables.old.records.now) (length tables.old.words.now) (length work.old) text.old (lines.old.number + 1) (items lines.old.rest.now))) }
    ensures written { result ≡ is_written (body_of L.Letter.alphabet L.Printable.parsed L.Printable.printed (length tables.old.records.now) (length tables.old.words.now) (length work.old) text.old (lines.old.number + 1) (items lines.old.rest.now)) }
    ensures text { text.new ≡ (body_whole L.Letter.alphabet L.Printable.parsed (length tables.old.records.now) (length tables.old.words.now) text.old work.old (lines.old.number + 1) (items lines.old.rest.now)).table }
    ensures work { work.new ≡ (body_whole L.Letter.alphabet L.Printable.parsed (length tables.old.records.now) (length tables.old.words.now) text.old work.old (lines.old.number + 1) (items lines.old.rest.now)).work }
    ensures list { SameList tables.old tables.new }
{
    let answer = body(lines, tables.records, tables.words, text, work);
    show(answer, text, page)
}

// The whole file, printed.
// A case for each kind, since a kind is a type and no closure is generic over types.
fn print_file(
    input: &[u8],
    tables: &mut LentList<'_>,
    texts: &mut LentLetters<'_>,
    work: &mut [u16],
    page: &mut Page<'_>,
) -> bool
    ensures page { Wrote page.old page.new (printed_of (outcome (length tables.old.records.now) (length tables.old.words.now) (length work.old) texts.old.two.now texts.old.trend.now texts.old.seepage.now input.now)) }
    ensures written { result ≡ is_written (outcome (length tables.old.records.now) (length tables.old.words.now) (length work.old) texts.old.two.now texts.old.trend.now texts.old.seepage.now input.now) }
    ensures two { texts.new.two.now ≡ (whole (length tables.old.records.now) (length tables.old.words.now) texts.old.two.now texts.old.trend.now texts.old.seepage.now work.old input.now).two }
    ensures trend { texts.new.trend.now ≡ (whole (length tables.old.records.now) (length tables.old.words.now) texts.old.two.now texts.old.trend.now texts.old.seepage.now work.old input.now).trend }
    ensures seepage { texts.new.seepage.now ≡ (whole (length tables.old.records.now) (length tables.old.words.now) texts.old.two.now texts.old.trend.now texts.old.seepage.now work.old input.now).seepage }
    ensures lent { SameLetters texts.old texts.new }
    ensures work { work.new ≡ (whole (length tables.old.records.now) (length tables.old.words.now) texts.old.two.now texts.old.trend.now texts.old.seepage.now work.old input.now).work }
    ensures list { SameList tables.old tables.new }
{
    if input.len() > INPUT {
        return show_refusal(early(), page);
    }
    let mut lines = Lines::new(input);
    match header(&mut lines) {
        Ok(Kind::Two) => print_body(&mut lines, tables, texts.two, work, page),
        Ok(Kind::Trend) => print_body(&mut lines, tables, texts.trend, work, page),
        Ok(Kind::Seepage) => print_body(&mut lines, tables, texts.seepage, work, page),
        Err(refusal) => show_refusal(refusal, page),
    }
}

// Rewrites the trace of a station file, and writes the text and its counts or the refusal line to the front of `out`; it is
// done where a text is written. The list of the file's patterns is built on `tables`; the text table is that of `texts` for
// the file's kind.
//
// `out`, `length` and `written` are what is printed, by the definition of the file; `whole` and `whole_written` that it is
// the same with an account of what each table holds then, which the next clauses give by that account. `good`
// says of a good file that its text is the shortest that keeps the windows of its trace, with its counts, and `first`
// of a refused one that the refusal is the first in file order.
pub fn rewrite_file(
    input: &[u8],
    tables: &mut LentList<'_>,
    texts: &mut LentLetters<'_>,
    work: &mut [u16],
    out: &mut [u8],
) -> Printed
    ensures out { out.new ≡ over (printed_of (outcome (length tables.old.records.now) (length tables.old.words.now) (length work.old) texts.old.two.now texts.old.trend.now texts.old.seepage.now input.now)) out.old }
    ensures length { result.length ≡ min (length (printed_of (outcome (length tables.old.records.now) (length tables.old.words.now) (length work.old) texts.old.two.now texts.old.trend.now texts.old.seepage.now input.now))) (length out.old) }
    ensures written { result.done ≡ is_written (outcome (length tables.old.records.now) (length tables.old.words.now) (length work.old) texts.old.two.now texts.old.trend.now texts.old.seepage.now input.now) }
    ensures whole { printed_of (outcome (length tables.old.records.now) (length tables.old.words.now) (length work.old) texts.old.two.now texts.old.trend.now texts.old.seepage.now input.now) ≡ printed_whole (whole (length tables.old.records.now) (length tables.old.words.now) texts.old.two.now texts.old.trend.now texts.old.seepage.now work.old input.now).answer }
    ensures whole_written { is_written (outcome (length tables.old.records.now) (length tables.old.words.now) (length work.old) texts.old.two.now texts.old.trend.now texts.old.seepage.now input.now) ≡ whole_written (whole (length tables.old.records.now) (length tables.old.words.now) texts.old.two.now texts.old.trend.now texts.old.seepage.now work.old input.now).answer }
    ensures two { texts.new.two.now ≡ (whole (length tables.old.records.now) (length tables.old.words.now) texts.old.two.now texts.old.trend.now texts.old.seepage.now work.old input.now).two }
    ensures trend { texts.new.trend.now ≡ (whole (length tables.old.records.now) (length tables.old.words.now) texts.old.two.now texts.old.trend.now texts.old.seepage.now work.old input.now).trend }
    ensures seepage { texts.new.seepage.now ≡ (whole (length tables.old.records.now) (length tables.old.words.now) texts.old.two.now texts.old.trend.now texts.old.seepage.now work.old input.now).seepage }
    ensures lent { SameLetters texts.old texts.new }
    ensures work { work.new ≡ (whole (length tables.old.records.now) (length tables.old.words.now) texts.old.two.now texts.old.trend.now texts.old.seepage.now work.old input.now).work }
    ensures good { GoodLaw (length tables.old.records.now) (length tables.old.words.now) texts.old.two.now texts.old.trend.now texts.old.seepage.now work.old input.now }
    ensures first { FirstLaw (length tables.old.records.now) (length tables.old.words.now) texts.old.two.now texts.old.trend.now texts.old.seepage.now work.old input.now }
    ensures list { SameList tables.old tables.new }
{
    let mut page = Page::new(out);
    let done = print_file(input, tables, texts, work, &mut page);
    Printed {
        length: page.used(),
        done,
    }
}
