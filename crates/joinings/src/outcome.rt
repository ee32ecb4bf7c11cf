// What a station file comes to under the join, from its bytes to what is printed.
ghost use Rattle.std.specs.Prelude.{◌≡◌, ◌+◌, min, length, is_ok};
ghost use Rattle.files.specs.Lines.{items};
ghost use Rattle.pages.specs.Pages.{over, Wrote};
ghost use Rattle.joinings.specs.Outcomes.{room, SameDesk, SameDesks, reported, joined_body, outcome as outcome_of, printed};
ghost use Rattle.lent.specs.Lent.{SameList};

use crate::finding::settle;
use crate::report::Report;
use files::refusals::at_line;
use files::{INPUT, Lines, Refusal};
use headings::{Heading, show_refusal};
use lent::{LentLetters, LentList};
use letters::{Letter, Printable, Seepage, Trend, Two};
use listings::read;
use lists::{Builder, Record};
use pages::{Page, Printed};
use stations::{Kind, early, header, tail};

// The tables that a join over a kind writes on: the letters of its contexts, and the joined text.
#[derive(Drop)]
pub struct Desk<'a, L> {
    pub letters: &'a mut [L],
    pub text: &'a mut [L],
}

// A desk for each kind.
#[derive(Drop)]
pub struct Desks<'a> {
    pub two: Desk<'a, Two>,
    pub trend: Desk<'a, Trend>,
    pub seepage: Desk<'a, Seepage>,
}

impl<'a> Desks<'a> {
    // The contexts on the tables `contexts`, and the joined text on those of `text`.
    pub fn new(contexts: LentLetters<'a>, text: LentLetters<'a>) -> Desks<'a>
        ensures contexts { (result.two.letters.now ≡ contexts.entry.two.now) × (result.trend.letters.now ≡ contexts.entry.trend.now) × (result.seepage.letters.now ≡ contexts.entry.seepage.now) }
        ensures text { (result.two.text.now ≡ text.entry.two.now) × (result.trend.text.now ≡ text.entry.trend.now) × (result.seepage.text.now ≡ text.entry.seepage.now) }
    {
        let LentLetters {
            two,
            trend,
            seepage,
        } = contexts;
        let LentLetters {
            two: two_text,
            trend: trend_text,
            seepage: seepage_text,
        } = text;
        Desks {
            two: Desk {
                letters: two,
                text: two_text,
            },
            trend: Desk {
                letters: trend,
                text: trend_text,
            },
            seepage: Desk {
                letters: seepage,
                text: seepage_text,
            },
        }
    }
}

// A file of the kind `L` from the line after its kind line on.
// It begins as every program does, in four lines that name all that a function for them would have to give back. `kind`
// is the value for `L`: letters know of no file.
fn join_body<'a, L: Printable>(
    kind: Kind,
    lines: &mut Lines<'_>,
    records: &mut [Record],
    words: &mut [u16],
    letters: &mut [L],
    text: &'a mut [L],
    work: &mut [u16],
) -> Result<Report<'a, L>, Refusal>
    ensures { reported L.Letter.alphabet L.Printable.printed result ≡ joined_body kind L.Letter.alphabet L.Printable.printed L.Printable.parsed (length records.old) (length words.old) (record { letters = length letters.old; text = length text.old }) (length work.old) (lines.old.number + 1) (items lines.old.rest.now) }
{
    let mut list = Builder::<L>::start(records, words);
    let preface = read(lines, &mut list)?;
    let listed = list.finish();
    let heading = Heading {
        kind,
        patterns: listed.patterns(),
        limit: preface.form.limit,
    };
    let finding = at_line(
        settle(listed, heading.limit, preface.trace, letters, text, work),
        lines.number(),
    )?;
    tail(lines)?;
    Ok(Report { heading, finding })
}

// Joins by a file of the kind `L`, writes what is to be printed, and answers whether the contexts were joined. It takes the slices
// apart, so that they are as long afterwards by their type.
fn join_apart<L: Printable>(
    kind: Kind,
    lines: &mut Lines<'_>,
    records: &mut [Record],
    words: &mut [u16],
    letters: &mut [L],
    text: &mut [L],
    work: &mut [u16],
    page: &mut Page<'_>,
) -> bool
    ensures page { Wrote page.old page.new (printed (joined_body kind L.Letter.alphabet L.Printable.printed L.Printable.parsed (length records.old) (length words.old) (record { letters = length letters.old; text = length text.old }) (length work.old) (lines.old.number + 1) (items lines.old.rest.now))) }
    ensures joined { result ≡ is_ok (joined_body kind L.Letter.alphabet L.Printable.printed L.Printable.parsed (length records.old) (length words.old) (record { letters = length letters.old; text = length text.old }) (length work.old) (lines.old.number + 1) (items lines.old.rest.now)) }
{
    match join_body(kind, lines, records, words, letters, text, work) {
        Ok(report) => {
            report.show(page);
            true
        }
        Err(refusal) => show_refusal(refusal, page),
    }
}

// The same on lent tables.
fn join_kind<L: Printable>(
    kind: Kind,
    lines: &mut Lines<'_>,
    tables: &mut LentList<'_>,
    desk: &mut Desk<'_, L>,
    work: &mut [u16],
    page: &mut Page<'_>,
) -> bool
    ensures page { Wrote page.old page.new (printed (joined_body kind L.Letter.alphabet L.Printable.printed L.Printable.parsed (length tables.old.records.now) (length tables.old.words.now) (room desk.old) (length work.old) (lines.old.number + 1) (items lines.old.rest.now))) }
    ensures joined { result ≡ is_ok (joined_body kind L.Letter.alphabet L.Printable.printed L.Printable.parsed (length tables.old.records.now) (length tables.old.words.now) (room desk.old) (length work.old) (lines.old.number + 1) (items lines.old.rest.now)) }
    ensures list { SameList tables.old tables.new }
    ensures desk { SameDesk desk.old desk.new }
{
    join_apart(
        kind,
        lines,
        tables.records,
        tables.words,
        desk.letters,
        desk.text,
        work,
        page,
    )
}

// Joins by a file, writes what is to be printed, and answers whether the contexts were joined.
// A case for each kind, since a kind is a type and no closure is generic over types.
fn join_lines(
    input: &[u8],
    tables: &mut LentList<'_>,
    desks: &mut Desks<'_>,
    work: &mut [u16],
    page: &mut Page<'_>,
) -> bool
    ensures page { Wrote page.old page.new (printed (outcome_of (record { records = length tables.old.records.now; words = length tables.old.words.now; two = room desks.old.two; trend = room desks.old.trend; seepage = room desks.old.seepage; work = length work.old }) input.now)) }
    ensures joined { result ≡ is_ok (outcome_of (record { records = length tables.old.records.now; words = length tables.old.words.now; two = room desks.old.two; trend = room desks.old.trend; seepage = room desks.old.seepage; work = length work.old }) input.now) }
    ensures list { SameList tables.old tables.new }
    ensures desks { SameDesks desks.old desks.new }
{
    if input.len() > INPUT {
        return show_refusal(early(), page);
    }
    let mut lines = Lines::new(input);
    match header(&mut lines) {
        Ok(Kind::Two) => join_kind::<Two>(
            Kind::Two,
            &mut lines,
            tables,
            &mut desks.two,
            work,
            page,
        ),
        Ok(Kind::Trend) => join_kind::<Trend>(
            Kind::Trend,
            &mut lines,
            tables,
            &mut desks.trend,
            work,
            page,
        ),
        Ok(Kind::Seepage) => join_kind::<Seepage>(
            Kind::Seepage,
            &mut lines,
            tables,
            &mut desks.seepage,
            work,
            page,
        ),
        Err(refusal) => show_refusal(refusal, page),
    }
}

// Joins the contexts on the trace line of a station file, and writes the report or the refusal line to the front of
// `out`; it is done where they are joined. The list of the file's patterns is built on `tables`; the file's
// kind chooses the desk on which its contexts and the joined text are written; `work` is for the search.
pub fn join_file(
    input: &[u8],
    tables: &mut LentList<'_>,
    desks: &mut Desks<'_>,
    work: &mut [u16],
    out: &mut [u8],
) -> Printed
    ensures out { out.new ≡ over (printed (outcome_of (record { records = length tables.old.records.now; words = length tables.old.words.now; two = room desks.old.two; trend = room desks.old.trend; seepage = room desks.old.seepage; work = length work.old }) input.now)) out.old }
    ensures length { result.length ≡ min (length (printed (outcome_of (record { records = length tables.old.records.now; words = length tables.old.words.now; two = room desks.old.two; trend = room desks.old.trend; seepage = room desks.old.seepage; work = length work.old }) input.now))) (length out.old) }
    ensures joined { result.done ≡ is_ok (outcome_of (record { records = length tables.old.records.now; words = length tables.old.words.now; two = room desks.old.two; trend = room desks.old.trend; seepage = room desks.old.seepage; work = length work.old }) input.now) }
    ensures list { SameList tables.old tables.new }
    ensures desks { SameDesks desks.old desks.new }
{
    let mut page = Page::new(out);
    let done = join_lines(input, tables, desks, work, &mut page);
    Printed {
        length: page.used(),
        done,
    }
}
