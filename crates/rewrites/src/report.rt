// What is printed of a rewritten trace.
ghost use Rattle.std.specs.Prelude.{◌≡◌, take};
ghost use Rattle.pages.specs.Pages.{Wrote};
ghost use Rattle.rewrites.specs.Traces.{sheeted, told};
ghost use Rattle.rewrites.specs.Outcomes.{counts_line, shown, printed as printed_of, written};

use files::Refusal;
use headings::{show_letters, show_refusal};
use letters::{Letter, Printable};
use pages::Page;
use sheetlaw::Counts;

// The first n letters of a table, or all if it has fewer.
pub fn front<L>(table: &[L], n: usize) -> &[L]
    ensures { result.now ≡ take n table.now }
{
    &table[..n.min(table.len())]
}

fn show_counts(counts: Counts, page: &mut Page<'_>)
    ensures { Wrote page.old page.new (counts_line counts) }
{
    page.columns(6, counts.letters);
    page.columns(6, counts.kept);
    page.columns(6, counts.skipped);
    page.columns(6, counts.text);
    page.columns(6, counts.filled);
    page.push(b'\n');
}

// Writes the text, which is the front of `table`, and the counts, each with a newline.
fn show_sheet<L: Printable>(counts: Counts, table: &[L], page: &mut Page<'_>)
    ensures { Wrote page.old page.new (shown (sheeted L.Letter.alphabet.number L.Printable.printed counts table.now)) }
{
    show_letters(front(table, counts.text), page);
    page.push(b'\n');
    show_counts(counts, page);
}

// Writes the text and the counts, or the refusal line, and answers whether it was a text.
pub fn show<L: Printable>(answer: Result<Counts, Refusal>, table: &[L], page: &mut Page<'_>) -> bool
    ensures page { Wrote page.old page.new (printed_of (told L.Letter.alphabet.number L.Printable.printed answer table.now)) }
    ensures written { result ≡ written (told L.Letter.alphabet.number L.Printable.printed answer table.now) }
{
    match answer {
        Ok(counts) => {
            show_sheet(counts, table, page);
            true
        }
        Err(refusal) => show_refusal(refusal, page),
    }
}
