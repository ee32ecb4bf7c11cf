// The lines before and after those of the calls.
ghost use Rattle.std.specs.Prelude.{take};
ghost use Rattle.pages.specs.Pages.{Wrote};
ghost use Rattle.stepping.specs.Outcomes.{sheet_lines, count_lines, text_lines};

use headings::{Heading, show_automaton, show_letters};
use letters::{Letter, Printable};
use pages::Page;
use rewrites::front;
use sheetlaw::Counts;

// What a file says before its trace: what it says of its automaton, and its window length.
#[derive(Clone, Copy)]
pub struct Settings {
    pub heading: Heading,
    pub window: u16,
}

// Writes the lines of the sheet: the automaton's count of states and its memory, the window length, and the letters and
// gaps of the trace.
pub fn show_settings(states: usize, memory: usize, window: usize, size: usize, page: &mut Page<'_>)
    ensures { Wrote page.old page.new (sheet_lines states memory window size) }
{
    show_automaton(states, memory, page);
    page.labelled(b"window: ", window, b"\n");
    page.labelled(b"trace: ", size, b" letters and gaps\n");
}

// Writes the five counts.
fn show_counts(counts: Counts, page: &mut Page<'_>)
    ensures { Wrote page.old page.new (count_lines counts) }
{
    page.labelled(b"letters taken: ", counts.letters, b"\n");
    page.labelled(b"windows kept: ", counts.kept, b"\n");
    page.labelled(b"windows skipped: ", counts.skipped, b"\n");
    page.labelled(b"text letters: ", counts.text, b"\n");
    page.labelled(b"filled letters: ", counts.filled, b"\n");
}

// Writes the text, which is the front of `table`, and the counts.
pub fn show_end<L: Printable>(counts: Counts, table: &[L], page: &mut Page<'_>)
    ensures { Wrote page.old page.new (text_lines L.Letter.alphabet L.Printable.printed (take counts.text table.now) counts) }
{
    page.put(b"text: ");
    show_letters(front(table, counts.text), page);
    page.push(b'\n');
    show_counts(counts, page);
}
