// What is printed of a file whose contexts are joined.
ghost use Rattle.pages.specs.Pages.{Wrote};
ghost use Rattle.joinings.specs.Reports.{bytes_of, shown, answered, joined_lines};

use crate::finding::Finding;
use headings::{Heading, show_automaton, show_letters};
use letters::{Letter, Printable};
use pages::Page;

// What a file says of its automaton, and what is found of its contexts.
#[derive_where(Clone, Copy)]
pub struct Report<'a, L> {
    pub heading: Heading,
    pub finding: Finding<'a, L>,
}

// Writes the contexts' letters, the overlap taken, the letters filled in, the text's length and the text.
fn show_joined<L: Printable>(finding: Finding<'_, L>, page: &mut Page<'_>)
    ensures { Wrote page.old page.new (joined_lines finding.entry.left finding.entry.right finding.entry.overlap finding.entry.filled (bytes_of L.Letter.alphabet L.Printable.printed finding.entry.text.now)) }
{
    page.labelled(b"left: ", finding.left, b" letters\n");
    page.labelled(b"right: ", finding.right, b" letters\n");
    page.labelled(b"overlap: ", finding.overlap, b"\n");
    page.labelled(b"filled: ", finding.filled, b"\n");
    page.labelled(b"length: ", finding.text.len(), b"\n");
    show_letters(finding.text, page);
    page.push(b'\n');
}

impl<'a, L: Printable> Report<'a, L> {
    // Writes the report.
    pub fn show(self, page: &mut Page<'_>)
        ensures { Wrote page.old page.new (shown (answered L.Letter.alphabet L.Printable.printed self.entry)) }
    {
        self.heading.show(page);
        show_automaton(self.finding.states, self.finding.memory, page);
        show_joined(self.finding, page);
    }
}
