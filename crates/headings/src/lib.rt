// The lines with which every report on a station file begins: its kind, its run limit and its automaton; letters as bytes,
// and the refusal line.
#![tactic(auto)]

ghost use Rattle.std.specs.Prelude.{◌≡◌, [], ◌∷◌, ◌++◌, map, false};
ghost use Rattle.files.specs.Refusals.{refusal_line};
ghost use Rattle.pages.specs.Pages.{Wrote};
ghost use Rattle.headings.specs.Headings.{letter_bytes, kind_line, limit_line, heading_lines, automaton_line};

use files::Refusal;
use letters::{Letter, Printable, Seepage, Trend, Two};
use pages::Page;
use stations::Kind;

// Writes the letters of a kind. By number, since `filter_map` over the letters gets no proof.
fn show_alphabet<L: Printable>(page: &mut Page<'_>)
    ensures { Wrote page.old page.new (letter_bytes L.Printable.printed L.Letter.alphabet.size) }
{
    for n in 0..L::count() {
        if let Some(letter) = L::from_number(n) {
            page.push(letter.byte());
        }
    }
}

// Writes the line of a kind: its name, and its letters.
fn show_named<L: Printable>(label: &[u8], page: &mut Page<'_>)
    ensures { Wrote page.old page.new (label.now ++ (letter_bytes L.Printable.printed L.Letter.alphabet.size ++ (10 ∷ []))) }
{
    page.put(label);
    show_alphabet::<L>(page);
    page.push(b'\n');
}

// Writes the line of a file's kind.
// A case for each kind, since a kind is a type and no closure is generic over types.
pub fn show_kind(kind: Kind, page: &mut Page<'_>)
    ensures { Wrote page.old page.new (kind_line kind) }
{
    match kind {
        Kind::Two => show_named::<Two>(b"kind A: ", page),
        Kind::Trend => show_named::<Trend>(b"kind P: ", page),
        Kind::Seepage => show_named::<Seepage>(b"kind Q: ", page),
    }
}

// Writes the line of a file's run limit.
pub fn show_limit(limit: Option<u16>, page: &mut Page<'_>)
    ensures { Wrote page.old page.new (limit_line limit) }
{
    match limit {
        Some(r) => page.labelled(b"run limit: ", r as usize, b"\n"),
        None => page.put(b"run limit: none\n"),
    }
}

// What a file says of its automaton: its kind, the number of its patterns, and its run limit.
#[derive(Clone, Copy)]
pub struct Heading {
    pub kind: Kind,
    pub patterns: usize,
    pub limit: Option<u16>,
}

impl Heading {
    // Writes the lines with which a report begins.
    pub fn show(self, page: &mut Page<'_>)
        ensures { Wrote page.old page.new (heading_lines self.kind self.patterns self.limit) }
    {
        show_kind(self.kind, page);
        page.labelled(b"patterns: ", self.patterns, b"\n");
        show_limit(self.limit, page);
    }
}

// Writes the line of an automaton: its count of states, and its memory, two numbers that only reports bring together.
pub fn show_automaton(states: usize, memory: usize, page: &mut Page<'_>)
    ensures { Wrote page.old page.new (automaton_line states memory) }
{
    page.labelled(b"automaton: ", states, b" states, memory ");
    page.labelled(b"", memory, b"\n");
}

// Writes letters as bytes.
pub fn show_letters<L: Printable>(letters: &[L], page: &mut Page<'_>)
    ensures { Wrote page.old page.new (map (λ x. L.Printable.printed (L.Letter.alphabet.number x)) letters.now) }
{
    for letter in letters {
        page.push(letter.byte());
    }
}

// Writes the refusal line, and answers that nothing was done.
pub fn show_refusal(refusal: Refusal, page: &mut Page<'_>) -> bool
    ensures page { Wrote page.old page.new (refusal_line refusal) }
    ensures answer { result ≡ false }
{
    refusal.show(page);
    false
}
