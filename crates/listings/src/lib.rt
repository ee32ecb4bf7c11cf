// A station file from its kind line to its trace: its settings, and its patterns taken into a list.
#![tactic(auto)]

ghost use Rattle.std.specs.Prelude.{◌≡◌, ℕ, ◌+◌, List, Ok, Err};
ghost use Rattle.files.specs.Lines.{items, meant};
ghost use Rattle.lists.specs.History.{Holds};
ghost use Rattle.stations.specs.Stations.{bind, take_line, handed};
ghost use Rattle.texts.specs.Texts.{reading};
ghost use Rattle.listings.specs.Listings.{listed, reached, fresh};
ghost use Rattle.listings.specs.Reads.{ReadAs, LeftAs};

pub mod limits;

use faults::Fault;
use files::refusals::at_line;
use files::{Line, Lines, Refusal};
use letters::{Letter, Printable};
pub use limits::Limited;
use lists::Builder;
use stations::{Form, Part, early};

// What a file says up to its trace: its settings, and the trace as a part of the input.
#[derive(Clone, Copy)]
pub struct Preface<'a> {
    pub form: Form,
    pub trace: &'a [u8],
}

// What the next line hands on. Inlined, since a file of many remarks took half as long again with a call.
#[inline(always)]
fn next_part<'a>(form: &mut Form, line: Result<Line<'a>, Fault>) -> Result<Option<Part<'a>>, Fault>
    ensures { elim result [ Ok p ↦ bind (meant line.entry) (take_line form.old) ≡ Ok (form.new, handed p) | Err f ↦ bind (meant line.entry) (take_line form.old) ≡ Err f ] }
{
    form.take(line?)
}

// Reads up to the trace, and takes the patterns into `list`. A refusal leaves in the list what it took up to there. Not inlined,
// since the walk over a text was slower beside it in one function.
#[inline(never)]
pub fn read<'a, L: Printable>(
    lines: &mut Lines<'a>,
    list: &mut Builder<'_, L>,
) -> Result<Preface<'a>, Refusal>
    ensures answer { (n m : ℕ) (ps : List (List L)) → Holds L.Letter.alphabet n m list.old ps
        → ReadAs (listed L.Letter.alphabet (reading L.Letter.alphabet L.Printable.parsed) n m (lines.old.number + 1) fresh ps (items lines.old.rest.now)) result
        lines.new.number lines.new.rest.now (Holds L.Letter.alphabet n m list.new) }
    ensures left { (n m : ℕ) (ps : List (List L)) → Holds L.Letter.alphabet n m list.old ps
        → LeftAs (reached L.Letter.alphabet (reading L.Letter.alphabet L.Printable.parsed) n m (lines.old.number + 1) fresh ps (items lines.old.rest.now))
        lines.new.number lines.new.rest.now (Holds L.Letter.alphabet n m list.new) }
{
    let mut form = Form::new();
    while let Some(line) = lines.next_line() {
        match at_line(next_part(&mut form, line), lines.number())? {
            None => {}
            Some(Part::Pattern(bytes)) => at_line(list.add_bytes(bytes), lines.number())?,
            Some(Part::Trace(trace)) => return Ok(Preface { form, trace }),
        }
    }
    Err(early())
}
