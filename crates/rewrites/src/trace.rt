// A trace given to a sheet, byte by byte. The text and the work table come side by side, since each clause is about one.
ghost use Rattle.std.specs.Prelude.{◌≡◌, length};
ghost use Rattle.sheets.specs.Views.{contents, Keeps};
ghost use Rattle.rewritelaw.specs.Traces.{fed as fed_whole, fed_as as fed_whole_as, fed_byte as byte_whole, fed_letter as letter_whole};
ghost use Rattle.rewrites.specs.Traces.{refusal, fed, fed_as, fed_byte, fed_letter};

use automata::Automaton;
use faults::Fault;
use files::GAP;
use letters::Printable;
use sheetlaw::Answer;
use sheets::Sheet;

// A letter's refusal, whatever else it may have answered.
fn refused(answer: Result<Answer, Fault>) -> Result<(), Fault>
    ensures { result ≡ refusal answer }
{
    answer.map(|_| ())
}

// The byte at `place`, once it is read as a letter or as none.
fn feed_letter<S: Automaton>(
    sheet: &mut Sheet<S>,
    place: usize,
    read: Option<S::Kind>,
    text: &mut [S::Kind],
    work: &mut [u16],
) -> Result<(), Fault>
where
    S::Kind: Printable,
    ensures fed { fed_as result (contents sheet.new) text.new ≡ fed_letter S.Kind.Letter.alphabet S.Kind.Printable.parsed (S.model sheet.old.automaton) sheet.old.k (length work.old) place read (contents sheet.old) text.old }
    ensures fed_whole { fed_whole_as result (contents sheet.new) text.new work.new ≡ letter_whole S.Kind.Letter.alphabet S.Kind.Printable.parsed (S.model sheet.old.automaton) sheet.old.k place read (contents sheet.old) text.old work.old }
    ensures keeps { Keeps sheet.old sheet.new }
{
    match read {
        Some(letter) => refused(sheet.letter(letter, text, work)),
        None => Err(Fault::NoLetter(place)),
    }
}

// The byte at `place`.
fn feed_byte<S: Automaton>(
    sheet: &mut Sheet<S>,
    place: usize,
    byte: u8,
    text: &mut [S::Kind],
    work: &mut [u16],
) -> Result<(), Fault>
where
    S::Kind: Printable,
    ensures fed { fed_as result (contents sheet.new) text.new ≡ fed_byte S.Kind.Letter.alphabet S.Kind.Printable.parsed (S.model sheet.old.automaton) sheet.old.k (length work.old) place byte (contents sheet.old) text.old }
    ensures fed_whole { fed_whole_as result (contents sheet.new) text.new work.new ≡ byte_whole S.Kind.Letter.alphabet S.Kind.Printable.parsed (S.model sheet.old.automaton) sheet.old.k place byte (contents sheet.old) text.old work.old }
    ensures keeps { Keeps sheet.old sheet.new }
{
    if byte == GAP {
        sheet.gap()
    } else {
        feed_letter(sheet, place, S::Kind::from_byte(byte), text, work)
    }
}

// The trace up to its end, or to the first byte that is refused. `fed_whole` tells what is left in the work table too.
pub fn feed<S: Automaton>(
    sheet: &mut Sheet<S>,
    trace: &[u8],
    text: &mut [S::Kind],
    work: &mut [u16],
) -> Result<(), Fault>
where
    S::Kind: Printable,
    ensures fed { fed_as result (contents sheet.new) text.new ≡ fed S.Kind.Letter.alphabet S.Kind.Printable.parsed (S.model sheet.old.automaton) sheet.old.k (length work.old) 0 trace.now (contents sheet.old) text.old }
    ensures fed_whole { fed_whole_as result (contents sheet.new) text.new work.new ≡ fed_whole S.Kind.Letter.alphabet S.Kind.Printable.parsed (S.model sheet.old.automaton) sheet.old.k 0 trace.now (contents sheet.old) text.old work.old }
    ensures keeps { Keeps sheet.old sheet.new }
{
    for (place, byte) in trace.iter().enumerate() {
        feed_byte(sheet, place, *byte, text, work)?;
    }
    Ok(())
}
