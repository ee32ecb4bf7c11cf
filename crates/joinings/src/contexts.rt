// The contexts on a trace line: the letters before its first `?`, and the letters after it.
ghost use Rattle.std.specs.Prelude.{◌≡◌, ◌+◌, ◌^◌, ◌<◌, ◌≤◌, length, take, Some, None, Ok, Err};
ghost use Rattle.texts.specs.Texts.{reading, stray, spelled};
ghost use Rattle.joinings.specs.Contexts.{gap as gap_in, context as context_of, contexts as contexts_of};

use faults::Fault;
use files::GAP;
use letters::{Letter, Printable};

// Two contexts, as parts of a lent table of letters.
#[derive_where(Clone, Copy)]
pub struct Contexts<'a, L> {
    pub left: &'a [L],
    pub right: &'a [L],
}

// The place of the first `?`, or None.
fn gap(content: &[u8]) -> Option<usize>
    ensures place { result ≡ gap_in content.now }
    ensures within { elim result [ Some i ↦ i < length content.now | None ↦ Unit {0} ] }
{
    content.iter().position(|b| *b == GAP)
}

// Writes the letters that the bytes read as at the front of `table`, up to the first byte that is no letter; answers
// that byte's place. The table is written by index, since what is written through `iter_mut` is not known afterwards.
fn spell<L: Printable>(bytes: &[u8], table: &mut [L]) -> Option<usize>
    requires { length bytes.now ≤ length table.old }
    ensures place { result ≡ stray (reading L.Letter.alphabet L.Printable.parsed) bytes.now }
    ensures within { elim result [ Some i ↦ i < length bytes.now | None ↦ Unit {0} ] }
    ensures letters { result ≡ None → take (length bytes.now) table.new ≡ spelled (reading L.Letter.alphabet L.Printable.parsed) bytes.now }
{
    for (i, b) in bytes.iter().enumerate() {
        match L::from_byte(*b) {
            Some(letter) => table[i] = letter,
            None => return Some(i),
        }
    }
    None
}

// The letters of a context, written at the front of `table`; `from` is the place of its first byte in the content.
fn context<'a, L: Printable>(
    bytes: &[u8],
    from: usize,
    table: &'a mut [L],
) -> Result<&'a [L], Fault>
    requires { (length bytes.now ≤ length table.old) × (from + length bytes.now < 2 ^ 64) }
    ensures { elim result [ Ok s ↦ context_of (reading L.Letter.alphabet L.Printable.parsed) from bytes.now ≡ Ok s.now | Err f ↦ context_of (reading L.Letter.alphabet L.Printable.parsed) from bytes.now ≡ Err f ] }
{
    match spell(bytes, table) {
        Some(place) => Err(Fault::NoLetter(from + place)),
        None => Ok(&table[0..bytes.len()]),
    }
}

// The contexts of a content: their letters, on a table that needs room for each byte but the `?`.
pub fn read_contexts<'a, L: Printable>(
    content: &[u8],
    table: &'a mut [L],
) -> Result<Contexts<'a, L>, Fault>
    ensures { elim result [ Ok c ↦ contexts_of (reading L.Letter.alphabet L.Printable.parsed) (length table.old) content.now ≡ Ok (c.left.now, c.right.now) | Err f ↦ contexts_of (reading L.Letter.alphabet L.Printable.parsed) (length table.old) content.now ≡ Err f ] }
{
    let Some(at) = gap(content) else {
        return Err(Fault::BrokenFile);
    };
    let needed = content.len() - 1;
    if table.len() < needed {
        return Err(Fault::ShortWork(needed));
    }
    let (front, back) = table.split_at_mut(at);
    let left = context(&content[0..at], 0, front)?;
    let right = context(&content[at + 1..], at + 1, back)?;
    Ok(Contexts { left, right })
}
