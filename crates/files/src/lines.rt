// The lines of a file, one by one, as parts of the input.
ghost use Rattle.std.specs.Prelude.{◌≡◌, ℕ, ◌+◌, ◌^◌, ◌<◌, ◌≤◌, List, [], ◌∷◌, length, Some, None, ◌≢◌, slice_index};
ghost use Rattle.files.specs.Lines.{lines as lines_of, begun as begun_with, said, items, meant};

use faults::Fault;

// A setting's name: `L`, `k` or `r`.
#[derive(Clone, Copy, Debug, PartialEq, Eq)]
pub enum Name {
    Kind,
    Window,
    Limit,
}

// A line, with its content, the part of the input after its first byte.
#[derive(Clone, Copy)]
pub enum Line<'a> {
    Remark(&'a [u8]),
    Setting(Name, &'a [u8]),
    Pattern(&'a [u8]),
    Trace(&'a [u8]),
}

// What a line is that begins with the byte `first` and goes on with `content`.
fn begun(first: u8, content: &[u8]) -> Result<Line<'_>, Fault>
    ensures { meant result ≡ begun_with first content.now }
{
    match first {
        b';' => Ok(Line::Remark(content)),
        b'L' => Ok(Line::Setting(Name::Kind, content)),
        b'k' => Ok(Line::Setting(Name::Window, content)),
        b'r' => Ok(Line::Setting(Name::Limit, content)),
        b'!' => Ok(Line::Pattern(content)),
        b'>' => Ok(Line::Trace(content)),
        _ => Err(Fault::BrokenFile),
    }
}

// What a line is. An empty line breaks the rules, and so does one whose first byte starts no line.
pub fn classify(line: &[u8]) -> Result<Line<'_>, Fault>
    ensures { meant result ≡ said line.now }
{
    match line {
        [] => Err(Fault::BrokenFile),
        [first, content @ ..] => begun(*first, content),
    }
}

// How many bytes stand before the first newline, or in all.
fn line_len(bytes: &[u8]) -> usize
    ensures within { result ≤ length bytes.now }
    ensures before { (k : ℕ) → k < result → slice_index bytes.now k ≢ 10 }
    ensures found { result < length bytes.now → slice_index bytes.now result ≡ 10 }
{
    bytes
        .iter()
        .position(|b| *b == b'\n')
        .unwrap_or(bytes.len())
}

// The lines that are left of a file, and the number of the last one taken, from 1. No iterator of the library, since whoever
// reads them is promised the number and what is left.
#[derive(Drop)]
pub struct Lines<'a> {
    rest: &'a [u8],
    number: usize,
    ghost few: { number + length rest.now < 2 ^ 64 },
}

impl<'a> Lines<'a> {
    // All the lines of the input.
    pub fn new(input: &'a [u8]) -> Lines<'a>
        ensures rest { result.rest.now ≡ input.now }
        ensures number { result.number ≡ 0 }
    {
        Lines {
            rest: input,
            number: 0,
        }
    }

    // The number of the last line taken; 0 before the first.
    pub fn number(&self) -> usize
        ensures { result ≡ self.now.number }
    {
        self.number
    }

    // The bytes of the next line, or None after the last.
    fn take_line(&mut self) -> Option<&'a [u8]>
        ensures lines { elim result [ None ↦ lines_of self.old.rest.now ≡ [] | Some l ↦ lines_of self.old.rest.now ≡ l.now ∷ lines_of self.new.rest.now ] }
        ensures shorter { elim result [ None ↦ length self.old.rest.now ≡ 0 | Some l ↦ length self.new.rest.now < length self.old.rest.now ] }
        ensures number { elim result [ None ↦ (self.new.number ≡ self.old.number) × (self.new.rest.now ≡ self.old.rest.now) | Some l ↦ self.new.number ≡ self.old.number + 1 ] }
    {
        let s = self.rest;
        if s.len() == 0 {
            return None;
        }
        let n = line_len(s);
        self.number += 1;
        self.rest = if n < s.len() { &s[n + 1..] } else { &s[n..] };
        Some(&s[0..n])
    }

    // The next line, or None after the last.
    pub fn next_line(&mut self) -> Option<Result<Line<'a>, Fault>>
        ensures items { elim result [ None ↦ items self.old.rest.now ≡ [] | Some l ↦ items self.old.rest.now ≡ meant l ∷ items self.new.rest.now ] }
        ensures shorter { elim result [ None ↦ length self.old.rest.now ≡ 0 | Some l ↦ length self.new.rest.now < length self.old.rest.now ] }
        ensures number { elim result [ None ↦ (self.new.number ≡ self.old.number) × (self.new.rest.now ≡ self.old.rest.now) | Some l ↦ self.new.number ≡ self.old.number + 1 ] }
    {
        self.take_line().map(classify)
    }
}
