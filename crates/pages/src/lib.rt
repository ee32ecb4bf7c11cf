// Pages: output written byte by byte over the front of a lent slice. What finds no room is left out.
#![tactic(auto)]

ghost use Rattle.std.specs.Prelude.{◌≡◌, ℕ, List, [], ◌∷◌, ◌++◌, length, replicate, decimal};
ghost use Rattle.pages.specs.Pages.{Holds, Wrote, labelled as labelled_by, columns as columns_of};

pub mod printed;

use itoa::Buffer;
pub use printed::Printed;

// A lent slice and how much of it is written: a page cannot fail, so it has no heap to ask for room, and it is written by
// calls and not through `Display`, whose `fmt` can.
#[derive(Drop)]
pub struct Page<'a> {
    bytes: &'a mut [u8],
    used: usize,
}

impl<'a> Page<'a> {
    // A page on which nothing is written yet.
    pub fn new(bytes: &'a mut [u8]) -> Page<'a>
        ensures fresh { Holds result [] bytes.old }
        ensures page { result.bytes.ghost_name ≡ bytes.entry.ghost_name }
    {
        Page { bytes, used: 0 }
    }

    // How many bytes are written.
    pub fn used(&self) -> usize
        ensures { result ≡ self.now.used }
    {
        self.used
    }

    // One byte more.
    pub fn push(&mut self, byte: u8)
        ensures { Wrote self.old self.new (byte ∷ []) }
    {
        let at = self.used;
        if at < self.bytes.len() {
            self.bytes[at] = byte;
            self.used = at + 1;
        }
    }

    // All of `bytes`.
    pub fn put(&mut self, bytes: &[u8])
        ensures { Wrote self.old self.new bytes.now }
    {
        for byte in bytes {
            self.push(*byte);
        }
    }

    fn blanks(&mut self, count: usize)
        ensures { Wrote self.old self.new (replicate count 32) }
    {
        for _i in 0..count {
            self.push(b' ');
        }
    }

    // The decimal digits of n.
    pub fn number(&mut self, n: usize)
        ensures { Wrote self.old self.new (decimal n) }
    {
        self.put(Buffer::new().format(n).as_bytes());
    }

    // A label, the digits of n, and an end.
    pub fn labelled(&mut self, label: &[u8], n: usize, end: &[u8])
        ensures { Wrote self.old self.new (labelled_by label.now n end.now) }
    {
        self.put(label);
        self.number(n);
        self.put(end);
    }

    // n, right-justified with blanks in `width` columns.
    pub fn columns(&mut self, width: usize, n: usize)
        ensures { Wrote self.old self.new (columns_of width n) }
    {
        let mut buffer = Buffer::new();
        let digits = buffer.format(n).as_bytes();
        self.blanks(width.saturating_sub(digits.len()));
        self.put(digits);
    }
}
