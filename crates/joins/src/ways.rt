// How a text that ends as one string is brought to end with another.
ghost use Rattle.std.specs.Prelude.{◌≡◌, ℕ, ◌+◌, ◌-◌, ◌^◌, ◌<◌, ◌≤◌, ◌++◌, length, take, drop};
ghost use Rattle.joinlaw.specs.Bridges.{row};
ghost use Rattle.joins.specs.Ways.{told, added as added_by, joined as joined_by, Short, Fit};

use crate::answers::Joined;
use crate::trails::Trail;
use letters::Letter;

// A bridge that was found.
#[derive(Clone, Copy)]
pub enum Way<'w> {
    // So many letters at the end of the one are the first of the other.
    Overlap(usize),
    // Letters are filled in between.
    Filling(Trail<'w>),
}

impl Way<'_> {
    // How many letters are appended for a right string of so many letters.
    pub fn added(self, right: usize) -> usize
        requires { Short right self }
        ensures { result ≡ added_by right self.entry }
    {
        match self {
            Way::Overlap(shared) => right - shared,
            Way::Filling(trail) => trail.filled + right,
        }
    }

    // What is answered for it, where the whole string has so many letters.
    pub fn joined(self, length: usize) -> Joined
        ensures { result ≡ joined_by length self.entry }
    {
        match self {
            Way::Overlap(overlap) => Joined {
                length,
                overlap,
                filled: 0,
            },
            Way::Filling(trail) => Joined {
                length,
                overlap: 0,
                filled: trail.filled,
            },
        }
    }

    // Fills a table that has room for just the row of the bridge.
    fn fill<K: Letter>(self, right: &[K], out: &mut [K])
        requires fit { Fit K.alphabet (length right.now) self }
        requires room { length out.old ≡ added_by (length right.now) self }
        ensures { out.new ≡ row (told K.alphabet self.entry) right.now }
    {
        match self {
            Way::Overlap(shared) => out.copy_from_slice(&right[shared..]),
            Way::Filling(trail) => trail.write(right, out),
        }
    }

    // Writes the row of the bridge into a text, from the place `at` to the place `end`.
    pub fn write<K: Letter>(self, right: &[K], text: &mut [K], at: usize, end: usize)
        requires fit { Fit K.alphabet (length right.now) self }
        requires room { (end ≡ at + added_by (length right.now) self) × (end ≤ length text.old) }
        ensures { text.new ≡ take at text.old ++ (row (told K.alphabet self.entry) right.now ++ drop (at + length (row (told K.alphabet self.entry) right.now)) text.old) }
    {
        self.fill(right, &mut text[at..end]);
    }
}
