// The letters that lead to a place in the queue of a search: how many there are, and writing them.
ghost use Rattle.std.specs.Prelude.{◌≡◌, ℕ, ◌+◌, ◌<◌, ◌≤◌, ◌++◌, length, slice_index};
ghost use Rattle.joins.specs.Queue.{by};
ghost use Rattle.joins.specs.Spelling.{numbers, spelling};
ghost use Rattle.joins.specs.Ways.{Spells};

use letters::Letter;

// The tables of a search that are left for a place in its queue, and how many letters lead to it. By place in the queue:
// the place of the state that led to it, and the number of the letter between them. Tables that anyone may bring: that
// they spell as many letters is asked for where these are written.
#[derive(Clone, Copy)]
pub struct Trail<'w> {
    pub parents: &'w [u16],
    pub letters: &'w [u16],
    pub place: u16,
    pub filled: usize,
}

// How many letters lead from the first place to `place`. The loop goes from parent to parent, along no index.
fn depth(parents: &[u16], place: u16) -> usize
    requires within { place < length parents.now }
    requires earlier { (i : ℕ) → 0 < i → i ≤ place → slice_index parents.now i < i }
    ensures { (l : ℕ → ℕ) → result ≡ length (numbers (by parents.now) l place) }
{
    let mut at = place;
    let mut count = 0;
    while at > 0 {
        at = parents[at as usize];
        count += 1;
    }
    count
}

impl<'w> Trail<'w> {
    // To a place in the queue.
    pub(crate) fn to(parents: &'w [u16], letters: &'w [u16], place: u16) -> Trail<'w>
        requires within { place < length parents.now }
        requires earlier { (i : ℕ) → 0 < i → i ≤ place → slice_index parents.now i < i }
        ensures tables { (result.parents.now ≡ parents.now) × (result.letters.now ≡ letters.now) × (result.place ≡ place) }
        ensures long { result.filled ≡ length (numbers (by parents.now) (by letters.now) place) }
    {
        Trail {
            parents,
            letters,
            place,
            filled: depth(parents, place),
        }
    }

    // Writes the letters, from the last to the first; `out` has room for just these. It is written by index, since what is
    // written through `iter_mut` is not known afterwards.
    fn spell<K: Letter>(self, out: &mut [K])
        requires spells { Spells K.alphabet self }
        requires room { length out.old ≡ self.filled }
        ensures { out.new ≡ spelling K.alphabet.letter (by self.entry.parents.now) (by self.entry.letters.now) self.entry.place }
    {
        let mut at = self.place;
        for left in (0..out.len()).rev() {
            if let Some(letter) = K::from_number(self.letters[at as usize] as u8) {
                out[left] = letter;
            }
            at = self.parents[at as usize];
        }
    }

    // Writes the letters, and then `right`; `out` has room for just these.
    pub(crate) fn write<K: Letter>(self, right: &[K], out: &mut [K])
        requires spells { Spells K.alphabet self }
        requires room { length out.old ≡ self.filled + length right.now }
        ensures { out.new ≡ spelling K.alphabet.letter (by self.entry.parents.now) (by self.entry.letters.now) self.entry.place ++ right.now }
    {
        let (front, back) = out.split_at_mut(self.filled);
        self.spell(front);
        back.copy_from_slice(right);
    }
}
