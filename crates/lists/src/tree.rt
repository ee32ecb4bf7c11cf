// The prefixes of the patterns as a tree: each hangs under the one that is a letter shorter.
ghost use Rattle.std.specs.Prelude.{◌≡◌, ℕ, ◌+◌, ◌-◌, ◌^◌, ◌<◌, ◌≤◌, ◌==◌, ◌&&◌, false, [], ◌∷◌, ◌++◌, drop, length, take, MatchOption, position, ◌≢◌, slice_index_or, slice_set};
ghost use Rattle.listlaw.specs.Patterns.{member, gather, fronts, Places};
ghost use Rattle.lists.specs.Names.{rec, names, Below, Lengths, with_end, Reached, Entered};
ghost use Rattle.lists.specs.Links.{tied};

use crate::record::Record;
use crate::word::Word;

// The records in use are distinct prefixes, the empty one first, each hanging under the one that is a letter shorter.
#[derive(Drop)]
pub(crate) struct Tree<'a> {
    // a lent slice of structs, since nothing here may allocate
    pub(crate) records: &'a mut [Record],
    // how many of them are in use
    pub(crate) used: usize,
    ghost some: { 1 ≤ used },
    ghost few: { used ≤ 512 },
    ghost below: { Below records.now used },
    ghost deep: { Lengths records.now used },
    ghost apart: { Places (names records.now used) },
    // only records that are enough for any tree are used beyond the first
    ghost fits: { (1 < used → 512 ≤ length records.now) },
}

impl Tree<'_> {
    // Which of the states after the first hangs under `under` by the letter `a`.
    fn place(&self, under: usize, a: u8) -> Option<usize>
        ensures { result ≡ position (λ r. r.parent == under && r.letter == a) (drop 1 (take self.now.used self.now.records.now)) }
    {
        self.records
            .iter()
            .take(self.used)
            .skip(1)
            .position(|record| record.hangs(under, a))
    }

    // The state that hangs under `under` by the letter `a`.
    fn child(&self, under: usize, a: u8) -> Option<usize>
        ensures { MatchOption result
            ((j : ℕ) → 0 < j → j < self.now.used → (rec self.now.records.now j).parent ≡ under → (rec self.now.records.now j).letter ≢ a)
            (λ j. (0 < j) × (j < self.now.used) × ((rec self.now.records.now j).parent ≡ under) × ((rec self.now.records.now j).letter ≡ a)) }
    {
        Some(self.place(under, a)? + 1)
    }

    // How many states there would be with the proper prefixes of `word`.
    pub(crate) fn grown(&self, word: &Word) -> usize
        ensures { result ≡ length (gather (names self.now.records.now self.now.used) (fronts word.now.letters.now)) }
    {
        let front = word.front();
        let mut under = 0;
        for (k, letter) in front.iter().enumerate() {
            let Some(state) = self.child(under, *letter) else {
                return self.used + (front.len() - k);
            };
            under = state;
        }
        self.used
    }

    // The state under `under` by the letter `a`, which is entered if it is new. That the records are enough is asked for here
    // and not in the type, since a list may lie on tables that are too short as long as it is empty.
    fn reach(&mut self, under: usize, a: u8, depth: u8) -> usize
        requires room { 512 ≤ length self.old.records.now }
        requires inside { (under < self.old.used) × (depth ≡ length (slice_index_or (names self.old.records.now self.old.used) under []) + 1) }
        requires new { member (names self.old.records.now self.old.used) (slice_index_or (names self.old.records.now self.old.used) under [] ++ (a ∷ [])) ≡ false → self.old.used < 512 }
        ensures reached { Reached self.old.records.now self.new.records.now self.old.used under a result self.new.used }
        ensures length { length self.new.records.now ≡ length self.old.records.now }
    {
        if let Some(state) = self.child(under, a) {
            return state;
        }
        let state = self.used;
        self.records[state] = Record {
            parent: under as u16,
            letter: a,
            length: depth,
            ..Record::BLANK
        };
        self.used += 1;
        state
    }

    // Enters the proper prefixes of `word`, and gives the state of the longest.
    pub(crate) fn enter(&mut self, word: &Word) -> usize
        requires { (512 ≤ length self.old.records.now) × (length (gather (names self.old.records.now self.old.used) (fronts word.now.letters.now)) ≤ 512) }
        ensures entered { Entered self.old.records.now self.new.records.now self.old.used word.now.letters.now (length word.now.letters.now - 1) result self.new.used }
        ensures length { length self.new.records.now ≡ length self.old.records.now }
    {
        let mut under = 0;
        for (k, letter) in word.front().iter().enumerate() {
            under = self.reach(under, *letter, k as u8 + 1);
        }
        under
    }

    // Marks that a pattern ends where the letter `a` follows the state `under`.
    pub(crate) fn mark(&mut self, under: usize, a: u8)
        requires { (under < length self.old.records.now) × (a < 32) }
        ensures records { self.new.records.now ≡ slice_set self.old.records.now under (with_end (rec self.old.records.now under) (2 ^ a)) }
        ensures used { self.new.used ≡ self.old.used }
    {
        self.records[under].ends |= 1 << a;
    }

    // Links q to `link`, and inherits the end marks of that state.
    pub(crate) fn tie(&mut self, q: usize, link: usize)
        requires { (q < length self.old.records.now) × (link < length self.old.records.now) × (link < 512) }
        ensures records { self.new.records.now ≡ slice_set self.old.records.now q (tied (rec self.old.records.now q) link (rec self.old.records.now link).ends) }
        ensures used { self.new.used ≡ self.old.used }
    {
        let ends = self.records[link].ends;
        let record = self.records[q];
        self.records[q] = Record {
            link: link as u16,
            ends: record.ends | ends,
            ..record
        };
    }
}
