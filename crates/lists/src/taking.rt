// The calls of a list: it is started, takes patterns, and is finished.
ghost use Rattle.std.specs.Prelude.{◌≡◌, ℕ, ◌<◌, ◌≤◌, ◌||◌, List, [], ◌∷◌, ◌++◌, map, length, take, Decides, OnErr, nat_le, nat_lt, slice_index};
ghost use Rattle.listlaw.specs.Patterns.{gather, fronts};
ghost use Rattle.lists.specs.Words.{Spells};
ghost use Rattle.listlaw.specs.Table.{Means};
ghost use Rattle.lists.specs.Names.{names};
ghost use Rattle.lists.specs.Lists.{columns as columns_of, Lists};
ghost use Rattle.lists.specs.Taking.{Roomy, cause, refused, taking};
ghost use Rattle.texts.specs.Texts.{reading, spelled};
ghost use Rattle.lists.specs.Reading.{byte_cause};
ghost use Rattle.lists.specs.History.{Holds, Unchanged};
ghost use Rattle.lists.specs.Meaning.{listed};

use crate::builder::{Builder, PATTERNS, STATES};
use crate::links::{Links, columns};
use crate::listed::Listed;
use crate::record::Record;
use crate::tree::Tree;
use crate::word::{Spelling, Word};
use faults::Fault;
use letters::{Letter, Printable};
use std::marker::PhantomData;

impl<'a, L: Letter> Builder<'a, L> {
    // An empty list on two tables, which may be too short: then it takes no pattern.
    pub fn start(records: &'a mut [Record], words: &'a mut [u16]) -> Builder<'a, L>
        ensures { Holds L.Letter.alphabet (length records.old) (length words.old) result [] }
    {
        if records.len() >= STATES {
            records[0] = Record::BLANK;
        }
        Builder {
            tree: Tree { records, used: 1 },
            words,
            taken: 0,
            longest: 0,
            kind: PhantomData,
        }
    }

    // Whether the tables are long enough for the letters of the kind.
    fn roomy(&self) -> bool
        ensures { Decides result (Roomy L.Letter.alphabet (length self.now.tree.records.now) (length self.now.words.now)) }
    {
        self.tree.records.len() >= STATES && self.words.len() >= STATES * L::count() as usize
    }

    // Whether the pattern `word` would be one too many, or bring a state too many.
    fn full(&self, word: &Word) -> bool
        ensures { result ≡ (nat_le 64 self.now.taken || nat_lt 512 (length (gather (names self.now.tree.records.now self.now.tree.used) (fronts word.now.letters.now)))) }
    {
        self.taken >= PATTERNS || self.tree.grown(word) > STATES
    }

    // How many patterns it has taken, repeats counted.
    pub fn patterns(&self) -> usize
        ensures { result ≡ self.now.taken }
    {
        self.taken
    }

    // Takes the pattern `word`, for which there is room.
    fn take(&mut self, word: &Word)
        requires room { (512 ≤ length self.old.tree.records.now) × (length (gather (names self.old.tree.records.now self.old.tree.used) (fronts word.now.letters.now)) ≤ 512) }
        requires letters { (i : ℕ) → i < length word.now.letters.now → slice_index word.now.letters.now i < columns_of self.old.words.now }
        requires few { self.old.taken < 64 }
        ensures words { self.new.words.now ≡ self.old.words.now }
        ensures length { length self.new.tree.records.now ≡ length self.old.tree.records.now }
        ensures lists { (ps : List (List ℕ)) → Lists self.old.tree.records.now self.old.tree.used self.old.taken self.old.longest ps
            → Lists self.new.tree.records.now self.new.tree.used self.new.taken self.new.longest (ps ++ (word.now.letters.now ∷ [])) }
    {
        let under = self.tree.enter(word);
        self.tree.mark(under, word.last());
        self.taken += 1;
        self.longest = word.letters.len().max(self.longest);
    }

    // Takes the pattern that `spelling` has the numbers of, or refuses it.
    fn judge(&mut self, spelling: &Spelling) -> Result<(), Fault>
        requires { (i : ℕ) → i < spelling.now.count → i < 12 → slice_index spelling.now.first i < L.Letter.alphabet.size }
        ensures cause { (n m : ℕ) (ps : List (List L)) (p : List L) → Spells spelling.now.first spelling.now.count (map L.Letter.alphabet.number p) → Holds L.Letter.alphabet n m self.old ps
            → refused result ≡ cause L.Letter.alphabet n m ps p }
        ensures holds { (n m : ℕ) (ps : List (List L)) (p : List L) → Spells spelling.now.first spelling.now.count (map L.Letter.alphabet.number p) → Holds L.Letter.alphabet n m self.old ps
            → Holds L.Letter.alphabet n m self.new (taking result ps p) }
        ensures same { OnErr result (Unchanged self.old self.new) }
    {
        if !self.roomy() {
            return Err(Fault::ShortTables);
        }
        let word = spelling.word()?;
        if self.full(&word) {
            return Err(Fault::FullList(self.patterns()));
        }
        self.take(&word);
        Ok(())
    }

    // Takes a pattern. A refused one leaves the list and both tables as they were.
    pub fn add(&mut self, pattern: &[L]) -> Result<(), Fault>
        ensures cause { (n m : ℕ) (ps : List (List L)) → Holds L.Letter.alphabet n m self.old ps
            → refused result ≡ cause L.Letter.alphabet n m ps pattern.now }
        ensures holds { (n m : ℕ) (ps : List (List L)) → Holds L.Letter.alphabet n m self.old ps
            → Holds L.Letter.alphabet n m self.new (taking result ps pattern.now) }
        ensures same { OnErr result (Unchanged self.old self.new) }
    {
        self.judge(&Spelling::of(pattern))
    }

    // The automaton of the patterns taken. Nothing can be added after it.
    pub fn finish(self) -> Listed<'a, L>
        ensures means { (n m : ℕ) (ps : List (List L)) → Holds L.Letter.alphabet n m self.entry ps
            → Means L.Letter.alphabet (listed L.Letter.alphabet result) ps }
        ensures taken { (n m : ℕ) (ps : List (List L)) → Holds L.Letter.alphabet n m self.entry ps
            → result.taken ≡ length ps }
    {
        let Builder {
            tree,
            words,
            taken,
            longest,
            kind,
        } = self;
        if taken == 0 {
            let Tree { records, used: _ } = tree;
            return Listed {
                records,
                words,
                used: 1,
                columns: 32,
                taken: 0,
                memory: 0,
                kind,
            };
        }
        let mut links = Links { tree, words };
        links.complete(longest);
        let Links { tree, words } = links;
        let Tree { records, used } = tree;
        let columns = columns(words) as u8;
        Listed {
            records,
            words,
            used: used as u16,
            columns,
            taken,
            memory: longest as u16 - 1,
            kind,
        }
    }
}

impl<'a, L: Printable> Builder<'a, L> {
    // Takes the pattern that `bytes` spell. A byte that is no letter is refused before all else.
    pub fn add_bytes(&mut self, bytes: &[u8]) -> Result<(), Fault>
        ensures cause { (n m : ℕ) (ps : List (List L)) → Holds L.Letter.alphabet n m self.old ps
            → refused result ≡ byte_cause L.Letter.alphabet (reading L.Letter.alphabet L.Printable.parsed) n m ps bytes.now }
        ensures holds { (n m : ℕ) (ps : List (List L)) → Holds L.Letter.alphabet n m self.old ps
            → Holds L.Letter.alphabet n m self.new (taking result ps (spelled (reading L.Letter.alphabet L.Printable.parsed) bytes.now)) }
        ensures same { OnErr result (Unchanged self.old self.new) }
    {
        self.judge(&Spelling::read::<L>(bytes)?)
    }
}
