// The tables that the programs lend to the library calls, each allocated once, and what the programs on one file share.
// The tables are long enough for every file that a program takes.
#![tactic(auto)]

ghost use Rattle.std.specs.Prelude.{◌≡◌, IfOk, vec_len};

pub mod program;

use lent::{LentLetters, LentList};
use letters::{Flow, Seepage, Trend, Two};
use lists::Record;
pub use program::run;
use std::alloc::{AllocError, Global};

// A record for each state that a list can have, and a word for each of them and each letter of the largest kind.
pub const RECORDS: usize = 512;

pub const WORDS: usize = 4096;
// Four words for each state that an automaton can have.
pub const WORK: usize = 16384;
// The letters of the longest text.
pub const TEXT: usize = 30000;

// The two tables of a list.
#[derive(Drop)]
pub struct Listing {
    pub records: Vec<Record>,
    pub words: Vec<u16>,
}

impl Listing {
    pub fn new(heap: Global) -> Result<Listing, AllocError>
        ensures { IfOk result (λ t. (vec_len t.records ≡ 512) × (vec_len t.words ≡ 4096)) }
    {
        let records = vec![in heap; Record::BLANK; RECORDS]?;
        let words = vec![in heap; 0u16; WORDS]?;
        Ok(Listing { records, words })
    }

    // The two tables, lent.
    pub fn lend(&mut self) -> LentList<'_>
        ensures { (result.records.now ≡ self.old.records.items) × (result.words.now ≡ self.old.words.items) }
    {
        LentList {
            records: &mut self.records,
            words: &mut self.words,
        }
    }
}

// A table of letters for each kind: a field each, since they differ in type.
#[derive(Drop)]
pub struct Letters {
    pub two: Vec<Two>,
    pub trend: Vec<Trend>,
    pub seepage: Vec<Seepage>,
}

impl Letters {
    // Tables of n letters each.
    pub fn new(heap: Global, n: usize) -> Result<Letters, AllocError>
        ensures { IfOk result (λ t. (vec_len t.two ≡ n) × (vec_len t.trend ≡ n) × (vec_len t.seepage ≡ n)) }
    {
        let two = vec![in heap; Two::A; n]?;
        let trend = vec![in heap; Trend::Steady; n]?;
        let clear = Seepage {
            flow: Flow::Zero,
            cloudy: false,
        };
        let seepage = vec![in heap; clear; n]?;
        Ok(Letters {
            two,
            trend,
            seepage,
        })
    }

    // The three tables, lent.
    pub fn lend(&mut self) -> LentLetters<'_>
        ensures { (result.two.now ≡ self.old.two.items) × (result.trend.now ≡ self.old.trend.items) × (result.seepage.now ≡ self.old.seepage.items) }
    {
        LentLetters {
            two: &mut self.two,
            trend: &mut self.trend,
            seepage: &mut self.seepage,
        }
    }
}
