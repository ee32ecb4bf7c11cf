// The tables that a caller lends to a call on a station file, which writes on those of the file's kind.
#![tactic(auto)]

use letters::{Seepage, Trend, Two};
use lists::Record;

// The two tables of a list of patterns.
#[derive(Drop)]
pub struct LentList<'a> {
    pub records: &'a mut [Record],
    pub words: &'a mut [u16],
}

// A table of letters for each kind: a field each, since they differ in type.
#[derive(Drop)]
pub struct LentLetters<'a> {
    pub two: &'a mut [Two],
    pub trend: &'a mut [Trend],
    pub seepage: &'a mut [Seepage],
}
