// The list while it takes patterns: what it is made of, and what always holds of it.
ghost use Rattle.std.specs.Prelude.{◌<◌, ◌≤◌, length};
ghost use Rattle.lists.specs.Names.{Under};
ghost use Rattle.lists.specs.Lists.{columns, Held};

use crate::tree::Tree;
use std::marker::PhantomData;

// The records that a list needs, one for each state that it can have; it needs as many words for each letter.
pub const STATES: usize = 512;
// The patterns that a list can take, and the letters that one can have.
pub const PATTERNS: usize = 64;

pub const LETTERS: usize = 12;

// A list that takes patterns over the letters of `L`. Finished, it is an automaton, and takes no more.
#[derive(Drop)]
pub struct Builder<'a, L> {
    pub(crate) tree: Tree<'a>,
    // lent words, as the tree's records are
    pub(crate) words: &'a mut [u16],
    // patterns so far, and the length of the longest
    pub(crate) taken: usize,
    pub(crate) longest: usize,
    pub(crate) kind: PhantomData<L>,
    // only tables that are long enough take a pattern, and then the words have a place for each of its letters
    ghost fits: { (0 < taken → 512 ≤ length tree.records.now) },
    ghost small: { Under (columns words.now) tree.records.now tree.used },
    // there are patterns of which these are the states and the ends; the calls say which
    ghost held: { Held tree.records.now tree.used taken longest },
    ghost brief: { longest ≤ 12 },
}
