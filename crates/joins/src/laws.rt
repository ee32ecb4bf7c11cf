// The laws of the join, each the contract of a function of its own. They hold of every automaton over the letters.
ghost use Rattle.joinlaw.specs.Laws.{FillingLaw, JoinLaw, JoinOnce, NextRowLaw};

use letters::Letter;

// The filling is the least string that fills, over any letters that may be filled in.
pub fn filling_is_least<K: Letter>()
    ensures { FillingLaw K.alphabet }
{}

// The join by overlap and filling is the least string that joins, and there is none exactly where no string joins.
pub fn join_is_least<K: Letter>()
    ensures { JoinLaw K.alphabet }
{}

// The least string that joins is the one that overlap and filling give.
pub fn join_is_the_one<K: Letter>()
    ensures { JoinOnce K.alphabet }
{}

// The row from the last window of a text to the next is the least that continues the text.
pub fn next_row_is_least<K: Letter>()
    ensures { NextRowLaw K.alphabet }
{}
