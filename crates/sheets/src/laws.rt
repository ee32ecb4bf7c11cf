// The law of a sheet over every list of calls, as the contract of a function of its own. It holds of every automaton over
// the letters, every text table and every list of letters and gaps, refused ones included, with any work tables.
ghost use Rattle.sheetlaw.specs.NextRow.{EverySheet};

use letters::Letter;

// What each call answers and leaves is what the definitions of a call give; the text is shortest among the strings that
// pass and have the kept windows in order; 8 and 9 come exactly when they must; the counts are those of the calls.
pub fn sheet_law<K: Letter>()
    ensures { EverySheet K.alphabet }
{}
