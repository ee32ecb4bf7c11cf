// The list of forbidden patterns as mathematics: definitions in specs/, their laws in proofs/.
#![tactic(auto)]

ghost use Rattle.listlaw.specs.Standing.{WordsStand};

// The computed definitions say what they are named for.
pub fn words_stand()
    ensures { WordsStand }
{}
