// What the rewriting of a station file is, as definitions and their theorems; the code is above.
#![tactic(auto)]
