// The join as plain mathematics: definitions in specs/, their theorems in proofs/. No code.
#![tactic(auto)]
