// Alphabets and automata as plain mathematics: definitions in specs/, their laws in proofs/. No code.
#![tactic(auto)]
