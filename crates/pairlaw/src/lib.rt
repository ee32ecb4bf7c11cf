// Two automata side by side as plain mathematics: the pair in specs/, its laws in proofs/. No code.
#![tactic(auto)]
