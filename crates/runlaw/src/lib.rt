// The run automaton as plain mathematics: its steps in specs/, its laws in proofs/. No code.
#![tactic(auto)]
