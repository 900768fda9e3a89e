// Sets of numbers, and tables of sets: definitions in specs/, laws in proofs/. No code.
#![tactic(auto)]
