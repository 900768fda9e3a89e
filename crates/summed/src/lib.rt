// What a tally sums up: definitions in specs/, theorems in proofs/. No code.
#![tactic(auto)]
