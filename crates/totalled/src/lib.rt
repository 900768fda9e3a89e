// What leaf totals add up to: definitions in specs/, theorems in proofs/. No code.
#![tactic(auto)]
