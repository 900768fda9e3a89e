// What becomes of old tables when they are widened: definitions in specs/, theorems in proofs/. No code.
#![tactic(auto)]
