// What a walk over the tables of a book lists: every occurrence and nothing else. Definitions in specs/, theorems in proofs/. No code.
#![tactic(auto)]
