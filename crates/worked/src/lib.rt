// Books worked out by hand: X, Y and Z with their rows and numbers in specs/, the computed test of them in proofs/. No code.
#![tactic(auto)]
