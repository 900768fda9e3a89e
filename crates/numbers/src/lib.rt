// The paper's numbers to check by, as one table under one theorem: specs/Cases.antt and proofs/Cases.antt. No code.
#![tactic(auto)]
