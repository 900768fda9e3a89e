// The two moments of a call: what a reference that is lent refers to at each (specs/). No code.
#![tactic(auto)]
