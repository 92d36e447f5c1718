// 01's place table, its events and its refusals, as definitions in specs/; laws and demand 3 in proofs/. No code of its own.
#![tactic(auto)]
