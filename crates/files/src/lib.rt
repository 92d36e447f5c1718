// What 01 says about schedule bytes, proved of the definitions of the crate schedule, in proofs/. No code of its own.
#![tactic(auto)]
