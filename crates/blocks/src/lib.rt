// The blocks of a run, one after the other, are the run program's output: definitions in specs/, proofs in proofs/. No code of its own.
#![tactic(auto)]
