// 01's examples 1 to 10, proved of the definitions together, in specs/. No code of its own.
#![tactic(auto)]
