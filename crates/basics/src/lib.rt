// What is generic: tests on numbers as facts, the rest of a list lent on, what is laid over a lent part, one answer to a promise. Rests on the
// kit alone. No code.
#![tactic(auto)]
