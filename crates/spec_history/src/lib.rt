// The proof of demand 3: the claim about whole lists of calls that the crate spec states. It rests on the definitions alone and
// knows no function. This crate has no code of its own.

#![tactic(auto)]
