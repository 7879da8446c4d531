//! Elements of vector registers: their places and their numbers. It holds no code.
#![tactic(auto)]
