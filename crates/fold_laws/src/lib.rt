//! Folds over the numbers below another: sums, counts, greatest and least numbers, and their laws. It holds no code.
#![tactic(auto)]
