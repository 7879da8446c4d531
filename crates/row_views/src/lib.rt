//! Rows of slices by the places of their elements, and what tags of elements are counted. It holds no code.
#![tactic(auto)]
