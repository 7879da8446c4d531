//! Tests of vector loads and stores, worked out by hand, at the end of the last page of a stack. They use public calls alone, so
//! they stand in a crate of their own: a change of a test does not prove what it tests again.
#![tactic(auto)]

#[cfg(test)]
mod accesses;
#[cfg(test)]
mod instructions;
