//! The machine: it carries out a guest program, and what it does is what the program means. Its vector registers lie in
//! the slices of an associative memory, and its vector instructions are replays of programs of micro-operations.
#![tactic(auto)]

mod accesses;
mod answers;
mod fetching;
mod moves;
mod parts;
mod planning;
mod resuming;
mod steps;
mod vectors;

pub use answers::{DeviceFault, Step};
pub use parts::Machine;
pub use resuming::resume_law;
