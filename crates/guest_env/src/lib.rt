//! The calls that a guest makes of its environment, with the numbers and the answers of Linux for RISC-V.
#![tactic(auto)]

mod answers;
mod calls;
mod descriptors;
mod numbers;
mod ranges;
mod reads;
mod writes;

pub use answers::{EnvFault, EnvFlow};
pub use calls::call;
