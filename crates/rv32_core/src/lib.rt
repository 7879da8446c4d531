//! The execution of scalar instructions: RV32I, M, Zicsr and Zifencei (RISC-V unprivileged specification, the chapters of
//! these names).
#![tactic(auto)]

mod accesses;
mod arithmetic;
mod control_registers;
mod execution;
mod regs;
mod transfers;
mod traps;

pub use execution::exec;
pub use regs::Regs;
pub use rvv_meaning::{Csrs, Flow};
