//! The decoder of scalar instruction words: RV32I, M, Zicsr and Zifencei (RISC-V unprivileged specification, the chapters
//! of these names).
#![tactic(auto)]

mod decoder;
mod encodings;
mod fields;
mod formats;
mod groups;
mod instruction;
mod opcodes;
mod operations;

pub use decoder::{decode, no_word_fits_two_rows};
pub use instruction::Instr;
pub use operations::Op;
