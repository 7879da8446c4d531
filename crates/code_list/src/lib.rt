//! The listing of instruction words: a mnemonic, a space, and operands that a comma and a space separate. Registers are
//! `xN` and `vN`, immediates are decimal with their sign, and a word that means nothing is `.word` and its digits.
#![tactic(auto)]

mod forms;
mod listing;
mod names;
mod operand;
mod scalar;
mod vector;

pub use forms::{ScalarForm, VectorForm};
pub use listing::text;
pub use operand::Operand;
