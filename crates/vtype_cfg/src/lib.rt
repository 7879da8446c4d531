//! The vector configuration, and which vector instructions are legal under it.
#![tactic(auto)]

mod classes;
mod configuration;
mod intervals;
mod legality;
mod operands;
mod vtype;

pub use configuration::{Avl, Cfg, Policy, set_vl};
pub use legality::legal;
pub use vtype::Vtype;
