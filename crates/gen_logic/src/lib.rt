//! The kinds of operation that act bit by bit, and the frame's own lists: each is appended to a list
//! of micro-operations, and its contract says what the list does, whatever the width of elements.
#![tactic(auto)]

mod calls;
mod frame;
mod kinds;

pub use calls::{
    emit_and, emit_andn, emit_merge, emit_move, emit_nand, emit_nor, emit_or, emit_orn, emit_xnor,
    emit_xor,
};
pub use frame::{emit_fill, emit_splat};
pub use kinds::{Logic, emit_logic, logic_length_law};
