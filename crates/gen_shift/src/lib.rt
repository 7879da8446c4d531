//! The kinds of operation that move the bits of an element: shifts, and the extension by a sign.
//! Each call appends the list of micro-operations of its kind.
#![tactic(auto)]

mod calls;
mod kinds;
mod lists;
mod modes;
mod outs;
mod rounding;
mod rows;
mod stages;

pub use calls::{
    emit_sext, emit_sll, emit_sra, emit_sra_raw, emit_srl, emit_srl_raw, emit_ssra, emit_ssrl,
};
pub use kinds::Shift;
pub use lists::{emit_raw, emit_shift, raw_row, shift_length_law};
pub use modes::{DOWN, emit_mode};
pub use rounding::{emit_rounded, emit_rounding, rounding_row};
pub use rows::{LAST_ROW, MORE_ROW, MOVED_ROW, NEXT_LAST_ROW, NEXT_ROW, SHIFTED_ROW, SIGN_ROW};
