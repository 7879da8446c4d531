//! The kinds of operation that carry from bit to bit: sums, comparisons, and the lesser and the
//! greater of two. Each call appends the list of micro-operations of its kind.
#![tactic(auto)]

mod calls;
mod kinds;
mod lists;
mod steps;

pub use calls::{
    emit_adc, emit_add, emit_eq, emit_gt, emit_gtu, emit_le, emit_leu, emit_lt, emit_ltu,
    emit_madc, emit_madc_in, emit_max, emit_maxu, emit_min, emit_minu, emit_msbc, emit_msbc_in,
    emit_ne, emit_sbc, emit_sub,
};
pub use kinds::{Choice, Sum, Truth};
pub use lists::{arith_length_law, emit_choice, emit_sum, emit_truth};
