//! The kinds of operation in fixed point: averages, sums and differences that are clipped, and clips of
//! wide numbers. Each call appends the list of micro-operations of its kind.
#![tactic(auto)]

mod calls;
mod kinds;
mod lists;
mod narrow;
mod parts;
mod rows;

pub use calls::{
    emit_avg, emit_avgu, emit_clip, emit_clipu, emit_sadd, emit_saddu, emit_ssub, emit_ssubu,
};
pub use kinds::{Average, Clipping, Saturating};
pub use lists::{emit_average, emit_saturating, fixed_length_law};
pub use narrow::{emit_clipping, emit_sat};
pub use rows::{CLIPPED_ROW, OVERFLOW_ROW};
