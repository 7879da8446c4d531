//! Micro-operations on a chain: lists of them, and their replay.
#![tactic(auto)]

mod buf;
mod control;
mod folding;
mod increments;
mod op;
mod pieces;
mod place;
mod replaying;
mod tables;
mod text;
mod work_rows;

pub use buf::MicroBuf;
pub use control::Control;
pub use increments::emit_increment;
pub use op::MicroOp;
pub use pieces::{
    BitRange, emit_above, emit_below, emit_broadcast, emit_clear, emit_commit, emit_downs,
    emit_everywhere, emit_rows, emit_ups, lanes, push_found,
};
pub use place::Place;
pub use replaying::replay;
pub use tables::{TableStep, emit_table, push_step};
pub use text::{LineBuf, listing};
pub use work_rows::{
    ACTIVE_ROW, BROADCAST_ROW, CARRY_ROW, FREE_ROW, LEFT_ROW, MASK_ROW, RESULT_ROW, RIGHT_ROW,
    SCALAR_ROW, TRUTH_ROW,
};
