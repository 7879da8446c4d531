//! The frame of vector instructions, and its laws: the operations that stand round the lists that compute the registers of
//! a destination, or that tell a truth of each element for a mask, and what they make of the registers; and the classes of
//! instructions by the operands that they read: for each, that the frame's program leaves the registers of the meaning
//! where a kind's list realises its value. It holds no code that runs; each function here is a law.
#![tactic(auto)]

mod class_laws;
mod group_laws;
mod mask_laws;
mod rows;

pub use class_laws::{
    compared_bytes_law, halved_bytes_law, halved_clip_law, halved_law, plain_bytes_law,
    plain_clip_law, plain_law,
};
pub use group_laws::{
    agreeing_law, bits_law, bounds_law, bytes_law, clip_law, even_tally_law, frame_law, group_law,
    held_law, length_law, prepared_law, range_law, single_bytes_law, single_law, tally_law,
    usual_bounds_law,
};
pub use mask_laws::{mask_frame_law, mask_law, mask_length_law, mask_range_law, mask_tally_law};
pub use rows::HALVES_ROW;
