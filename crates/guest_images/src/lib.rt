//! Small images for the tests and the cases above: one segment that is the whole file, with code after its headers. It is
//! loaded at 00010000, may be read and executed, and is entered at 00010054, where its first word stands.
#![tactic(auto)]

pub use work_gen::{MOST_WORDS, SEGMENT, image_of};
