//! The answers of a session that only show: the place of a machine, bytes of its memory, rows and tags of its slices, and
//! programs. Each is a definition over what the machine holds, and a call that writes it.
#![tactic(auto)]

mod lines;
mod rows;
mod writing;

pub use lines::{break_line, map_line, memory_line, program_line};
pub use rows::{write_replayed, write_slice, write_tags};
pub use writing::{write_operation, write_place, write_text};
