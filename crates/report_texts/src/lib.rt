//! Texts that commands write: the lines that a command ends with, the state of a machine, and the layout of an image.
#![tactic(auto)]

mod layout;
mod lines;
mod state;
mod text;

pub use layout::write_layout;
pub use line_text::LineBuf;
pub use lines::{refused_line, report_line};
pub use state::{control_lines, write_scalars, write_state, write_vector};
pub use text::write_line;
