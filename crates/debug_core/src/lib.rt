//! A session of the debugger: it reads commands line by line, carries each out on a machine, and answers it.
#![tactic(auto)]

mod sessions;
mod talking;

pub use debug_commands::SessionFault;
pub use sessions::session;
