//! What the commands of a session do: the desk of a session, its steps, what it shows, and a call that carries out a
//! command.
#![tactic(auto)]

mod desk;
mod performing;
mod showing;
mod stepping;

pub use desk::Desk;
pub use performing::{SessionFault, perform};
