// How the calls of a machine answer.
use guest_mem::Trap;
use thiserror::Error;

/// How a step or a run answers: by the mode of the state that it leaves.
#[derive(Clone, Copy, Debug, PartialEq, Eq)]
pub enum Step {
    /// The machine runs on.
    Ran,
    /// The guest exited with this code.
    Exited(u8),
    /// The guest trapped, with the machine at the instruction.
    Trapped(Trap),
}

/// The device that failed in a step.
#[derive(Clone, Copy, Debug, PartialEq, Eq, Error)]
pub enum DeviceFault {
    #[error("the input failed")]
    ReadFault,
    #[error("an output failed")]
    WriteFault,
}
