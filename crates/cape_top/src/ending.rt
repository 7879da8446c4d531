// How the top call ends.
ghost use Rattle.std.specs.Prelude.{◌≡◌};
ghost use Rattle.cape_top.specs.Codes.{code_of};

use elf_load::LoadFault;

// The statuses of the process that are no guest's code.
const DONE: u8 = 0;

const TRAPPED: u8 = 121;

const STEP_LIMIT: u8 = 122;

const REFUSED: u8 = 123;

const USAGE: u8 = 124;

const READ_FAULT: u8 = 125;

const WRITE_FAULT: u8 = 126;

const NO_MEMORY: u8 = 127;

/// How the top call ends.
#[derive(Clone, Copy, PartialEq, Eq)]
pub enum Status {
    /// The command ended, and put its whole text.
    Done,
    /// The guest exited with this code.
    Exited(u8),
    /// The guest trapped.
    Trapped,
    /// The budget of steps is used up, and the guest still runs.
    StepLimit,
    /// The image was read, and this is its first fault.
    Refused(LoadFault),
    /// The words are not in the grammar.
    Usage,
    /// The image could not be read.
    ReadFault,
    /// An output failed.
    WriteFault,
    /// There is not enough memory.
    NoMemory,
}

impl Status {
    /// The status of the process. A guest's own code may equal another; the report line tells them apart.
    pub fn code(self) -> u8
        ensures { result ≡ code_of self }
    {
        match self {
            Status::Done => DONE,
            Status::Exited(code) => code,
            Status::Trapped => TRAPPED,
            Status::StepLimit => STEP_LIMIT,
            Status::Refused(_) => REFUSED,
            Status::Usage => USAGE,
            Status::ReadFault => READ_FAULT,
            Status::WriteFault => WRITE_FAULT,
            Status::NoMemory => NO_MEMORY,
        }
    }
}
