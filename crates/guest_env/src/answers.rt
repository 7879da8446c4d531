// How a call ends, and what it answers where it is refused.
use thiserror::Error;

/// How a call ends.
#[derive(Clone, Copy, Debug, PartialEq, Eq)]
pub enum EnvFlow {
    /// The guest goes on after the call.
    Back,
    /// The guest exited with this code.
    Exit(u8),
}

/// The device that failed in a call. Its count of faults rose.
#[derive(Clone, Copy, Debug, PartialEq, Eq, Error)]
pub enum EnvFault {
    /// The input, in a read.
    #[error("the input failed")]
    ReadFault,
    /// The sink that takes the bytes of a write.
    #[error("an output failed")]
    WriteFault,
}

// The answers of a call that is refused: for its descriptor (-9, EBADF), for its range (-14, EFAULT), since its
// descriptor has no place to seek (-29, ESPIPE), and since there is no such call (-38, ENOSYS).
pub(crate) const BAD_DESCRIPTOR: u32 = 0xffff_fff7;

pub(crate) const BAD_ADDRESS: u32 = 0xffff_fff2;

pub(crate) const NO_SEEK: u32 = 0xffff_ffe3;

pub(crate) const NO_CALL: u32 = 0xffff_ffda;
