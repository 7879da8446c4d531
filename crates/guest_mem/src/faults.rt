// Why an access is refused.

/// An access was refused: the first address of its range that lacks a permission that the access needs.
#[derive(Clone, Copy, Debug, PartialEq, Eq)]
pub struct MemFault {
    pub address: u32,
}

/// A trap of the guest: its cause, the pc of the instruction, and the value that goes with the cause (RISC-V
/// privileged specification, mcause and mtval).
#[derive(Clone, Copy, Debug, PartialEq, Eq)]
pub struct Trap {
    pub cause: u8,
    pub pc: u32,
    pub value: u32,
}
