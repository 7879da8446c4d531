/// A group of registers, and the window of its active elements.
#[derive(Clone, Copy, Debug, PartialEq, Eq)]
pub struct Span {
    /// The first register of the group.
    pub base: u8,
    /// The number of its registers, from 1 to 8.
    pub regs: u8,
    /// The number of elements in a register, from 1 to 8,192.
    pub per: u32,
    /// The first element that may be active.
    pub from: u32,
    /// The element above the last one that may be active.
    pub to: u32,
    /// Whether an element is active only where its bit of the mask is 1.
    pub masked: bool,
}
