//! What a vector load or store moves (vector extension 1.0, section 7).

/// How far after the base an element stands, in bytes.
#[derive(Clone, Copy, PartialEq, Eq, Debug)]
pub enum Offset {
    /// So many bytes times its number, modulo 2^32.
    Step(u32),
    /// The element of its number of the group of indices from this register on, of so many bits each.
    Index(u8, u8),
}

/// What a vector load or store moves: elements, each with one or more fields that stand side by side in memory.
#[derive(Clone, Copy, PartialEq, Eq, Debug)]
pub struct Access {
    /// The first register: vd, or vs3 of a store.
    pub register: u8,
    /// The registers of one field.
    pub registers: u8,
    /// The fields of an element: 1, or those of a segment.
    pub fields: u8,
    /// The bits of a field.
    pub width: u8,
    /// How many elements there are: vl, or the instruction's own length.
    pub len: u32,
    /// Elements may be masked off.
    pub masked: bool,
    /// The tail is agnostic whatever vta is.
    pub agnostic_tail: bool,
    /// A fault above element 0 sets the vector length, and does not trap.
    pub trims: bool,
    pub offset: Offset,
}
