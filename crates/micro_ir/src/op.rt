use cam_chain::Keys;
use reduce_tree::How;
use steer_net::Reach;

/// One operation. Bit s of `subs` selects subarray s; a row is below 64. The control number and the
/// clip flag are those of `Control`.
#[derive(Drop)]
pub enum MicroOp {
    /// In each selected subarray the tags become the match, or are or-ed with it where `join`.
    Search {
        subs: u32,
        keys: Keys,
        join: bool,
    },
    /// Writes the bit into the row of each selected subarray, in its tagged columns.
    Update {
        subs: u32,
        row: u8,
        bit: bool,
    },
    /// Moves the tags `times` subarrays, from 1 to 31, up or down.
    Pass {
        up: bool,
        times: u8,
    },
    /// Each bit of an element of `width` bits of the row becomes 1 where the element's number is
    /// from `from` on and below `to` and, where `masked`, its bit of row 0 is 1, and else 0. The first
    /// element of the row has the number `first`.
    Window {
        row: u8,
        width: u8,
        first: u32,
        from: u32,
        to: u32,
        masked: bool,
    },
    /// Each bit of an element of `width` bits of the row becomes 1 where the element is free, and
    /// else 0: it is of the tail, whose numbers are from `to` on, and `tail`; or it lies from `from`
    /// on and below `to`, `masked` and `off`, and its bit of row 0 is 0. The first element of the row
    /// has the number `first`.
    Free {
        row: u8,
        width: u8,
        first: u32,
        from: u32,
        to: u32,
        masked: bool,
        tail: bool,
        off: bool,
    },
    /// Each element of `width` bits whose highest bit in the row `under` is 1 writes its highest bit
    /// in the row `from` into a bit of the row `to`: the one of its number, which is `first` for the
    /// first element of the row.
    PackMask {
        from: u8,
        under: u8,
        to: u8,
        width: u8,
        first: u32,
    },
    /// Writes 1 into the row, in the tagged columns of each subarray whose bit in its element of
    /// `width` bits is 1 in the control number.
    UpdateBy {
        row: u8,
        width: u8,
    },
    /// Each element of `wide` bits of the row `to` becomes an element of `narrow` bits of the row
    /// `from`, extended by zeros: those of the part `part` of that row, in their order.
    Spread {
        from: u8,
        to: u8,
        narrow: u8,
        wide: u8,
        part: u8,
    },
    /// The elements of the part `part` of the row `to`, of half as many bits, become the low halves
    /// of the elements of `wide` bits of the row `from`, in their order. The other part stays.
    Narrow {
        from: u8,
        to: u8,
        wide: u8,
        part: u8,
    },
    /// Each element of `width` bits of the row `to` becomes the element of the group of registers
    /// from `base` on whose number is lower by `by` where `up`, and else higher, or 0 where the group
    /// has none below `limit`. The first element of the row has the number `first`.
    Slide {
        to: u8,
        base: u8,
        width: u8,
        first: u32,
        up: bool,
        by: u32,
        limit: u32,
    },
    /// Each element of `width` bits of the row `to` becomes the element `index` of the group of
    /// registers from `base` on, or 0 where the group has none below `limit`.
    Pick {
        to: u8,
        base: u8,
        width: u8,
        index: u32,
        limit: u32,
    },
    /// Each element of `width` bits of the row becomes its number, modulo 2 to the power `width`. The
    /// first element of the row has the number `first`.
    Index {
        to: u8,
        width: u8,
        first: u32,
    },
    /// Sets the control number.
    SetNum {
        num: u64,
    },
    /// Takes the number of the tags in the selected subarrays into the control number, where each
    /// stands for the bit `bit` of it, or into the clip flag.
    Count {
        subs: u32,
        bit: u8,
        how: How,
    },
    /// The control number becomes the place of the first tag, or the greatest number of 32 bits where
    /// no tag is set. The tag of a column in a subarray has the place 32 times the column plus the
    /// subarray.
    First,
    /// Each bit of the row becomes 1 where its place is below the control number, at most it, or it.
    Below {
        to: u8,
        how: Reach,
    },
}
