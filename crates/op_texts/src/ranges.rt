//! Which operations a chain can run.
ghost use Rattle.std.specs.Prelude.{◌≡◌, ◌<◌, ◌/◌, true};
ghost use Rattle.steer_net.specs.Moves.{GroupReaches, is_wide};
ghost use Rattle.steer_net.specs.Network.{is_width, PackReaches};
ghost use Rattle.micro_ir.specs.Replay.{IsInRange, AllInRange};

use micro_ir::MicroOp;

/// The rows of a subarray.
pub const ROWS: u8 = 64;

// The registers, which are the first rows.
const REGISTERS: u8 = 32;

// The subarrays of a chain.
const SUBARRAYS: u8 = 32;

// A tag stands for one of so many lowest bits of the control number.
const COUNT_BITS: u8 = 32;

// The parts of a row that half as wide elements take.
const HALVES: u8 = 2;

/// Whether elements may have so many bits.
fn is_width(width: u8) -> bool
    ensures { result ≡ is_width width }
{
    matches!(width, 1 | 8 | 16 | 32)
}

/// Whether the elements of a row, of which the first has this number, have their bits in a mask.
fn has_mask_bits(columns: u32, width: u8, first: u32) -> bool
    ensures width { result ≡ true → is_width width ≡ true }
    ensures reach { result ≡ true → PackReaches columns width first }
{
    let columns = u64::from(columns);
    is_width(width)
        && u64::from(first) + columns * u64::from(SUBARRAYS / width)
            <= u64::from(SUBARRAYS) * columns
}

/// Whether the elements below the limit of the group from the register `base` on lie in registers.
fn has_registers(columns: u32, base: u8, width: u8, limit: u32) -> bool
    ensures width { result ≡ true → is_width width ≡ true }
    ensures reach { result ≡ true → GroupReaches columns base width limit }
{
    let registers = REGISTERS.saturating_sub(base);
    is_width(width)
        && u64::from(limit)
            <= u64::from(registers) * (u64::from(columns) * u64::from(SUBARRAYS / width))
}

/// Whether an element of `wide` bits has so many parts of `narrow` bits that one of them is `part`.
fn has_part(narrow: u8, wide: u8, part: u8) -> bool
    ensures narrow { result ≡ true → is_width narrow ≡ true }
    ensures wide { result ≡ true → is_width wide ≡ true }
    ensures less { result ≡ true → narrow < wide }
    ensures part { result ≡ true → part < wide / narrow }
{
    is_width(narrow) && is_width(wide) && narrow < wide && part < wide / narrow
}

/// Whether a chain of so many columns can run the operation.
pub fn is_in_range(columns: u32, op: &MicroOp) -> bool
    ensures { result ≡ true → IsInRange columns op.now }
{
    match op {
        MicroOp::Search { .. } => true,
        MicroOp::Update { row, .. } => *row < ROWS,
        MicroOp::Pass { times, .. } => 1 <= *times && *times < SUBARRAYS,
        MicroOp::Window {
            row,
            width,
            first,
            masked,
            ..
        } => {
            *row < ROWS && is_width(*width) && (!*masked || has_mask_bits(columns, *width, *first))
        }
        MicroOp::Free {
            row,
            width,
            first,
            ..
        } => *row < ROWS && has_mask_bits(columns, *width, *first),
        MicroOp::PackMask {
            from,
            under,
            to,
            width,
            first,
        } => {
            *from < ROWS && *under < ROWS && *to < ROWS && has_mask_bits(columns, *width, *first)
        }
        MicroOp::UpdateBy { row, width } => *row < ROWS && is_width(*width),
        MicroOp::SetNum { .. } | MicroOp::First => true,
        MicroOp::Count { bit, .. } => *bit < COUNT_BITS,
        MicroOp::Below { to, .. } => *to < ROWS,
        _ => can_move(columns, op),
    }
}

/// Whether a chain of so many columns can run an operation that moves or numbers elements; not where it is none.
fn can_move(columns: u32, op: &MicroOp) -> bool
    ensures { result ≡ true → IsInRange columns op.now }
{
    match op {
        MicroOp::Spread {
            from,
            to,
            narrow,
            wide,
            part,
        } => *from < ROWS && *to < ROWS && has_part(*narrow, *wide, *part),
        MicroOp::Narrow {
            from,
            to,
            wide,
            part,
        } => *from < ROWS && *to < ROWS && matches!(*wide, 16 | 32) && *part < HALVES,
        MicroOp::Slide {
            to,
            base,
            width,
            limit,
            ..
        }
        | MicroOp::Pick {
            to,
            base,
            width,
            limit,
            ..
        } => *to < ROWS && has_registers(columns, *base, *width, *limit),
        MicroOp::Index { to, width, .. } => *to < ROWS && is_width(*width),
        _ => false,
    }
}

/// Whether a chain of so many columns can run the operations.
#[tactic(auto, unfolding(micro_ir::specs::Replay::AllInRange))]
pub fn are_in_range(columns: u32, ops: &[MicroOp]) -> bool
    ensures { result ≡ true → AllInRange columns ops.now }
{
    for op in ops {
        if !is_in_range(columns, op) {
            return false;
        }
    }
    true
}
