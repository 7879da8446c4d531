//! The operations that can be asked for.

// Each column of a row has a bit in each subarray.
const SUBARRAYS: u32 = 32;

// Rows of a subarray are words of so many bits and bytes.
const WORD_BITS: u32 = 64;

const WORD_BYTES: u32 = 8;

/// An operation of a chain, of its networks or of its tree.
#[derive(Clone, Copy)]
pub(crate) enum Operation {
    Search,
    Keys,
    Join,
    Update,
    Pass,
    Window,
    Bytes,
    Masked,
    Mask,
    Free,
    Pack,
    Count,
    Any,
    First,
}

/// What a line asks.
#[derive(Drop)]
pub(crate) struct Asked<'a> {
    pub(crate) name: &'a str,
    pub(crate) operation: Operation,
    pub(crate) columns: u32,
    pub(crate) times: u32,
}

/// What a line asks, or `None` where it has another form.
pub(crate) fn asked_in(line: &str) -> Option<Asked<'_>> {
    let mut parts = line.split_whitespace();
    let name = parts.next()?;
    let operation = operation_of(name)?;
    let columns = parts.next()?.parse().ok()?;
    let times = parts.next()?.parse().ok()?;
    parts.next().is_none().then_some(Asked {
        name,
        operation,
        columns,
        times,
    })
}

fn operation_of(name: &str) -> Option<Operation> {
    let operation = match name {
        "search" => Operation::Search,
        "keys" => Operation::Keys,
        "join" => Operation::Join,
        "update" => Operation::Update,
        "pass" => Operation::Pass,
        "window" => Operation::Window,
        "bytes" => Operation::Bytes,
        "masked" => Operation::Masked,
        "mask" => Operation::Mask,
        "free" => Operation::Free,
        "pack" => Operation::Pack,
        "count" => Operation::Count,
        "any" => Operation::Any,
        "first" => Operation::First,
        _ => return None,
    };
    Some(operation)
}

/// How many bytes of rows an operation on all subarrays reads and writes at least.
pub(crate) fn bytes_of(asked: &Asked<'_>) -> u64 {
    let row = asked.columns.div_ceil(WORD_BITS);
    u64::from(rows_of(asked.operation)) * u64::from(row) * u64::from(WORD_BYTES)
}

// How many rows of subarrays are read and written.
fn rows_of(operation: Operation) -> u32 {
    match operation {
        // the row of the key, and the tags
        Operation::Search | Operation::Pass => 2 * SUBARRAYS,
        Operation::Keys => 4 * SUBARRAYS,
        // the tags are read too
        Operation::Join | Operation::Update => 3 * SUBARRAYS,
        Operation::Window | Operation::Bytes => SUBARRAYS,
        // the mask, and the row
        Operation::Masked | Operation::Mask | Operation::Free => 2 * SUBARRAYS,
        // the highest bits of four elements in two rows, and the row before and after
        Operation::Pack => 8 + 2 * SUBARRAYS,
        Operation::Count | Operation::Any | Operation::First => SUBARRAYS,
    }
}
