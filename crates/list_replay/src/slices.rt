//! The slices as lines.
ghost use Rattle.std.specs.Prelude.{◌<◌};

use bit_rows::{Row, SUBARRAYS};
use cam_chain::Chain;
use op_texts::ROWS;
use std::alloc::AllocError;
use std::fmt::Write;

const BYTE_BITS: u32 = 8;

const BYTES_IN_WORD: u32 = 8;

// The bits of a hexadecimal digit; two digits make a byte, the higher one first.
const DIGIT_BITS: u32 = 4;

const DECIMAL: u32 = 10;

const HEXADECIMAL: u32 = 16;

// The bit of a column in the digits of a row, or `None` where they have none.
fn bit_of(digits: &[u8], col: u32) -> Option<bool> {
    let byte = 2 * (col / BYTE_BITS);
    let place = byte + u32::from(col % BYTE_BITS < DIGIT_BITS);
    let digit = (*digits.get(place as usize)? as char).to_digit(HEXADECIMAL)?;
    Some((digit >> (col % DIGIT_BITS)) & 1 == 1)
}

// Writes the bits of a row of a subarray, and tells whether the digits have one for each column.
fn set_bits(chain: &mut Chain, sub: u8, row: u8, digits: &[u8]) -> Option<()>
    requires sub { sub < 32 }
    requires row { row < 64 }
{
    for col in 0..chain.columns() {
        let others = chain.read_word(row, col) & !(1 << sub);
        chain.write_word(row, col, others | u32::from(bit_of(digits, col)?) << sub);
    }
    Some(())
}

/// Writes the row that the words name: its subarray, its number and its digits. `None` where they have another form.
pub(crate) fn set_row(chain: &mut Chain, words: &[&str]) -> Option<()> {
    let [sub, row, digits] = words else {
        return None;
    };
    let sub = u8::from_str_radix(sub, DECIMAL).ok()?;
    let row = u8::from_str_radix(row, DECIMAL).ok()?;
    if sub >= SUBARRAYS || row >= ROWS {
        return None;
    }
    set_bits(chain, sub, row, digits.as_bytes())
}

// Appends the bits of a row, in two hexadecimal digits for each eight columns.
fn push_bits(text: &mut String, row: &Row) -> Result<(), AllocError> {
    let words = row.words();
    for byte in 0..row.len().div_ceil(BYTE_BITS) {
        let bytes = words[(byte / BYTES_IN_WORD) as usize].to_le_bytes();
        let bits = bytes[(byte % BYTES_IN_WORD) as usize];
        write!(text, "{bits:02x}")?;
    }
    text.push('\n')
}

// Appends the rows of a subarray that are not all 0.
fn push_rows(text: &mut String, chain: &Chain, sub: u8) -> Result<(), AllocError>
    requires { sub < 32 }
{
    for number in 0..ROWS {
        let row = chain.row(sub, number);
        if row.count() > 0 {
            write!(text, "row {sub} {number} ")?;
            push_bits(text, row)?;
        }
    }
    Ok(())
}

/// Appends the rows and the tags of each subarray that are not all 0.
pub(crate) fn push_slices(text: &mut String, chain: &Chain) -> Result<(), AllocError> {
    for sub in 0..SUBARRAYS {
        push_rows(text, chain, sub)?;
        let tags = chain.tags(sub);
        if tags.count() > 0 {
            write!(text, "tags {sub} ")?;
            push_bits(text, tags)?;
        }
    }
    Ok(())
}
