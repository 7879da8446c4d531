// The text about the work rows and the tags of the slices.
ghost use Rattle.std.specs.Prelude.{◌≡◌, ◌+◌, ◌-◌, ◌*◌, ◌<◌, ◌≤◌, ◌++◌, false, codes, decimal, is_ok, length, slice_index_or};
ghost use Rattle.std.specs.List.{flat_map, range_with_len};
ghost use Rattle.cape_io.specs.Views.{Writes};
ghost use Rattle.cam_chain.specs.ChainValue.{slices_of};
ghost use Rattle.run_texts.specs.WorkTexts.{flag, bits_number, bits_byte, bits_text, bytes_for, slice_line, tags_line, slice_lines, subarray_text, work_text};

use bit_rows::Row;
use cam_chain::Chain;
use cape_io::{Failed, Sink};
use itoa::Buffer;
use line_text::{LineBuf, push_hex};

// How many subarrays there are, and the first work row and the one after the last.
const SUBARRAYS: u8 = 32;

const FIRST_WORK_ROW: u8 = 32;

const AFTER_WORK_ROWS: u8 = 58;

// The bits of a byte.
const BYTE_BITS: u32 = 8;

// The hexadecimal digits of a byte.
const BYTE_DIGITS: u32 = 2;

// The most bytes of a row that are written at once.
const PIECE: u32 = 64;

// Writes a piece of a line.
#[tactic(auto, using(cape_io::proofs::Writing::writes_put))]
fn write_piece<E: Sink>(piece: &LineBuf, err: &mut E) -> Result<(), Failed>
    ensures { Writes E.Sink piece.now.bytes (is_ok result) err.old err.new }
{
    err.put(piece.as_str().as_bytes())
}

// Writes the end of a line.
#[tactic(auto, using(cape_io::proofs::Writing::writes_put))]
fn write_end<E: Sink>(err: &mut E) -> Result<(), Failed>
    ensures { Writes E.Sink (codes "\n") (is_ok result) err.old err.new }
{
    err.put(b"\n")
}

// The bit of a row at a place, and 0 past its end.
fn bit_of(row: &Row, place: u32) -> u32
    ensures value { result ≡ flag (slice_index_or row.now place false) }
    ensures small { result < 2 }
{
    if place < row.len() {
        u32::from(row.get(place))
    } else {
        0
    }
}

// A byte of a row.
fn byte_of(row: &Row, j: u32) -> u8
    requires { j ≤ 256 }
    ensures { result ≡ bits_number 8 (λ col. slice_index_or row.now col false) (8 * j) }
{
    let mut byte = 0;
    for b in (0..BYTE_BITS).rev() {
        byte = 2 * byte + bit_of(row, BYTE_BITS * j + b);
    }
    byte as u8
}

// The bytes of a row from one on and before another.
fn row_digits(row: &Row, first: u32, after: u32) -> LineBuf
    requires order { first ≤ after }
    requires end { after ≤ 256 }
    requires few { after ≤ first + 64 }
    ensures { result.bytes ≡ flat_map (bits_byte (λ col. slice_index_or row.now col false)) (range_with_len first (after - first)) }
{
    let mut line = LineBuf::new();
    for j in first..after {
        push_hex(&mut line, BYTE_DIGITS, u32::from(byte_of(row, j)));
    }
    line
}

// Writes the bytes of a row.
fn write_row<E: Sink>(row: &Row, err: &mut E) -> Result<(), Failed>
    ensures { Writes E.Sink (bits_text (length row.now) (λ col. slice_index_or row.now col false)) (is_ok result) err.old err.new }
{
    let bytes = row.len().div_ceil(BYTE_BITS);
    let mut first = 0;
    while first < bytes {
        let after = first + (bytes - first).min(PIECE);
        write_piece(&row_digits(row, first, after), err)?;
        first = after;
    }
    Ok(())
}

// What stands before the bytes of a row, and before those of the tags.
fn slice_name(sub: u8, row: u8) -> LineBuf
    ensures { result.bytes ≡ codes "slice " ++ decimal sub ++ codes " " ++ decimal row ++ codes " " }
{
    let mut line = LineBuf::new();
    let mut digits = Buffer::new();
    line.push_str("slice ");
    line.push_str(digits.format(sub));
    line.push_str(" ");
    line.push_str(digits.format(row));
    line.push_str(" ");
    line
}

fn tags_name(sub: u8) -> LineBuf
    ensures { result.bytes ≡ codes "tags " ++ decimal sub ++ codes " " }
{
    let mut line = LineBuf::new();
    let mut digits = Buffer::new();
    line.push_str("tags ");
    line.push_str(digits.format(sub));
    line.push_str(" ");
    line
}

/// Writes the line of a row of a subarray.
pub fn write_slice<E: Sink>(chain: &Chain, sub: u8, row: u8, err: &mut E) -> Result<(), Failed>
    requires subarray { sub < 32 }
    requires row { row < 64 }
    ensures { Writes E.Sink (slice_line (slices_of chain.now) sub row) (is_ok result) err.old err.new }
{
    write_piece(&slice_name(sub, row), err)?;
    write_row(chain.row(sub, row), err)?;
    write_end(err)
}

/// Writes the line of the tags of a subarray.
pub fn write_tags<E: Sink>(chain: &Chain, sub: u8, err: &mut E) -> Result<(), Failed>
    requires { sub < 32 }
    ensures { Writes E.Sink (tags_line (slices_of chain.now) sub) (is_ok result) err.old err.new }
{
    write_piece(&tags_name(sub), err)?;
    write_row(chain.tags(sub), err)?;
    write_end(err)
}

// Writes the lines of the work rows of a subarray.
fn write_slices<E: Sink>(chain: &Chain, sub: u8, err: &mut E) -> Result<(), Failed>
    requires { sub < 32 }
    ensures { Writes E.Sink (slice_lines (slices_of chain.now) sub) (is_ok result) err.old err.new }
{
    for row in FIRST_WORK_ROW..AFTER_WORK_ROWS {
        write_slice(chain, sub, row, err)?;
    }
    Ok(())
}

// Writes the lines of a subarray.
fn write_subarray<E: Sink>(chain: &Chain, sub: u8, err: &mut E) -> Result<(), Failed>
    requires { sub < 32 }
    ensures { Writes E.Sink (subarray_text (slices_of chain.now) sub) (is_ok result) err.old err.new }
{
    write_slices(chain, sub, err)?;
    write_tags(chain, sub, err)
}

/// Writes the work rows and the tags of each subarray, one a line. No piece has more than 240 bytes; at `Failed` it wrote
/// some prefix of the text.
pub fn write_work<E: Sink>(chain: &Chain, err: &mut E) -> Result<(), Failed>
    ensures { Writes E.Sink (work_text (slices_of chain.now)) (is_ok result) err.old err.new }
{
    for sub in 0..SUBARRAYS {
        write_subarray(chain, sub, err)?;
    }
    Ok(())
}
