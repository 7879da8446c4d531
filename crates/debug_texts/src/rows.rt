// Rows and tags.
ghost use Rattle.std.specs.Prelude.{◌≡◌, ◌+◌, ◌-◌, ◌*◌, ◌/◌, ◌<◌, ◌≤◌, ◌++◌, codes, decimal, length, is_ok};
ghost use Rattle.std.specs.List.{flat_map, range_with_len};
ghost use Rattle.arrayvec.specs.ArrayString.{array_string_len};
ghost use Rattle.cam_chain.specs.ChainValue.{slices_of};
ghost use Rattle.cape_io.specs.Views.{Writes};
ghost use Rattle.debug_texts.specs.ShownTexts.{bits_of, row_byte as byte_of_row, row_piece, row_text, bytes_for, slice_line, tags_line, replayed_line};

use crate::writing::{write_line, write_text};
use bit_rows::Row;
use cam_chain::Chain;
use cape_io::{Failed, Sink};
use itoa::Buffer;
use line_text::{LineBuf, push_hex};

// The bits of a byte.
const BYTE_BITS: u32 = 8;

// The bytes of a packed word of a row.
const WORD_BYTES: u32 = 8;

// The hexadecimal digits of a byte.
const BYTE_DIGITS: u32 = 2;

// The most bytes of a row that are written at once.
const PIECE: u32 = 64;

// Byte j of a row: its eight columns from 8 j on, the lowest first.
fn row_byte(row: &Row, j: u32) -> u8
    requires { j < bytes_for (length row.now) }
    ensures { result ≡ byte_of_row (bits_of row.now) j }
{
    let word = row.words()[(j / WORD_BYTES) as usize];
    (word >> (BYTE_BITS * (j % WORD_BYTES)) & 0xff) as u8
}

// The digits of the bytes of a row from one on and before another.
fn row_digits(row: &Row, first: u32, after: u32) -> LineBuf
    requires order { first ≤ after }
    requires end { after ≤ bytes_for (length row.now) }
    requires few { after ≤ first + 64 }
    ensures { result.bytes ≡ flat_map (row_piece (bits_of row.now)) (range_with_len first (after - first)) }
{
    let mut line = LineBuf::new();
    for j in first..after {
        push_hex(&mut line, BYTE_DIGITS, u32::from(row_byte(row, j)));
    }
    line
}

// Writes the bytes of a row.
fn write_row<O: Sink>(row: &Row, out: &mut O) -> Result<(), Failed>
    ensures { Writes O.Sink (row_text (length row.now) (bits_of row.now)) (is_ok result) out.old out.new }
{
    let bytes = row.len().div_ceil(BYTE_BITS);
    let mut first = 0;
    while first < bytes {
        let after = first + (bytes - first).min(PIECE);
        write_line(&row_digits(row, first, after), out)?;
        first = after;
    }
    Ok(())
}

// Writes a text and the bytes of a row after it.
fn write_row_after<O: Sink>(head: &LineBuf, row: &Row, out: &mut O) -> Result<(), Failed>
    ensures { Writes O.Sink (head.now.bytes ++ row_text (length row.now) (bits_of row.now)) (is_ok result) out.old out.new }
{
    write_line(head, out)?;
    write_row(row, out)
}

// The name of a row.
fn slice_head(sub: u8, row: u8) -> LineBuf
    ensures { result.bytes ≡ codes "slice " ++ decimal sub ++ codes " " ++ decimal row ++ codes " " }
{
    let mut line = LineBuf::new();
    let mut digits = Buffer::new();
    line.push_str("slice ");
    line.push_str(digits.format(sub));
    line.push_str(" ");
    line.push_str(digits.format(row));
    line.push_str(" ");
    line
}

/// Writes the line of a row of a subarray.
pub fn write_slice<O: Sink>(chain: &Chain, sub: u8, row: u8, out: &mut O) -> Result<(), Failed>
    requires sub { sub < 32 }
    requires row { row < 64 }
    ensures { Writes O.Sink (slice_line sub row (slices_of chain.now)) (is_ok result) out.old out.new }
{
    write_row_after(&slice_head(sub, row), chain.row(sub, row), out)?;
    write_text(b"\n", out)
}

// The name of the tags of a subarray.
fn tags_head(sub: u8) -> LineBuf
    ensures { result.bytes ≡ codes "tags " ++ decimal sub ++ codes " " }
{
    let mut line = LineBuf::new();
    let mut digits = Buffer::new();
    line.push_str("tags ");
    line.push_str(digits.format(sub));
    line.push_str(" ");
    line
}

/// Writes the line of the tags of a subarray.
pub fn write_tags<O: Sink>(chain: &Chain, sub: u8, out: &mut O) -> Result<(), Failed>
    requires { sub < 32 }
    ensures { Writes O.Sink (tags_line sub (slices_of chain.now)) (is_ok result) out.old out.new }
{
    write_row_after(&tags_head(sub), chain.tags(sub), out)?;
    write_text(b"\n", out)
}

// How many operations were replayed.
fn replayed_head(count: u32) -> LineBuf
    ensures { result.bytes ≡ codes "ustep " ++ decimal count ++ codes " row " }
{
    let mut line = LineBuf::new();
    let mut digits = Buffer::new();
    line.push_str("ustep ");
    line.push_str(digits.format(count));
    line.push_str(" row ");
    line
}

// What stands before the tags there.
fn tags_name() -> LineBuf
    ensures { result.bytes ≡ codes " tags " }
{
    let mut line = LineBuf::new();
    line.push_str(" tags ");
    line
}

/// Writes the line of a row and the tags of a subarray, on a chain on which so many operations were replayed.
pub fn write_replayed<O: Sink>(
    count: u32,
    chain: &Chain,
    sub: u8,
    row: u8,
    out: &mut O,
) -> Result<(), Failed>
    requires sub { sub < 32 }
    requires row { row < 64 }
    ensures { Writes O.Sink (replayed_line count sub row (slices_of chain.now)) (is_ok result) out.old out.new }
{
    write_row_after(&replayed_head(count), chain.row(sub, row), out)?;
    write_row_after(&tags_name(), chain.tags(sub), out)?;
    write_text(b"\n", out)
}
