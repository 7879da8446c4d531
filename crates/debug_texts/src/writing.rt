// Texts that are written to a sink, in one piece or in several.
ghost use Rattle.std.specs.Prelude.{◌≡◌, ◌+◌, ◌<◌, ◌≤◌, ◌++◌, codes, decimal, is_ok};
ghost use Rattle.arrayvec.specs.ArrayString.{array_string_len};
ghost use Rattle.bit_laws.specs.Digits.{hex_word};
ghost use Rattle.cape_io.specs.Views.{Writes};
ghost use Rattle.debug_texts.specs.ShownTexts.{word_at, word_text, place_line, operation_line};

use cape_io::{Failed, Sink};
use code_list::text;
use guest_mem::Mem;
use itoa::Buffer;
use line_text::{LineBuf, push_hex};
use micro_ir::{MicroOp, listing};

// The hexadecimal digits of a word.
pub(crate) const WORD_DIGITS: u32 = 8;

/// Writes a text; at `Failed` it wrote some prefix of it.
#[tactic(auto, using(cape_io::proofs::Writing::writes_put))]
pub fn write_text<O: Sink>(bytes: &[u8], out: &mut O) -> Result<(), Failed>
    ensures { Writes O.Sink bytes.now (is_ok result) out.old out.new }
{
    out.put(bytes)
}

// Writes a line.
pub(crate) fn write_line<O: Sink>(line: &LineBuf, out: &mut O) -> Result<(), Failed>
    ensures { Writes O.Sink line.now.bytes (is_ok result) out.old out.new }
{
    write_text(line.as_str().as_bytes(), out)
}

// Writes the beginning of a line, what follows it, and the end of the line.
fn write_parts<O: Sink>(head: &LineBuf, rest: &LineBuf, out: &mut O) -> Result<(), Failed>
    ensures { Writes O.Sink (head.now.bytes ++ (rest.now.bytes ++ codes "\n")) (is_ok result) out.old out.new }
{
    write_line(head, out)?;
    write_line(rest, out)?;
    write_text(b"\n", out)
}

// The address and the retired count of a place.
fn place_head(pc: u32, retired: u64) -> LineBuf
    ensures { result.bytes ≡ codes "at " ++ hex_word pc ++ codes " " ++ decimal retired ++ codes " " }
{
    let mut line = LineBuf::new();
    let mut digits = Buffer::new();
    line.push_str("at ");
    push_word(&mut line, pc);
    line.push_str(" ");
    line.push_str(digits.format(retired));
    line.push_str(" ");
    line
}

// Appends a number in eight hexadecimal digits.
#[tactic(auto, unfolding(bit_laws::specs::Digits::hex_word))]
pub(crate) fn push_word(line: &mut LineBuf, value: u32)
    requires { array_string_len line.old + 8 ≤ 240 }
    ensures text { line.new.bytes ≡ line.old.bytes ++ hex_word value }
    ensures room { array_string_len line.new ≡ array_string_len line.old + 8 }
{
    push_hex(line, WORD_DIGITS, value);
}

// The listing of the word at a place, where it can be fetched.
fn word_listing(mem: &Mem, pc: u32) -> LineBuf
    ensures { result.bytes ≡ word_text (word_at mem.now.pages pc) }
{
    let mut line = LineBuf::new();
    match mem.fetch(pc) {
        Ok(word) => text(word, &mut line),
        Err(_) => line.push_str("unreadable"),
    }
    line
}

/// Writes the line of the place of a machine that runs: its pc, how many instructions retired, and the listing of the
/// word there, or `unreadable` where it cannot be fetched.
pub fn write_place<O: Sink>(pc: u32, retired: u64, mem: &Mem, out: &mut O) -> Result<(), Failed>
    ensures { Writes O.Sink (place_line pc retired mem.now.pages) (is_ok result) out.old out.new }
{
    write_parts(&place_head(pc, retired), &word_listing(mem, pc), out)
}

// The number of an operation.
fn operation_head(k: u32) -> LineBuf
    ensures { result.bytes ≡ codes "micro " ++ decimal k ++ codes " " }
{
    let mut line = LineBuf::new();
    let mut digits = Buffer::new();
    line.push_str("micro ");
    line.push_str(digits.format(k));
    line.push_str(" ");
    line
}

/// Writes the line of one operation of a program, by its place there.
pub fn write_operation<O: Sink>(k: u32, op: &MicroOp, out: &mut O) -> Result<(), Failed>
    ensures { Writes O.Sink (operation_line k op.now) (is_ok result) out.old out.new }
{
    let mut line = LineBuf::new();
    listing(op, &mut line);
    write_parts(&operation_head(k), &line, out)
}
