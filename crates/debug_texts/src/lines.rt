// Answers of one short line.
ghost use Rattle.std.specs.Prelude.{◌≡◌, ◌+◌, ◌*◌, ◌<◌, ◌≤◌, ◌++◌, codes, decimal, length};
ghost use Rattle.arrayvec.specs.ArrayString.{array_string_len};
ghost use Rattle.bit_laws.specs.Digits.{hex_word};
ghost use Rattle.debug_texts.specs.ShownTexts.{byte_text, memory_bytes, memory_line as memory_text, program_line as program_text, break_line as break_text, map_line as map_text, on_or_off, on_or_there};

use crate::writing::push_word;
use guest_mem::Mem;
use itoa::Buffer;
use line_text::{LineBuf, push_hex};
use micro_ir::MicroBuf;

// The hexadecimal digits of a byte.
const BYTE_DIGITS: u32 = 2;

// Appends a byte in hexadecimal digits, or two dashes where there is none.
fn push_byte(line: &mut LineBuf, byte: Option<u8>)
    requires { array_string_len line.old + 2 ≤ 240 }
    ensures text { line.new.bytes ≡ line.old.bytes ++ byte_text byte }
    ensures room { array_string_len line.new ≡ array_string_len line.old + 2 }
{
    match byte {
        Some(byte) => push_hex(line, BYTE_DIGITS, u32::from(byte)),
        None => line.push_str("--"),
    }
}

/// The line of up to 64 bytes of memory from an address on, whatever their permissions. Addresses wrap at 32 bits.
#[tactic(auto, unfolding(crate::specs::ShownTexts::memory_line))]
pub fn memory_line(mem: &Mem, address: u32, len: u32) -> LineBuf
    requires { len ≤ 64 }
    ensures { result.bytes ≡ memory_text mem.now.pages address len }
{
    let mut line = LineBuf::new();
    line.push_str("mem ");
    push_word(&mut line, address);
    line.push_str(" ");
    push_bytes(&mut line, mem, address, len);
    line.push_str("\n");
    line
}

// Appends the bytes of memory from an address on.
fn push_bytes(line: &mut LineBuf, mem: &Mem, address: u32, len: u32)
    requires few { len ≤ 64 }
    requires room { array_string_len line.old ≤ 100 }
    ensures text { line.new.bytes ≡ line.old.bytes ++ memory_bytes mem.now.pages address len }
    ensures room { array_string_len line.new ≡ array_string_len line.old + 2 * len }
{
    for i in 0..len {
        push_byte(line, mem.peek(address.wrapping_add(i)));
    }
}

// Appends a name and a number.
fn push_count(line: &mut LineBuf, name: &str, count: u128)
    requires name { length name.now ≤ 10 }
    requires room { array_string_len line.old ≤ 180 }
    ensures text { line.new.bytes ≡ line.old.bytes ++ name.now ++ decimal count }
    ensures room { array_string_len line.new ≤ array_string_len line.old + 49 }
{
    let mut digits = Buffer::new();
    line.push_str(name);
    line.push_str(digits.format(count));
}

/// The line of a program: how many operations it has, and how many searches, updates and passes they make.
#[tactic(auto, unfolding(crate::specs::ShownTexts::program_line))]
pub fn program_line(program: &MicroBuf) -> LineBuf
    ensures { result.bytes ≡ program_text program.now.ops }
{
    let mut line = LineBuf::new();
    let tally = program.tally();
    push_count(&mut line, "micro ", program.ops().len() as u128);
    push_count(&mut line, " searches ", tally.searches);
    push_count(&mut line, " updates ", tally.updates);
    push_count(&mut line, " passes ", tally.passes);
    line.push_str("\n");
    line
}

// Whether a break stands, and whether a page was mapped.
fn stands_text(stands: bool) -> &'static str
    ensures { result.now ≡ on_or_off stands }
{
    if stands { " on\n" } else { " off\n" }
}

fn mapped_text(mapped: bool) -> &'static str
    ensures { result.now ≡ on_or_there mapped }
{
    if mapped { " on\n" } else { " there\n" }
}

/// The line of a break that was added, or taken away.
#[tactic(auto, unfolding(crate::specs::ShownTexts::break_line))]
pub fn break_line(address: u32, stands: bool) -> LineBuf
    ensures { result.bytes ≡ break_text address stands }
{
    let mut line = LineBuf::new();
    line.push_str("break ");
    push_word(&mut line, address);
    line.push_str(stands_text(stands));
    line
}

/// The line of a page that was mapped, or was there.
#[tactic(auto, unfolding(crate::specs::ShownTexts::map_line))]
pub fn map_line(address: u32, mapped: bool) -> LineBuf
    ensures { result.bytes ≡ map_text address mapped }
{
    let mut line = LineBuf::new();
    line.push_str("map ");
    push_word(&mut line, address);
    line.push_str(mapped_text(mapped));
    line
}
