// The text about the state of a machine.
ghost use Rattle.std.specs.Prelude.{◌≡◌, ◌+◌, ◌-◌, ◌*◌, ◌/◌, ◌<◌, ◌≤◌, ◌++◌, codes, decimal, is_ok};
ghost use Rattle.std.specs.List.{flat_map, range_with_len};
ghost use Rattle.arrayvec.specs.ArrayString.{array_string_len};
ghost use Rattle.cape_io.specs.Views.{Writes};
ghost use Rattle.bit_laws.specs.Digits.{hex_word};
ghost use Rattle.rvv_meaning.specs.Texts.{newline};
ghost use Rattle.report_texts.specs.StateTexts.{word_line, number_line, register_line, register_lines, scalar_lines, control_lines, hex_byte, vector_byte, vector_bytes, vector_line, vector_lines, state_text, flag};

use crate::text::{push_byte, push_word, write_line};
use cape_io::{Failed, Sink};
use itoa::Buffer;
use line_text::LineBuf;
use machine::Machine;
use rvv_meaning::Csrs;

// How many registers there are of each kind.
const REGISTERS: u8 = 32;

// The bits of a byte.
const BYTE_BITS: u32 = 8;

// The most bytes of a vector register that are written at once.
const PIECE: u32 = 64;

// Appends a space, a word and the end of the line.
fn push_word_line(line: &mut LineBuf, value: u32)
    requires { array_string_len line.old ≤ 200 }
    ensures text { line.new.bytes ≡ line.old.bytes ++ codes " " ++ hex_word value ++ newline }
    ensures room { array_string_len line.new ≤ array_string_len line.old + 10 }
{
    line.push_str(" ");
    push_word(line, value);
    line.push_str("\n");
}

// Appends a space, a number and the end of the line.
fn push_number(line: &mut LineBuf, value: u32)
    requires { array_string_len line.old ≤ 200 }
    ensures text { line.new.bytes ≡ line.old.bytes ++ codes " " ++ decimal value ++ newline }
    ensures room { array_string_len line.new ≤ array_string_len line.old + 12 }
{
    let mut digits = Buffer::new();
    line.push_str(" ");
    line.push_str(digits.format(value));
    line.push_str("\n");
}

// The line of the place.
fn pc_line(pc: u32) -> LineBuf
    ensures { result.bytes ≡ word_line (codes "pc") pc }
{
    let mut line = LineBuf::new();
    line.push_str("pc");
    push_word_line(&mut line, pc);
    line
}

// The line of a register.
fn register_line(machine: &Machine, r: u8) -> LineBuf
    requires { r < 32 }
    ensures { result.bytes ≡ register_line machine.now.core r }
{
    let mut line = LineBuf::new();
    let mut digits = Buffer::new();
    line.push_str("x");
    line.push_str(digits.format(r));
    push_word_line(&mut line, machine.regs().get(r));
    line
}

/// The lines of the control registers of the vector unit.
#[tactic(auto, unfolding(crate::specs::StateTexts::control_lines))]
pub fn control_lines(csrs: &Csrs) -> LineBuf
    ensures { result.bytes ≡ control_lines csrs.now }
{
    let mut lines = LineBuf::new();
    lines.push_str("vl");
    push_number(&mut lines, csrs.vl);
    lines.push_str("vtype");
    push_word_line(&mut lines, csrs.vtype);
    lines.push_str("vstart");
    push_number(&mut lines, csrs.vstart);
    lines.push_str("vxrm");
    push_number(&mut lines, u32::from(csrs.vxrm));
    lines.push_str("vxsat");
    push_number(&mut lines, u32::from(csrs.vxsat));
    lines
}

// The name of a vector register and a space.
fn vector_name(r: u8) -> LineBuf
    ensures { result.bytes ≡ codes "v" ++ decimal r ++ codes " " }
{
    let mut line = LineBuf::new();
    let mut digits = Buffer::new();
    line.push_str("v");
    line.push_str(digits.format(r));
    line.push_str(" ");
    line
}

// The end of a line.
fn line_end() -> LineBuf
    ensures { result.bytes ≡ newline }
{
    let mut line = LineBuf::new();
    line.push_str("\n");
    line
}

// The bytes of a vector register from one on and before another.
fn byte_digits(machine: &Machine, r: u8, first: u32, after: u32) -> LineBuf
    requires register { r < 32 }
    requires order { first ≤ after }
    requires end { after ≤ machine.now.core.csrs.vlen / 8 }
    requires few { after ≤ first + 64 }
    ensures { result.bytes ≡ flat_map (vector_byte machine.now.core r) (range_with_len first (after - first)) }
{
    let mut line = LineBuf::new();
    for j in first..after {
        push_byte(&mut line, machine.vreg_byte(r, j));
    }
    line
}

// Writes the bytes of a vector register.
fn write_bytes<E: Sink>(machine: &Machine, r: u8, err: &mut E) -> Result<(), Failed>
    requires register { r < 32 }
    ensures { Writes E.Sink (vector_bytes machine.now.core r) (is_ok result) err.old err.new }
{
    let bytes = machine.csrs().vlen / BYTE_BITS;
    let mut first = 0;
    while first < bytes {
        let after = first + (bytes - first).min(PIECE);
        write_line(&byte_digits(machine, r, first, after), err)?;
        first = after;
    }
    Ok(())
}

/// Writes the line of a vector register, in pieces of at most 240 bytes.
pub fn write_vector<E: Sink>(machine: &Machine, r: u8, err: &mut E) -> Result<(), Failed>
    requires register { r < 32 }
    ensures { Writes E.Sink (vector_line machine.now.core r) (is_ok result) err.old err.new }
{
    write_line(&vector_name(r), err)?;
    write_bytes(machine, r, err)?;
    write_line(&line_end(), err)
}

// Writes the lines of the registers.
fn write_registers<E: Sink>(machine: &Machine, err: &mut E) -> Result<(), Failed>
    ensures { Writes E.Sink (register_lines machine.now.core) (is_ok result) err.old err.new }
{
    for r in 0..REGISTERS {
        write_line(&register_line(machine, r), err)?;
    }
    Ok(())
}

/// Writes the lines of the place and of the registers.
pub fn write_scalars<E: Sink>(machine: &Machine, err: &mut E) -> Result<(), Failed>
    ensures { Writes E.Sink (scalar_lines machine.now.core) (is_ok result) err.old err.new }
{
    write_line(&pc_line(machine.pc()), err)?;
    write_registers(machine, err)
}

// Writes the lines of the vector registers.
fn write_vectors<E: Sink>(machine: &Machine, err: &mut E) -> Result<(), Failed>
    ensures { Writes E.Sink (vector_lines machine.now.core) (is_ok result) err.old err.new }
{
    for r in 0..REGISTERS {
        write_vector(machine, r, err)?;
    }
    Ok(())
}

/// Writes the place, the registers, the control registers and the vector registers, one a line. No piece has
/// more than 240 bytes; at `Failed` it wrote some prefix of the text.
pub fn write_state<E: Sink>(machine: &Machine, err: &mut E) -> Result<(), Failed>
    ensures { Writes E.Sink (state_text machine.now.core) (is_ok result) err.old err.new }
{
    write_line(&pc_line(machine.pc()), err)?;
    write_registers(machine, err)?;
    write_line(&control_lines(machine.csrs()), err)?;
    write_vectors(machine, err)
}
