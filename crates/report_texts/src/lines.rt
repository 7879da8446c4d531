// The lines that a command ends with.
ghost use Rattle.std.specs.Prelude.{◌≡◌, ◌≤◌, ◌+◌, ◌++◌, codes, decimal};
ghost use Rattle.arrayvec.specs.ArrayString.{array_string_len};
ghost use Rattle.bit_laws.specs.Digits.{hex_word};
ghost use Rattle.rvv_meaning.specs.Texts.{newline};
ghost use Rattle.report_texts.specs.Lines.{line_of, refused_line as line_for};

use crate::text::push_word;
use elf_load::LoadFault;
use guest_mem::Trap;
use itoa::Buffer;
use line_text::LineBuf;
use machine::Step;

// ` after N` and the end of the line.
fn push_after(line: &mut LineBuf, retired: u64)
    requires { array_string_len line.old ≤ 100 }
    ensures { line.new.bytes ≡ line.old.bytes ++ codes " after " ++ decimal retired ++ newline }
{
    let mut digits = Buffer::new();
    line.push_str(" after ");
    line.push_str(digits.format(retired));
    line.push_str("\n");
}

// What a trap was.
fn push_trap(line: &mut LineBuf, trap: Trap)
    requires { array_string_len line.old ≤ 40 }
    ensures text { line.new.bytes ≡ line.old.bytes ++ decimal trap.cause ++ codes " at " ++ hex_word trap.pc ++ codes " value " ++ hex_word trap.value }
    ensures room { array_string_len line.new ≤ array_string_len line.old + 40 }
{
    let mut digits = Buffer::new();
    line.push_str(digits.format(trap.cause));
    line.push_str(" at ");
    push_word(line, trap.pc);
    line.push_str(" value ");
    push_word(line, trap.value);
}

/// The line for an answer.
pub fn report_line(answer: Step, retired: u64) -> LineBuf
    ensures { result.bytes ≡ line_of answer retired }
{
    let mut line = LineBuf::new();
    match answer {
        Step::Exited(code) => {
            let mut digits = Buffer::new();
            line.push_str("cape: exited ");
            line.push_str(digits.format(code));
            push_after(&mut line, retired);
        }
        Step::Trapped(trap) => {
            line.push_str("cape: trap ");
            push_trap(&mut line, trap);
            push_after(&mut line, retired);
        }
        Step::Ran => {
            line.push_str("cape: step limit");
            push_after(&mut line, retired);
        }
    }
    line
}

/// The line for an image that is refused.
pub fn refused_line(fault: LoadFault) -> LineBuf
    ensures { result.bytes ≡ line_for fault }
{
    let mut line = LineBuf::new();
    let mut digits = Buffer::new();
    line.push_str("cape: refused ");
    line.push_str(digits.format(fault.number()));
    line.push_str(" ");
    line.push_str(fault.name());
    line.push_str("\n");
    line
}
