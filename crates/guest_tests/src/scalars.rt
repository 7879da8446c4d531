// Worked values, by hand from the standard's text. Each row begins with the word of an instruction on x1, x2 and x3.
use self::Ends::{Call, Jump, Next, Traps};
use guest_mem::{Mem, Trap};
use rv32_core::{Csrs, Flow, Regs, exec};
use rv32_decode::decode;
use std::alloc::{AllocError as NoMemory, Global};
use std::test::Fail;

const PC: u32 = 0x0001_0000;

// What x3 holds before.
const BEFORE: u32 = 0x0333_3333;

// The control registers before.
const START: Csrs = Csrs {
    vstart: 3,
    vxrm: 2,
    vxsat: true,
    vl: 4,
    vtype: 0xd0,
    vlen: 128,
    retired: 0x0000_0007_8000_0009,
};

// How an instruction goes on: as a `Flow` says, of whose trap there are the cause and the value.
#[derive(Clone, Copy)]
enum Ends {
    Next,
    Jump(u32),
    Call,
    Traps(u8, u32),
}

// A word, x1 and x2, and what x3 holds after it; the instruction goes on with the next.
#[derive(Clone, Copy)]
struct Value(u32, u32, u32, u32);

// A word, x1 and x2, how the instruction goes on, and what x3 holds after it.
#[derive(Clone, Copy)]
struct Row(u32, u32, u32, Ends, u32);

// A word, x1, how the instruction goes on, and what x3, vstart, vxrm and vxsat hold after it.
#[derive(Clone, Copy)]
struct ControlRow(u32, u32, Ends, u32, u32, u8, bool);

const ARITHMETIC: [Value; 26] = [
    Value(0x0220_91b3, 0xaaaa_aaab, 0x0002_fe7d, 0xffff_0081), // mulh
    Value(0x0220_91b3, 0xff00_0000, 0xff00_0000, 0x0001_0000),
    Value(0x0220_91b3, 0x8000_0000, 0x8000_0000, 0x4000_0000),
    Value(0x0220_a1b3, 0xaaaa_aaab, 0x0002_fe7d, 0xffff_0081), // mulhsu
    Value(0x0220_a1b3, 0x0002_fe7d, 0xaaaa_aaab, 0x0001_fefe),
    Value(0x0220_a1b3, 0x8000_0000, 0xffff_ffff, 0x8000_0000),
    Value(0x0220_b1b3, 0xaaaa_aaab, 0x0002_fe7d, 0x0001_fefe), // mulhu
    Value(0x0220_b1b3, 0xffff_ffff, 0xffff_ffff, 0xffff_fffe),
    Value(0x0220_c1b3, 0x0000_0014, 0xffff_fffa, 0xffff_fffd), // div
    Value(0x0220_c1b3, 0xffff_ffec, 0x0000_0006, 0xffff_fffd),
    Value(0x0220_c1b3, 0x8000_0000, 0xffff_ffff, 0x8000_0000),
    Value(0x0220_c1b3, 0x8000_0000, 0x0000_0000, 0xffff_ffff),
    Value(0x0220_d1b3, 0x8000_0000, 0xffff_ffff, 0x0000_0000), // divu
    Value(0x0220_d1b3, 0x0000_0001, 0x0000_0000, 0xffff_ffff),
    Value(0x0220_e1b3, 0x0000_0014, 0xffff_fffa, 0x0000_0002), // rem
    Value(0x0220_e1b3, 0xffff_ffec, 0x0000_0006, 0xffff_fffe),
    Value(0x0220_e1b3, 0x8000_0000, 0xffff_ffff, 0x0000_0000),
    Value(0x0220_e1b3, 0x8000_0000, 0x0000_0000, 0x8000_0000),
    Value(0x0220_f1b3, 0xffff_ffec, 0x0000_0006, 0x0000_0002), // remu
    Value(0x4020_d1b3, 0x8181_8181, 0xffff_ffc7, 0xff03_0303), // sra
    Value(0x41f0_d193, 0x8000_0000, 0x0000_0000, 0xffff_ffff), // srai by 31
    Value(0x0020_a1b3, 0x8000_0000, 0x7fff_ffff, 0x0000_0001), // slt
    Value(0x0020_b1b3, 0x8000_0000, 0x7fff_ffff, 0x0000_0000), // sltu
    Value(0xfff0_b193, 0x7fff_ffff, 0x0000_0000, 0x0000_0001), // sltiu by -1
    Value(0x4020_81b3, 0x0000_0000, 0xffff_8000, 0x0000_8000), // sub
    Value(0xffff_f197, 0x0000_0000, 0x0000_0000, 0x0000_f000), // auipc by -0x1000
];

// The rows follow one another on one page, which begins with 80, ff, 7f and 01.
const TRANSFERS_AND_ACCESSES: [Row; 21] = [
    Row(0x0010_81e7, 0x2004, 0, Jump(0x2004), 0x0001_0004), // jalr x3, 1(x1)
    Row(0x0020_81e7, 0x2004, 0, Traps(0, 0x2006), BEFORE), // jalr x3, 2(x1)
    Row(0xffdf_f1ef, 0, 0, Jump(0x0000_fffc), 0x0001_0004), // jal x3, -4
    Row(0x0060_01ef, 0, 0, Traps(0, 0x0001_0006), BEFORE), // jal x3, 6
    Row(0xfe20_cce3, 0x8000_0000, 1, Jump(0x0000_fff8), BEFORE), // blt x1, x2, -8
    Row(0x0020_e463, 0x8000_0000, 1, Next, BEFORE), // bltu x1, x2, 8
    Row(0x0020_9363, 1, 2, Traps(0, 0x0001_0006), BEFORE), // bne x1, x2, 6
    Row(0x0020_9363, 2, 2, Next, BEFORE),
    Row(0x0000_8183, 0x1000, 0, Next, 0xffff_ff80), // lb x3, 0(x1)
    Row(0x0000_c183, 0x1000, 0, Next, 0x0000_0080), // lbu x3, 0(x1)
    Row(0x0010_9183, 0x0fff, 0, Next, 0xffff_ff80), // lh x3, 1(x1)
    Row(0x0010_9183, 0x1000, 0, Next, 0x0000_7fff),
    Row(0x0010_d183, 0x0fff, 0, Next, 0x0000_ff80), // lhu x3, 1(x1)
    Row(0x0010_a183, 0x1000, 0, Next, 0x0001_7fff), // lw x3, 1(x1)
    Row(0x0010_a183, 0x1ffd, 0, Traps(5, 0x2000), BEFORE),
    Row(0xfe20_af23, 0x2000, 5, Traps(7, 0x2000), BEFORE), // sw x2, -2(x1)
    Row(0x0020_91a3, 0x1000, 0x0004_0302, Next, BEFORE), // sh x2, 3(x1)
    Row(0x0010_a183, 0x1000, 0, Next, 0x0302_7fff),
    Row(0x0000_0073, 0, 0, Call, BEFORE), // ecall
    Row(0x0010_0073, 0, 0, Traps(3, PC), BEFORE), // ebreak
    Row(0x0ff0_000f, 0, 0, Next, BEFORE), // fence
];

const CONTROL_REGISTERS: [ControlRow; 16] = [
    ControlRow(0x00f0_21f3, 0, Next, 5, 3, 2, true), // csrrs x3, vcsr, x0
    ControlRow(0x00f0_91f3, 10, Next, 5, 3, 1, false), // csrrw x3, vcsr, x1
    ControlRow(0x00f0_f1f3, 0, Next, 5, 3, 2, false), // csrrci x3, vcsr, 1
    ControlRow(0x00f0_61f3, 0, Next, 5, 3, 2, true), // csrrsi x3, vcsr, 0
    ControlRow(0x00a3_d1f3, 0, Next, 2, 3, 3, true), // csrrwi x3, vxrm, 7
    ControlRow(0x00a0_b1f3, 6, Next, 2, 3, 0, true), // csrrc x3, vxrm, x1
    ControlRow(0x0080_a1f3, 0x84, Next, 3, 7, 2, true), // csrrs x3, vstart, x1
    ControlRow(0x0080_51f3, 0, Next, 3, 0, 2, true), // csrrwi x3, vstart, 0
    ControlRow(0xc000_21f3, 0, Next, 0x8000_0009, 3, 2, true), // csrrs x3, cycle, x0
    ControlRow(0xc820_21f3, 0, Next, 7, 3, 2, true), // csrrs x3, instreth, x0
    ControlRow(0xc220_21f3, 0, Next, 16, 3, 2, true), // csrrs x3, vlenb, x0
    ControlRow(0xc210_21f3, 0, Next, 0xd0, 3, 2, true), // csrrs x3, vtype, x0
    ControlRow(0xc000_91f3, 0, Traps(2, 0xc000_91f3), BEFORE, 3, 2, true), // csrrw x3, cycle, x1
    ControlRow(0xc000_a1f3, 0, Traps(2, 0xc000_a1f3), BEFORE, 3, 2, true), // csrrs x3, cycle, x1
    ControlRow(0xc010_21f3, 0, Traps(2, 0xc010_21f3), BEFORE, 3, 2, true), // csrrs x3, time, x0
    ControlRow(0x0010_21f3, 0, Traps(2, 0x0010_21f3), BEFORE, 3, 2, true), // csrrs x3, fflags, x0
];

fn flow_of(ends: Ends) -> Flow {
    match ends {
        Next => Flow::Next,
        Jump(target) => Flow::Jump(target),
        Call => Flow::Call,
        Traps(cause, value) => Flow::Trap(Trap {
            cause,
            pc: PC,
            value,
        }),
    }
}

// A page to read and to write from 0x1000 on, which begins with a word.
fn page(alloc: Global, word: u32) -> Result<Mem, NoMemory> {
    let mut mem = Mem::new(alloc, &[], 0, 0)?;
    mem.map(alloc, 0x1000)?;
    let _ = mem.store(0x1000, 4, word);
    Ok(mem)
}

// Carries out the word of a row, and says whether it goes on so and leaves x3 and the control registers so.
#[tactic(auto, unfolding(vtype_cfg::specs::Settings::is_legal_vlen, vtype_cfg::specs::Settings::legal_vlens))]
fn leaves(mem: &mut Mem, row: Row, after: Csrs) -> bool {
    let Row(word, x1, x2, ends, x3) = row;
    let Some(instruction) = decode(word) else {
        return false;
    };
    let mut regs = Regs::new();
    regs.set(1, x1);
    regs.set(2, x2);
    regs.set(3, BEFORE);
    let mut csrs = START;
    let flow = exec(&instruction, PC, &mut regs, &mut csrs, mem);
    flow == flow_of(ends) && regs.get(3) == x3 && csrs == after
}

#[test]
fn arithmetic(rt: HostRuntime) -> Result<(), Fail> {
    let mut mem = page(rt.alloc(), 0)?;
    for (i, row) in ARITHMETIC.iter().enumerate() {
        let Value(word, x1, x2, x3) = *row;
        assert!(rt;
            leaves(&mut mem, Row(word, x1, x2, Next, x3), START),
            "row {i}"
        );
    }
    Ok(())
}

#[test]
fn transfers_and_accesses(rt: HostRuntime) -> Result<(), Fail> {
    let mut mem = page(rt.alloc(), 0x017f_ff80)?;
    for (i, row) in TRANSFERS_AND_ACCESSES.iter().enumerate() {
        assert!(rt; leaves(&mut mem, *row, START), "row {i}");
    }
    Ok(())
}

#[test]
fn control_registers(rt: HostRuntime) -> Result<(), Fail> {
    let mut mem = page(rt.alloc(), 0)?;
    for (i, row) in CONTROL_REGISTERS.iter().enumerate() {
        let ControlRow(word, x1, ends, x3, vstart, vxrm, vxsat) = *row;
        let after = Csrs {
            vstart,
            vxrm,
            vxsat,
            ..START
        };
        assert!(rt;
            leaves(&mut mem, Row(word, x1, 0, ends, x3), after),
            "row {i}"
        );
    }
    Ok(())
}
