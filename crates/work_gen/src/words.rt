// The words of a workload.
ghost use Rattle.std.specs.Prelude.{◌≡◌, ◌<◌, ◌-◌, ◌^◌, ◌%◌, slice_index};
ghost use Rattle.work_gen.specs.Draws.{state_after};
ghost use Rattle.work_gen.specs.Words.{filling as filling_of, setting_word as setting_of, operation_word as operation_of, operations, block as block_of, draws_of_block};

use crate::draws::Draws;

/// vsetvli x5, x0, e32, m1, ta, ma.
pub const WORD_SETTING: u32 = 0x0d00_72d7;

/// vredxor.vs v1, v31, v30; vmv.x.s x10, v1; addi x17, x0, 93; ecall.
pub const ENDING: [u32; 5] = [
    WORD_SETTING,
    0x0fff_20d7,
    0x4210_2557,
    0x05d0_0893,
    0x0000_0073,
];

// lui x6, vid.v v0, vadd.vx v0, v0, x6, and vsetvli x5, x0, e8, m1, ta, ma.
const LUI: u32 = 0x337;

const VID: u32 = 0x5208_a057;

const VADD: u32 = 0x0203_4057;

const BYTE_SETTING: u32 = 0x0c00_72d7;

// The low bits of a number, which lui does not take.
const LUI_PLACE: u32 = 12;

// The least bits of the fields of a word: a destination, the first and the second source, and the width of an element.
const VD: u32 = 1 << 7;

const VS1: u32 = 1 << 15;

const VS2: u32 = 1 << 20;

const VSEW: u32 = 1 << 23;

// How many widths of elements, destinations and sources there are.
const WIDTHS: u32 = 3;

const DESTINATIONS: u32 = 31;

const REGISTERS: u32 = 32;

// The operations on integers, without a mask: the groups of additions and of multiplications, and the operation code.
const ADDITIVE: u32 = 0x0200_0057;

const MULTIPLICATIVE: u32 = 0x0200_2057;

const CODE: u32 = 1 << 26;

// vadd, vsub, vminu, vmax, vand, vor, vxor, vsll, vsra, vsadd; vmul, vmulhu, vdivu, vrem, vmacc, vaadd.
const OPERATIONS: [u32; 16] = [
    ADDITIVE,
    ADDITIVE + 0x02 * CODE,
    ADDITIVE + 0x04 * CODE,
    ADDITIVE + 0x07 * CODE,
    ADDITIVE + 0x09 * CODE,
    ADDITIVE + 0x0a * CODE,
    ADDITIVE + 0x0b * CODE,
    ADDITIVE + 0x25 * CODE,
    ADDITIVE + 0x29 * CODE,
    ADDITIVE + 0x21 * CODE,
    MULTIPLICATIVE + 0x25 * CODE,
    MULTIPLICATIVE + 0x24 * CODE,
    MULTIPLICATIVE + 0x20 * CODE,
    MULTIPLICATIVE + 0x23 * CODE,
    MULTIPLICATIVE + 0x2d * CODE,
    MULTIPLICATIVE + 0x09 * CODE,
];

/// What gives a register its content, by a number that was drawn.
pub fn filling(number: u32, r: u32) -> [u32; 3]
    requires { r < 32 }
    ensures { result ≡ filling_of number r }
{
    [
        (number >> LUI_PLACE << LUI_PLACE) + LUI,
        VID + VD * r,
        VADD + (VS2 + VD) * r,
    ]
}

// The setting of a number.
fn setting_word(number: u32) -> u32
    ensures { result ≡ setting_of number }
{
    BYTE_SETTING + VSEW * (number % WIDTHS)
}

// The operation of a number without its registers.
fn operation(kind: u32) -> u32
    ensures word { result ≡ slice_index operations (kind % 16) }
    ensures room { result < 2 ^ 32 - 2 ^ 26 }
{
    OPERATIONS[kind as usize % OPERATIONS.len()]
}

// The operation of four numbers.
fn operation_word(kind: u32, vd: u32, vs1: u32, vs2: u32) -> u32
    ensures { result ≡ operation_of kind vd vs1 vs2 }
{
    operation(kind)
        + VD * (1 + vd % DESTINATIONS)
        + VS1 * (vs1 % REGISTERS)
        + VS2 * (vs2 % REGISTERS)
}

/// A setting and an operation, by the next five draws.
#[tactic(auto, unfolding(crate::specs::Draws::state_after, crate::specs::Draws::draw, crate::specs::Words::block))]
pub fn block(draws: &mut Draws) -> [u32; 2]
    ensures words { result ≡ block_of draws.old.state }
    ensures draws { draws.new.state ≡ state_after draws_of_block draws.old.state }
{
    let setting = setting_word(draws.draw());
    let kind = draws.draw();
    let vd = draws.draw();
    let vs1 = draws.draw();
    let vs2 = draws.draw();
    [setting, operation_word(kind, vd, vs1, vs2)]
}
