//! Loads and stores (version 1.0 of the vector extension, section 7).
ghost use Rattle.std.specs.Prelude.{◌≡◌};
ghost use Rattle.std.specs.Option.{option_map};
ghost use Rattle.word_rows.specs.Field.{field};
ghost use Rattle.rvv_decode.specs.Layouts.{instruction, instruction_of, memory, memory_kind};
ghost use Rattle.rvv_decode.specs.FieldTests.{element_width, load_found, load_mode_found, store_found, store_mode_found};

use crate::fields::{
    INDEXED_UNORDERED, MEW_AT, MODE_AT, STRIDED, UNIT_STRIDE, WIDTH_8, WIDTH_16, WIDTH_32, bits_at,
    funct3, is_register_count, nf, vd, vm, vs1, vs2,
};
use crate::instruction::{Form, MemoryOp, VInstr, VOp};

// What a unit stride has in the place of vs2.
const PLAIN: u8 = 0b00000;

const WHOLE_REGISTER: u8 = 0b01000;

const MASK: u8 = 0b01011;

const FAULT_ONLY_FIRST: u8 = 0b10000;

/// The load that a word of the opcode LOAD_FP means.
#[tactic(auto, unfolding(crate::specs::FieldTests::load_found))]
pub(crate) fn load(word: u32) -> Option<VInstr>
    ensures { result ≡ instruction_of (load_found word) word }
{
    let eew = element_width(word)?;
    let op = load_name(eew, word)?;
    Some(access(op, eew, word))
}

/// The store that a word of the opcode STORE_FP means.
#[tactic(auto, unfolding(crate::specs::FieldTests::store_found))]
pub(crate) fn store(word: u32) -> Option<VInstr>
    ensures { result ≡ instruction_of (store_found word) word }
{
    let eew = element_width(word)?;
    let op = store_name(eew, word)?;
    Some(access(op, eew, word))
}

// The name of a load that encodes this width.
#[tactic(auto, unfolding(crate::specs::FieldTests::load_mode_found, crate::specs::MemoryRows::load_rows))]
fn load_name(eew: u8, word: u32) -> Option<MemoryOp>
    ensures byte { eew ≡ 8 → option_map (memory_kind 8) result ≡ load_mode_found 8 word }
    ensures half { eew ≡ 16 → option_map (memory_kind 16) result ≡ load_mode_found 16 word }
    ensures word { eew ≡ 32 → option_map (memory_kind 32) result ≡ load_mode_found 32 word }
{
    let unmasked = vm(word);
    let op = match addressing_mode(word) {
        UNIT_STRIDE => match vs2(word) {
            PLAIN => MemoryOp::LoadUnitStride,
            WHOLE_REGISTER if unmasked && is_register_count(nf(word)) =>
                MemoryOp::LoadWholeRegister,
            MASK if eew == 8 && unmasked && nf(word) == 0 => MemoryOp::LoadMask,
            FAULT_ONLY_FIRST => MemoryOp::LoadFaultOnlyFirst,
            _ => return None,
        },
        INDEXED_UNORDERED => MemoryOp::LoadIndexedUnordered,
        STRIDED => MemoryOp::LoadStrided,
        _ => MemoryOp::LoadIndexedOrdered,
    };
    Some(op)
}

// The name of a store that encodes this width. Those without regard to the vector type encode 8.
#[tactic(auto, unfolding(crate::specs::FieldTests::store_mode_found, crate::specs::MemoryRows::store_rows))]
fn store_name(eew: u8, word: u32) -> Option<MemoryOp>
    ensures byte { eew ≡ 8 → option_map (memory_kind 8) result ≡ store_mode_found 8 word }
    ensures half { eew ≡ 16 → option_map (memory_kind 16) result ≡ store_mode_found 16 word }
    ensures word { eew ≡ 32 → option_map (memory_kind 32) result ≡ store_mode_found 32 word }
{
    let untyped = eew == 8 && vm(word);
    let op = match addressing_mode(word) {
        UNIT_STRIDE => match vs2(word) {
            PLAIN => MemoryOp::StoreUnitStride,
            WHOLE_REGISTER if untyped && is_register_count(nf(word)) =>
                MemoryOp::StoreWholeRegister,
            MASK if untyped && nf(word) == 0 => MemoryOp::StoreMask,
            _ => return None,
        },
        INDEXED_UNORDERED => MemoryOp::StoreIndexedUnordered,
        STRIDED => MemoryOp::StoreStrided,
        _ => MemoryOp::StoreIndexedOrdered,
    };
    Some(op)
}

fn addressing_mode(word: u32) -> u32
    ensures { result ≡ field 26 2 word }
{
    bits_at(word, MODE_AT, 2)
}

// The width in bits, of the elements or of the indices, that the word encodes. The bit that would extend widths is 0.
fn element_width(word: u32) -> Option<u8>
    ensures { result ≡ element_width word }
{
    if bits_at(word, MEW_AT, 1) != 0 {
        return None;
    }
    match funct3(word) {
        WIDTH_8 => Some(8),
        WIDTH_16 => Some(16),
        WIDTH_32 => Some(32),
        _ => None,
    }
}

fn access(op: MemoryOp, eew: u8, word: u32) -> VInstr
    ensures { result ≡ instruction (memory eew) (VOp.Memory op) word }
{
    VInstr {
        op: VOp::Memory(op),
        form: Form::V,
        vd: vd(word),
        vs1: vs1(word),
        vs2: vs2(word),
        vm: vm(word),
        nf: nf(word) + 1,
        eew,
        zimm: 0,
    }
}
