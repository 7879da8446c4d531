//! Elements of the vector registers that a chain of slices holds, read and written as numbers. Nothing is counted.
#![tactic(auto)]

ghost use Rattle.std.specs.Prelude.{◌≡◌, ◌+◌, ◌-◌, ◌*◌, ◌/◌, ◌<◌, ◌≤◌, ◌^◌, ◌%◌};
ghost use Rattle.element_ops.specs.Elements.{element_of, mask_bit_of, with_element, IsSize};
ghost use Rattle.cam_chain.specs.ChainValue.{slices_of};
ghost use Rattle.cam_chain.specs.Views.{registers_of, KeepsRest};

use bit_rows::Planes;
use cam_chain::Chain;

// The bytes of a column of a register.
const WORD_BYTES: u32 = 4;

// The bits of a column of a register.
const WORD_BITS: u32 = 32;

/// Bit `e` of a register, where `e` is below the bits of a register.
pub fn register_bit(chain: &Chain, register: u8, e: u32) -> bool
    requires register { register < 32 }
    requires place { e < 32 * chain.now.columns }
    ensures { result ≡ mask_bit_of (registers_of (slices_of chain.now)) register e }
{
    chain.bit((e % WORD_BITS) as u8, register, e / WORD_BITS)
}

/// Bit `e` of v0, where `e` is below the bits of a register.
pub fn mask_bit(chain: &Chain, e: u32) -> bool
    requires { e < 32 * chain.now.columns }
    ensures { result ≡ mask_bit_of (registers_of (slices_of chain.now)) 0 e }
{
    register_bit(chain, 0, e)
}

/// The largest number of so many bytes, which are 1, 2 or 4.
pub fn all_ones(size: u32) -> u32
    requires { IsSize size }
    ensures { result ≡ 2 ^ (8 * size) - 1 }
{
    match size {
        1 => 0xff,
        2 => 0xffff,
        _ => 0xffff_ffff,
    }
}

// The number of `size` bytes of a word from byte `from` on.
fn part_of(word: u32, from: u32, size: u32) -> u32
    requires { from + size ≤ 4 }
    ensures { result ≡ word / 2 ^ (8 * from) % 2 ^ (8 * size) }
{
    let part = u64::from(word) / (1u64 << (8 * from)) % (1u64 << (8 * size));
    part as u32
}

// The word with `size` bytes from byte `from` on in the place of its own.
fn put_part(word: u32, from: u32, size: u32, value: u32) -> u32
    requires { from + size ≤ 4 }
    ensures { result
        ≡ word % 2 ^ (8 * from)
        + (value % 2 ^ (8 * size) + word / 2 ^ (8 * (from + size)) * 2 ^ (8 * size)) * 2 ^ (8 * from) }
{
    let below = 1u64 << (8 * from);
    let inside = 1u64 << (8 * size);
    let old = u64::from(word);
    let upper = old / (1u64 << (8 * (from + size)));
    let made = old % below + (u64::from(value) % inside + upper * inside) * below;
    made as u32
}

/// Element `at` of the registers from `first` on, as a number of `size` bytes, which are 1, 2 or 4. It lies in the registers.
pub fn element(chain: &Chain, first: u8, size: u32, at: u32) -> u32
    requires size { IsSize size }
    requires place { (at + 1) * size ≤ (32 - first) * (4 * chain.now.columns) }
    requires register { first < 32 }
    ensures { result ≡ element_of (4 * chain.now.columns) (registers_of (slices_of chain.now)) first (8 * size) at }
{
    let columns = chain.columns();
    let place = at * size;
    let word = place / WORD_BYTES;
    let register = first + (word / columns) as u8;
    part_of(
        chain.read_word(register, word % columns),
        place % WORD_BYTES,
        size,
    )
}

/// Writes an element, of which it takes the lowest bytes of `value`. All else stays.
pub fn set_element(chain: &mut Chain, first: u8, size: u32, at: u32, value: u32)
    requires size { IsSize size }
    requires place { (at + 1) * size ≤ (32 - first) * (4 * chain.old.columns) }
    requires register { first < 32 }
    ensures vectors { registers_of (slices_of chain.new) ≡ with_element (4 * chain.old.columns) (registers_of (slices_of chain.old)) first (8 * size) at value }
    ensures rest { KeepsRest (slices_of chain.old) (slices_of chain.new) }
    ensures columns { chain.new.columns ≡ chain.old.columns }
    ensures counts { chain.new.counts ≡ chain.old.counts }
{
    let columns = chain.columns();
    let place = at * size;
    let word = place / WORD_BYTES;
    let register = first + (word / columns) as u8;
    let column = word % columns;
    let old = chain.read_word(register, column);
    let new = put_part(old, place % WORD_BYTES, size, value);
    chain.write_word(register, column, new);
}
