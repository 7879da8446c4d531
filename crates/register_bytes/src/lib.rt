//! The bytes of the vector registers that a chain holds. Byte j of register r has its bit b in subarray 8 * (j mod 4) + b, row r,
//! column j div 4. A register is read and written whole, many columns at a time. Nothing is allocated, and no search, update
//! or pass is made.
#![tactic(auto)]

ghost use Rattle.std.specs.Prelude.{◌≡◌, ◌*◌, ◌<◌, length};
ghost use Rattle.cam_chain.specs.ChainValue.{slices_of};
ghost use Rattle.cam_chain.specs.Views.{KeepsRest, register_of, registers_of};
ghost use Rattle.register_bytes.specs.Registers.{with_register};

mod lanes;
mod masks;

use crate::lanes::{BYTES, gather, read_lane, scatter, write_lane};
use bit_rows::MAX_COLUMNS;
use cam_chain::Chain;

/// A register has at most so many bytes.
pub const MAX_BYTES: usize = 4 * MAX_COLUMNS;

/// Reads the bytes of a register.
pub fn read_register(chain: &Chain, register: u8, into: &mut [u8])
    requires register { register < 32 }
    requires all { length into.old ≡ 4 * chain.now.columns }
    ensures { into.new ≡ register_of (slices_of chain.now) register }
{
    let columns = chain.columns() as usize;
    for place in 0..BYTES {
        let lane = read_lane(chain, register, place);
        scatter(&lane, place as usize, columns, into);
    }
}

/// Writes the bytes of a register.
pub fn write_register(chain: &mut Chain, register: u8, bytes: &[u8])
    requires register { register < 32 }
    requires all { length bytes.now ≡ 4 * chain.old.columns }
    ensures vectors { registers_of (slices_of chain.new) ≡ with_register (registers_of (slices_of chain.old)) register bytes.now }
    ensures rest { KeepsRest (slices_of chain.old) (slices_of chain.new) }
    ensures columns { chain.new.columns ≡ chain.old.columns }
    ensures counts { chain.new.counts ≡ chain.old.counts }
{
    let columns = chain.columns() as usize;
    for place in 0..BYTES {
        let lane = gather(bytes, place as usize, columns);
        write_lane(chain, register, place, &lane);
    }
}
