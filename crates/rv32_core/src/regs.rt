// The integer registers.
ghost use Rattle.std.specs.Prelude.{◌≡◌, ◌<◌, replicate, slice_index};
ghost use Rattle.rvv_meaning.specs.Scalar.Registers.{written};

use std::marker::Model;

// How many registers there are.
const COUNT: usize = 32;

/// The registers x0 to x31, of 32 bits each (RISC-V unprivileged specification, section 2.1). x0 is always 0. Contracts
/// see the list of their 32 values.
#[derive(Drop)]
pub struct Regs {
    values: [u32; COUNT],
}

impl Model for Regs {
    ghost use Rattle.std.specs.Prelude.{◌≡◌, ℕ, List, slice_index};
    ghost use Rattle.std.specs.Coded.{coded_ℕ, coded_list};

    ghost Value = { List ℕ };

    ghost coded = { coded_list coded_ℕ };

    ghost view = { λ r. r.values };

    ghost invariant = { λ r. slice_index r.values 0 ≡ 0 };
}

impl Regs {
    /// The registers with 0 in each.
    pub fn new() -> Regs
        ensures { result ≡ replicate 32 0 }
    {
        Regs { values: [0; COUNT] }
    }

    /// The value of x`i`.
    pub fn get(&self, i: u8) -> u32
        requires { i < 32 }
        ensures value { result ≡ slice_index self.now i }
        ensures zero { i ≡ 0 → result ≡ 0 }
    {
        self.values[usize::from(i)]
    }

    /// Writes x`i`. A write of x0 is dropped.
    pub fn set(&mut self, i: u8, v: u32)
        requires { i < 32 }
        ensures { self.new ≡ written self.old i v }
    {
        if i != 0 {
            self.values[usize::from(i)] = v;
        }
    }
}
