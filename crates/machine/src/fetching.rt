// What comes at pc.
ghost use Rattle.std.specs.Prelude.{◌≡◌};
ghost use Rattle.rvv_decode.specs.Rows.{means as means_vector};
ghost use Rattle.rvv_meaning.specs.States.{next, next_for, next_vector, trap};
ghost use Rattle.machine.specs.Fields.{NextFits};

use crate::parts::Machine;
use guest_mem::Trap;
use rv32_decode::decode;
use rvv_decode::decode_v;
use rvv_meaning::{Meaning, Mode, Next};
use vtype_cfg::{Vtype, legal};

// The causes of traps: a fetch without permission, and an illegal word (RISC-V privileged specification, mcause).
const FETCH_FAULT: u8 = 1;

const ILLEGAL_WORD: u8 = 2;

impl Machine {
    // A trap at pc.
    pub(crate) fn trap(&self, cause: u8, value: u32) -> Mode
        ensures { result ≡ trap cause value self.now.core }
    {
        Mode::Trapped(Trap {
            cause,
            pc: self.pc,
            value,
        })
    }

    // What comes of a word at pc that is no scalar instruction.
    fn next_vector(&self, word: u32) -> Next
        ensures is { result ≡ next_vector self.now.core word (means_vector word) }
        ensures range { NextFits self.now.core result }
    {
        let Some(i) = decode_v(word) else {
            return Next::Stop(self.trap(ILLEGAL_WORD, word));
        };
        let vtype = Vtype::from_bits(self.csrs.vtype);
        if !legal(&i, &vtype, self.csrs.vstart, self.csrs.vlen) {
            return Next::Stop(self.trap(ILLEGAL_WORD, word));
        }
        Next::Perform(Meaning::Vector(i))
    }

    // What comes of a word at pc.
    fn next_for(&self, word: u32) -> Next
        ensures is { result ≡ next_for self.now.core word }
        ensures range { NextFits self.now.core result }
    {
        match decode(word) {
            Some(i) => Next::Perform(Meaning::Scalar(i)),
            None => self.next_vector(word),
        }
    }

    // What comes at pc.
    #[tactic(auto, unfolding(rvv_meaning::specs::States::next))]
    pub(crate) fn next(&self) -> Next
        ensures is { result ≡ next self.now.core }
        ensures range { NextFits self.now.core result }
    {
        match self.mem.fetch(self.pc) {
            Err(_) => Next::Stop(self.trap(FETCH_FAULT, self.pc)),
            Ok(word) => self.next_for(word),
        }
    }
}
