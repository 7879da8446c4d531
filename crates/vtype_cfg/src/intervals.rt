//! Where the registers of an operand lie, by themselves and beside those of another.
ghost use Rattle.std.specs.Prelude.{◌≡◌, ◌+◌, ◌*◌, ◌^◌, ◌<◌};
ghost use Rattle.vtype_cfg.specs.CodeTypes.{seen};
ghost use Rattle.vtype_cfg.specs.Groups.{group_registers, registers, holds, overlap, is_lowest_part, is_highest_part};

use crate::operands::{ONE_REGISTER, Operand};

impl Operand {
    /// How many registers a group takes: EMUL, and one where that is less.
    pub(crate) fn group_registers(&self) -> u32
        ensures { result ≡ group_registers (seen self.now) }
    {
        u32::from(self.emul8 / ONE_REGISTER).max(1)
    }

    /// How many registers all groups take.
    #[tactic(auto, unfolding(crate::specs::Groups::registers))]
    pub(crate) fn count(&self) -> u32
        ensures count { result ≡ self.now.fields * group_registers (seen self.now) }
        ensures past { self.now.first + result ≡ (registers (seen self.now)).past }
        ensures small { result < 2 ^ 31 }
    {
        u32::from(self.fields) * self.group_registers()
    }

    /// The number after that of the last register.
    pub(crate) fn past(&self) -> u32
        ensures { result ≡ (registers (seen self.now)).past }
    {
        u32::from(self.first) + self.count()
    }

    #[tactic(auto, unfolding(crate::specs::Groups::registers))]
    pub(crate) fn holds(&self, register: u32) -> bool
        ensures { result ≡ holds (registers (seen self.now)) register }
    {
        u32::from(self.first) <= register && register < self.past()
    }

    /// Whether the two have a register in common.
    #[tactic(auto, unfolding(crate::specs::Groups::registers))]
    pub(crate) fn overlaps(&self, other: &Operand) -> bool
        ensures { result ≡ overlap (registers (seen self.now)) (registers (seen other.now)) }
    {
        u32::from(self.first) < other.past() && u32::from(other.first) < self.past()
    }

    /// Whether its registers are the lowest-numbered of the other's.
    #[tactic(auto, unfolding(crate::specs::Groups::registers))]
    pub(crate) fn is_lowest_part_of(&self, other: &Operand) -> bool
        ensures { result ≡ is_lowest_part (registers (seen self.now)) (registers (seen other.now)) }
    {
        self.first == other.first && self.count() <= other.count()
    }

    /// Whether its registers are the highest-numbered of the other's.
    #[tactic(auto, unfolding(crate::specs::Groups::registers))]
    pub(crate) fn is_highest_part_of(&self, other: &Operand) -> bool
        ensures { result ≡ is_highest_part (registers (seen self.now)) (registers (seen other.now)) }
    {
        self.past() == other.past() && self.count() <= other.count()
    }
}
