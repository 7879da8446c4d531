//! Legal vector instructions under a configuration: their programs in the frame leave the
//! registers that they mean. It holds no code that runs; each function here is a law.
#![tactic(auto)]

ghost use Rattle.frame_meaning.specs.Clips.{ElementsClipLaw, HalvesClipLaw};
ghost use Rattle.frame_meaning.specs.Costs.{ElementsCostLaw};
ghost use Rattle.frame_meaning.specs.Laws.{MeaningLaw, MaskMeaningLaw, ElementsMeaningLaw};
ghost use Rattle.frame_meaning.specs.Halves.{HalvesMeaningLaw, HalvesCostLaw};
ghost use Rattle.frame_meaning.specs.Masks.{CompareMeaningLaw, CompareCostLaw};

/// How a list takes the operands of an instruction: vs2, then what stands in the place of vs1, and the destination as it was
/// where that is a third one. In all but the first the operands are taken otherwise, or have other widths than the destination.
#[derive(Clone, Copy, Debug, PartialEq, Eq)]
pub enum Order {
    /// All operands are as wide.
    Straight,
    /// What stands in the place of vs1 comes first.
    Reversed,
    /// What stands in the place of vs1 alone.
    Second,
    /// The destination, what stands in the place of vs1, and vs2 as the third.
    Exchanged,
    /// The destination is twice as wide as both.
    Widening,
    /// The destination is as wide as vs2, and twice as wide as the other.
    WideSource,
    /// vs2 alone, which is half as wide.
    Half,
    /// vs2 alone, which is a quarter as wide.
    Quarter,
}

/// Which operands are extended by their sign, where they are narrower: vs2, what stands in the place of vs1, and an immediate
/// there.
#[derive(Clone, Copy, Debug, PartialEq, Eq)]
pub struct Signs {
    pub a: bool,
    pub b: bool,
    pub immediate: bool,
}

/// The registers of the frame are those of the meaning.
pub fn meaning_law()
    ensures law { MeaningLaw }
{}

/// The same where the result is a mask.
pub fn mask_meaning_law()
    ensures law { MaskMeaningLaw }
{}

/// The program of a legal instruction whose operands are groups of elements at the same place leaves the registers that it
/// means.
pub fn elements_meaning_law()
    ensures law { ElementsMeaningLaw }
{}

/// It sets the flag of clipped results where the instruction clips an active element.
pub fn elements_clip_law()
    ensures law { ElementsClipLaw }
{}

/// What the program of such an instruction costs, and that a chain can run it.
pub fn elements_cost_law()
    ensures law { ElementsCostLaw }
{}

/// The program of a legal comparison, or carry out, leaves the registers that it means.
pub fn compare_meaning_law()
    ensures law { CompareMeaningLaw }
{}

/// What the program of a legal comparison costs, and that a chain can run it.
pub fn compare_cost_law()
    ensures law { CompareCostLaw }
{}

/// The program of a legal instruction whose elements are half as wide as those of its first operand leaves the registers
/// that it means.
pub fn halves_meaning_law()
    ensures law { HalvesMeaningLaw }
{}

/// What the program of such an instruction costs, and that a chain can run it.
pub fn halves_cost_law()
    ensures law { HalvesCostLaw }
{}

/// It sets the flag of clipped results where the instruction clips an active element.
pub fn halves_clip_law()
    ensures law { HalvesClipLaw }
{}
