// The kinds of instruction.
ghost use Rattle.std.specs.Prelude.{◌≡◌, ◌≤◌};
ghost use Rattle.fold_exec.specs.Kinds.{opm_kind, kind_for, is_widening, result_bits};

use gen_reduce::Reduction;
use row_orders::Order;
use rvv_decode::{OpiOp, OpmOp, VOp};

/// A number of a mask.
#[derive(Clone, Copy, Debug, PartialEq, Eq)]
pub enum MaskNumber {
    /// How many places are set (vector extension 1.0, section 15.2).
    Count,
    /// The first place that is set, or 2^32 - 1 (section 15.3).
    First,
}

/// A reduction of a group of elements and of one more (vector extension 1.0, chapter 14).
#[derive(Clone, Copy, Debug, PartialEq, Eq)]
pub enum Folding {
    /// One whose list counts the bits of the elements: a sum, or a function of their bits.
    Counted(Reduction),
    /// One whose list compares the elements: the least or the greatest.
    Ordered(Order),
}

/// A kind of instruction that makes one number of a whole mask or a whole group.
#[derive(Clone, Copy, Debug, PartialEq, Eq)]
pub enum Kind {
    /// A number of a mask, for a scalar register.
    Number(MaskNumber),
    /// A reduction, for element 0 of a vector register.
    Fold(Folding),
}

// The kind of an instruction of OPMVV.
#[tactic(auto, unfolding(crate::specs::Kinds::opm_kind))]
fn opm_kind(op: OpmOp) -> Option<Kind>
    ensures { result ≡ opm_kind op }
{
    let kind = match op {
        OpmOp::Vcpop => Kind::Number(MaskNumber::Count),
        OpmOp::Vfirst => Kind::Number(MaskNumber::First),
        OpmOp::Vredsum => Kind::Fold(Folding::Counted(Reduction::Redsum)),
        OpmOp::Vredand => Kind::Fold(Folding::Counted(Reduction::Redand)),
        OpmOp::Vredor => Kind::Fold(Folding::Counted(Reduction::Redor)),
        OpmOp::Vredxor => Kind::Fold(Folding::Counted(Reduction::Redxor)),
        OpmOp::Vredminu => Kind::Fold(Folding::Ordered(Order::Minu)),
        OpmOp::Vredmin => Kind::Fold(Folding::Ordered(Order::Min)),
        OpmOp::Vredmaxu => Kind::Fold(Folding::Ordered(Order::Maxu)),
        OpmOp::Vredmax => Kind::Fold(Folding::Ordered(Order::Max)),
        _ => return None,
    };
    Some(kind)
}

/// The kind of an instruction, where it has one.
#[tactic(auto, unfolding(crate::specs::Kinds::kind_for))]
pub fn kind_of(op: VOp) -> Option<Kind>
    ensures { result ≡ kind_for op }
{
    match op {
        VOp::Opm(op) => opm_kind(op),
        VOp::Opi(OpiOp::Vwredsumu) => Some(Kind::Fold(Folding::Counted(Reduction::Wredsumu))),
        VOp::Opi(OpiOp::Vwredsum) => Some(Kind::Fold(Folding::Counted(Reduction::Wredsum))),
        VOp::Opi(_) | VOp::Config(_) | VOp::Memory(_) => None,
    }
}

// Whether the result has twice the bits of an element of the group.
fn is_widening(folding: Folding) -> bool
    ensures { result ≡ is_widening folding }
{
    matches!(
        folding,
        Folding::Counted(Reduction::Wredsumu | Reduction::Wredsum)
    )
}

// The bits of the result, where an element of the group has so many.
pub(crate) fn result_bits(folding: Folding, bits: u8) -> u8
    requires small { bits ≤ 32 }
    ensures { result ≡ result_bits folding bits }
{
    if is_widening(folding) { 2 * bits } else { bits }
}
