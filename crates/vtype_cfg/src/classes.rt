//! The classes of vector instructions by their operands.
ghost use Rattle.std.specs.Prelude.{◌≡◌};
ghost use Rattle.vtype_cfg.specs.CodeTypes.{meant};
ghost use Rattle.vtype_cfg.specs.Classes.{class_of, opi_class, opm_class, memory_class, may_write_mask, starts_at_zero, needs_no_setting};

use rvv_decode::{MemoryOp, OpiOp, OpmOp, VOp};

/// Instructions whose operands obey the same rules.
#[derive(Clone, Copy)]
pub(crate) enum Class {
    /// Each operand has elements of SEW.
    Plain,
    /// vmv.v, which has no vs2.
    Move,
    /// A destination of 2·SEW.
    Widening,
    /// A destination and a vs2 of 2·SEW.
    WideSource,
    /// A vs2 of 2·SEW.
    Narrowing,
    /// A source of SEW/2.
    ExtensionByTwo,
    /// A source of SEW/4.
    ExtensionByFour,
    /// A mask made from elements: compares, carries and borrows.
    Compare,
    Reduction,
    WideningReduction,
    /// A mask made from two masks.
    MaskLogic,
    /// vcpop and vfirst.
    MaskCount,
    /// vmsbf, vmsif and vmsof.
    MaskFirst,
    /// viota.
    Iota,
    /// vid.
    Index,
    /// vcompress.
    Compress,
    /// vrgather.
    Gather,
    /// vrgatherei16.
    GatherSixteen,
    /// vslideup and vslide1up.
    SlideUp,
    /// vmv.s.x.
    ScalarIn,
    /// vmv.x.s.
    ScalarOut,
    WholeMove,
    Configuration,
    /// A load of a unit or another stride.
    Load,
    Store,
    IndexedLoad,
    IndexedStore,
    WholeLoad,
    WholeStore,
    MaskLoad,
    MaskStore,
}

/// The class of an instruction.
pub(crate) fn class_of(op: VOp) -> Class
    ensures { meant result ≡ class_of op }
{
    match op {
        VOp::Opi(op) => opi_class(op),
        VOp::Opm(op) => opm_class(op),
        VOp::Config(_) => Class::Configuration,
        VOp::Memory(op) => memory_class(op),
    }
}

// The class of each OPIVV, OPIVX or OPIVI instruction.
#[rattlefmt::skip]
#[tactic(auto, unfolding(crate::specs::Classes::opi_class))]
fn opi_class(op: OpiOp) -> Class
    ensures { meant result ≡ opi_class op }
{
    match op {
        OpiOp::Vadd | OpiOp::Vsub | OpiOp::Vrsub | OpiOp::Vminu | OpiOp::Vmin | OpiOp::Vmaxu
        | OpiOp::Vmax | OpiOp::Vand | OpiOp::Vor | OpiOp::Vxor | OpiOp::Vslidedown | OpiOp::Vadc
        | OpiOp::Vsbc | OpiOp::Vmerge | OpiOp::Vsaddu | OpiOp::Vsadd | OpiOp::Vssubu | OpiOp::Vssub
        | OpiOp::Vsll | OpiOp::Vsmul | OpiOp::Vsrl | OpiOp::Vsra | OpiOp::Vssrl | OpiOp::Vssra
           => Class::Plain,
        OpiOp::VmvV => Class::Move,
        OpiOp::Vnsrl | OpiOp::Vnsra | OpiOp::Vnclipu | OpiOp::Vnclip => Class::Narrowing,
        OpiOp::Vmadc | OpiOp::Vmsbc | OpiOp::Vmseq | OpiOp::Vmsne | OpiOp::Vmsltu | OpiOp::Vmslt
        | OpiOp::Vmsleu | OpiOp::Vmsle | OpiOp::Vmsgtu | OpiOp::Vmsgt => Class::Compare,
        OpiOp::Vwredsumu | OpiOp::Vwredsum => Class::WideningReduction,
        OpiOp::Vrgather => Class::Gather,
        OpiOp::Vrgatherei16 => Class::GatherSixteen,
        OpiOp::Vslideup => Class::SlideUp,
        OpiOp::VmvWhole => Class::WholeMove,
    }
}

// The class of each OPMVV or OPMVX instruction.
#[rattlefmt::skip]
#[tactic(auto, unfolding(crate::specs::Classes::opm_class))]
fn opm_class(op: OpmOp) -> Class
    ensures { meant result ≡ opm_class op }
{
    match op {
        OpmOp::Vaaddu | OpmOp::Vaadd | OpmOp::Vasubu | OpmOp::Vasub | OpmOp::Vslide1down
        | OpmOp::Vdivu | OpmOp::Vdiv | OpmOp::Vremu | OpmOp::Vrem | OpmOp::Vmulhu | OpmOp::Vmul
        | OpmOp::Vmulhsu | OpmOp::Vmulh | OpmOp::Vmadd | OpmOp::Vnmsub | OpmOp::Vmacc
        | OpmOp::Vnmsac => Class::Plain,
        OpmOp::Vwaddu | OpmOp::Vwadd | OpmOp::Vwsubu | OpmOp::Vwsub | OpmOp::Vwmulu | OpmOp::Vwmulsu
        | OpmOp::Vwmul | OpmOp::Vwmaccu | OpmOp::Vwmacc | OpmOp::Vwmaccus | OpmOp::Vwmaccsu
           => Class::Widening,
        OpmOp::VwadduW | OpmOp::VwaddW | OpmOp::VwsubuW | OpmOp::VwsubW => Class::WideSource,
        OpmOp::VzextVf2 | OpmOp::VsextVf2 => Class::ExtensionByTwo,
        OpmOp::VzextVf4 | OpmOp::VsextVf4 => Class::ExtensionByFour,
        OpmOp::Vredsum | OpmOp::Vredand | OpmOp::Vredor | OpmOp::Vredxor | OpmOp::Vredminu
        | OpmOp::Vredmin | OpmOp::Vredmaxu | OpmOp::Vredmax => Class::Reduction,
        OpmOp::Vmandn | OpmOp::Vmand | OpmOp::Vmor | OpmOp::Vmxor | OpmOp::Vmorn | OpmOp::Vmnand
        | OpmOp::Vmnor | OpmOp::Vmxnor => Class::MaskLogic,
        OpmOp::Vcpop | OpmOp::Vfirst => Class::MaskCount,
        OpmOp::Vmsbf | OpmOp::Vmsof | OpmOp::Vmsif => Class::MaskFirst,
        OpmOp::Viota => Class::Iota,
        OpmOp::Vid => Class::Index,
        OpmOp::Vcompress => Class::Compress,
        OpmOp::Vslide1up => Class::SlideUp,
        OpmOp::VmvSX => Class::ScalarIn,
        OpmOp::VmvXS => Class::ScalarOut,
    }
}

// The class of each load or store.
#[rattlefmt::skip]
#[tactic(auto, unfolding(crate::specs::Classes::memory_class))]
fn memory_class(op: MemoryOp) -> Class
    ensures { meant result ≡ memory_class op }
{
    match op {
        MemoryOp::LoadUnitStride | MemoryOp::LoadFaultOnlyFirst | MemoryOp::LoadStrided => Class::Load,
        MemoryOp::StoreUnitStride | MemoryOp::StoreStrided => Class::Store,
        MemoryOp::LoadIndexedUnordered | MemoryOp::LoadIndexedOrdered => Class::IndexedLoad,
        MemoryOp::StoreIndexedUnordered | MemoryOp::StoreIndexedOrdered => Class::IndexedStore,
        MemoryOp::LoadWholeRegister => Class::WholeLoad,
        MemoryOp::StoreWholeRegister => Class::WholeStore,
        MemoryOp::LoadMask => Class::MaskLoad,
        MemoryOp::StoreMask => Class::MaskStore,
    }
}

/// Whether instructions of the class may write v0 under a mask.
#[tactic(auto, unfolding(crate::specs::Classes::may_write_mask))]
pub(crate) fn may_write_mask(class: Class) -> bool
    ensures { result ≡ may_write_mask (meant class) }
{
    matches!(
        class,
        Class::Compare | Class::Reduction | Class::WideningReduction
    )
}

/// Whether instructions of the class cannot go on at a later element.
#[tactic(auto, unfolding(crate::specs::Classes::starts_at_zero))]
pub(crate) fn starts_at_zero(class: Class) -> bool
    ensures { result ≡ starts_at_zero (meant class) }
{
    matches!(
        class,
        Class::Reduction
            | Class::WideningReduction
            | Class::MaskCount
            | Class::MaskFirst
            | Class::Iota
            | Class::Compress
    )
}

/// Whether instructions of the class need no setting.
#[tactic(auto, unfolding(crate::specs::Classes::needs_no_setting))]
pub(crate) fn needs_no_setting(class: Class) -> bool
    ensures { result ≡ needs_no_setting (meant class) }
{
    matches!(
        class,
        Class::Configuration | Class::WholeMove | Class::WholeLoad | Class::WholeStore
    )
}
