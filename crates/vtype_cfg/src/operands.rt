//! The registers that an instruction names (version 1.0 of the vector extension, sections 3.4.2 and 5.2).
ghost use Rattle.std.specs.Prelude.{◌≡◌, ◌^◌, ◌<◌, IsTrue};
ghost use Rattle.std.specs.Option.{option_map};
ghost use Rattle.vtype_cfg.specs.Settings.{is_vill_or_supported};
ghost use Rattle.vtype_cfg.specs.Groups.{emul_of, mask_at, register_at, groups_at, whole_at};
ghost use Rattle.vtype_cfg.specs.CodeTypes.{meant, seen, listed};
ghost use Rattle.vtype_cfg.specs.Classes.{destination_of, sources_of, row_of, operand_at, in_form};

use crate::classes::Class;
use crate::vtype::Vtype;
use rvv_decode::{Form, VInstr};

/// The registers of one operand.
#[derive(Clone, Copy)]
pub(crate) struct Operand {
    /// The first of them.
    pub(crate) first: u8,
    /// EEW, the width of an element in bits; 1 of a mask.
    pub(crate) eew: u8,
    /// EMUL, how many registers a group takes, in eighths; 8 where there is one register whatever LMUL is.
    pub(crate) emul8: u16,
    /// How many groups there are, one after the other: the fields of a segment.
    pub(crate) fields: u8,
}

/// What an instruction reads, but for the mask: what its places vs3, vs2 and vs1 name. vs3 stands in the place of vd.
#[derive(Clone, Copy)]
pub(crate) struct Sources {
    pub(crate) vs3: Option<Operand>,
    pub(crate) vs2: Option<Operand>,
    pub(crate) vs1: Option<Operand>,
}

/// EMUL of one register, in eighths.
pub(crate) const ONE_REGISTER: u16 = 8;

/// EEW of a mask, in bits.
pub(crate) const MASK_EEW: u8 = 1;

// The width of what moves without regard to the vector type, in bits.
const BYTE: u8 = 8;

// The width of the indices of vrgatherei16, in bits.
const HALF: u8 = 16;

impl Operand {
    fn mask(first: u8) -> Operand
        ensures { seen result ≡ mask_at first }
    {
        Operand {
            first,
            eew: MASK_EEW,
            emul8: ONE_REGISTER,
            fields: 1,
        }
    }

    fn register(eew: u8, first: u8) -> Operand
        ensures { seen result ≡ register_at eew first }
    {
        Operand {
            first,
            eew,
            emul8: ONE_REGISTER,
            fields: 1,
        }
    }

    fn group(vt: &Vtype, eew: u8, first: u8) -> Operand
        ensures { seen result ≡ groups_at vt.now 1 eew first }
    {
        Operand::groups(vt, 1, eew, first)
    }

    fn groups(vt: &Vtype, fields: u8, eew: u8, first: u8) -> Operand
        ensures { seen result ≡ groups_at vt.now fields eew first }
    {
        Operand {
            first,
            eew,
            emul8: emul_of(vt, eew),
            fields,
        }
    }

    fn whole(count: u16, first: u8) -> Operand
        requires { count < 2 ^ 13 }
        ensures { seen result ≡ whole_at count first }
    {
        Operand {
            first,
            eew: BYTE,
            emul8: ONE_REGISTER * count,
            fields: 1,
        }
    }
}

// EMUL of elements of so many bits, in eighths; 0 under vill.
fn emul_of(vt: &Vtype, eew: u8) -> u16
    ensures { result ≡ emul_of vt.now eew }
{
    if vt.sew == 0 {
        return 0;
    }
    u16::from(vt.lmul8) * u16::from(eew) / u16::from(vt.sew)
}

/// What an instruction writes.
#[rattlefmt::skip]
#[tactic(auto, using(crate::proofs::Supported::setting_bounded), unfolding(crate::specs::Classes::destination_of, crate::specs::Classes::row_of))]
pub(crate) fn destination_of(class: Class, i: &VInstr, vt: &Vtype) -> Option<Operand>
    requires { IsTrue (is_vill_or_supported vt.now) }
    ensures { option_map seen result ≡ destination_of (meant class) i.now vt.now }
{
    let operand = match class {
        Class::Plain | Class::Move | Class::Narrowing | Class::ExtensionByTwo | Class::ExtensionByFour
        | Class::Iota | Class::Index | Class::Compress | Class::Gather | Class::GatherSixteen
        | Class::SlideUp => Operand::group(vt, vt.sew, i.vd),
        Class::Widening | Class::WideSource => Operand::group(vt, 2 * vt.sew, i.vd),
        Class::Compare | Class::MaskLogic | Class::MaskFirst => Operand::mask(i.vd),
        Class::Reduction | Class::ScalarIn => Operand::register(vt.sew, i.vd),
        Class::WideningReduction => Operand::register(2 * vt.sew, i.vd),
        Class::Load => Operand::groups(vt, i.nf, i.eew, i.vd),
        Class::IndexedLoad => Operand::groups(vt, i.nf, vt.sew, i.vd),
        Class::WholeMove => Operand::whole(u16::from(i.vs1) + 1, i.vd),
        Class::WholeLoad => Operand::whole(u16::from(i.nf), i.vd),
        Class::MaskLoad => Operand::register(BYTE, i.vd),
        Class::MaskCount | Class::ScalarOut | Class::Configuration | Class::Store | Class::IndexedStore
        | Class::WholeStore | Class::MaskStore => return None,
    };
    Some(operand)
}

/// What an instruction reads, but for the mask.
#[tactic(auto, unfolding(crate::specs::Classes::sources_of))]
pub(crate) fn sources_of(class: Class, i: &VInstr, vt: &Vtype) -> Sources
    requires { IsTrue (is_vill_or_supported vt.now) }
    ensures { listed result ≡ sources_of (meant class) i.now vt.now }
{
    Sources {
        vs3: source_in_vs3(class, i, vt),
        vs2: source_in_vs2(class, i, vt),
        vs1: if i.form == Form::V {
            source_in_vs1(class, i, vt)
        } else {
            None
        },
    }
}

// What vs3 names: the data of a store. It stands in the place of vd.
#[tactic(auto, unfolding(crate::specs::Classes::row_of))]
fn source_in_vs3(class: Class, i: &VInstr, vt: &Vtype) -> Option<Operand>
    ensures { option_map seen result ≡ operand_at vt.now i.now.vd (row_of (meant class) vt.now.sew i.now).vs3 }
{
    match class {
        Class::Store => Some(Operand::groups(vt, i.nf, i.eew, i.vd)),
        Class::IndexedStore => Some(Operand::groups(vt, i.nf, vt.sew, i.vd)),
        Class::WholeStore => Some(Operand::whole(u16::from(i.nf), i.vd)),
        Class::MaskStore => Some(Operand::register(BYTE, i.vd)),
        _ => None,
    }
}

// What vs2 names.
#[rattlefmt::skip]
#[tactic(auto, using(crate::proofs::Supported::setting_bounded), unfolding(crate::specs::Classes::row_of))]
fn source_in_vs2(class: Class, i: &VInstr, vt: &Vtype) -> Option<Operand>
    requires { IsTrue (is_vill_or_supported vt.now) }
    ensures { option_map seen result ≡ operand_at vt.now i.now.vs2 (row_of (meant class) vt.now.sew i.now).vs2 }
{
    let operand = match class {
        Class::Plain | Class::Widening | Class::Compare | Class::Reduction | Class::WideningReduction
        | Class::Compress | Class::Gather | Class::GatherSixteen
        | Class::SlideUp => Operand::group(vt, vt.sew, i.vs2),
        Class::WideSource | Class::Narrowing => Operand::group(vt, 2 * vt.sew, i.vs2),
        Class::ExtensionByTwo => Operand::group(vt, vt.sew / 2, i.vs2),
        Class::ExtensionByFour => Operand::group(vt, vt.sew / 4, i.vs2),
        Class::MaskLogic | Class::MaskCount | Class::MaskFirst | Class::Iota => Operand::mask(i.vs2),
        Class::ScalarOut => Operand::register(vt.sew, i.vs2),
        Class::IndexedLoad | Class::IndexedStore => Operand::group(vt, i.eew, i.vs2),
        Class::WholeMove => Operand::whole(u16::from(i.vs1) + 1, i.vs2),
        Class::Move | Class::Index | Class::ScalarIn | Class::Configuration | Class::Load | Class::Store
        | Class::WholeLoad | Class::WholeStore | Class::MaskLoad | Class::MaskStore => return None,
    };
    Some(operand)
}

// What vs1 names in a vector form.
#[rattlefmt::skip]
#[tactic(auto, using(crate::proofs::Supported::setting_bounded), unfolding(crate::specs::Classes::row_of))]
fn source_in_vs1(class: Class, i: &VInstr, vt: &Vtype) -> Option<Operand>
    requires { IsTrue (is_vill_or_supported vt.now) }
    ensures { option_map seen result ≡ operand_at vt.now i.now.vs1 (row_of (meant class) vt.now.sew i.now).vs1 }
{
    let operand = match class {
        Class::Plain | Class::Move | Class::Widening | Class::WideSource | Class::Narrowing | Class::Compare
        | Class::Gather => Operand::group(vt, vt.sew, i.vs1),
        Class::GatherSixteen => Operand::group(vt, HALF, i.vs1),
        Class::Reduction => Operand::register(vt.sew, i.vs1),
        Class::WideningReduction => Operand::register(2 * vt.sew, i.vs1),
        Class::MaskLogic | Class::Compress => Operand::mask(i.vs1),
        _ => return None,
    };
    Some(operand)
}
