//! Which vector instructions are legal (version 1.0 of the vector extension, sections 3.4, 5.1 to 5.3, 7.8 and 11 to
//! 16).
ghost use Rattle.std.specs.Prelude.{◌≡◌, IsTrue};
ghost use Rattle.std.specs.List.{list_all};
ghost use Rattle.std.specs.Option.{option_map};
ghost use Rattle.vtype_cfg.specs.Settings.{is_vill_or_supported};
ghost use Rattle.vtype_cfg.specs.Classes.{overlap_of};
ghost use Rattle.vtype_cfg.specs.CodeTypes.{meant, seen, listed};
ghost use Rattle.vtype_cfg.specs.Legality.{if_there, has_setting, has_legal_eew, has_legal_emul, is_aligned, fits_registers, is_placed, are_placed, may_overlap_by_width, overlaps_legally, spares_mask, writes_legally, may_start_at, obeys_rules, is_legal};

use crate::classes::{Class, class_of, may_write_mask, needs_no_setting, starts_at_zero};
use crate::operands::{MASK_EEW, ONE_REGISTER, Operand, Sources, destination_of, sources_of};
use crate::vtype::Vtype;
use rvv_decode::VInstr;

// The widths of elements that are no bits of a mask, in bits.
const LEAST_EEW: u8 = 8;

const MOST_EEW: u8 = 32;

// The sizes of groups, in eighths of a register: 1/8 to 8.
const LEAST_EMUL: u16 = 1;

const MOST_EMUL: u16 = 64;

// The most registers that the fields of a segment take.
const MOST_REGISTERS: u32 = 8;

// How many vector registers there are, and the one that masks are read from.
const REGISTERS: u32 = 32;

const MASK_REGISTER: u32 = 0;

/// Whether an instruction is legal under a vector type where its first element is `vstart`. One that is not traps as an
/// illegal instruction, and changes nothing, `vstart` neither. No rule depends on VLEN.
#[tactic(auto, unfolding(crate::specs::Legality::is_legal))]
pub fn legal(i: &VInstr, vt: &Vtype, vstart: u32, vlen: u32) -> bool
    requires { IsTrue (is_vill_or_supported vt.now) }
    ensures { result ≡ is_legal i.now vt.now vstart }
{
    obeys_rules(class_of(i.op), i, vt, vstart)
}

#[tactic(auto, unfolding(crate::specs::Legality::obeys_rules))]
fn obeys_rules(class: Class, i: &VInstr, vt: &Vtype, vstart: u32) -> bool
    requires { IsTrue (is_vill_or_supported vt.now) }
    ensures { result ≡ obeys_rules (meant class) i.now vt.now vstart }
{
    let destination = destination_of(class, i, vt);
    let sources = sources_of(class, i, vt);
    has_setting(class, vt)
        && may_start_at(vstart, class)
        && are_placed(destination, &sources)
        && writes_legally(class, i, destination, &sources)
}

#[tactic(auto, unfolding(crate::specs::Legality::has_setting))]
fn has_setting(class: Class, vt: &Vtype) -> bool
    ensures { result ≡ has_setting (meant class) vt.now }
{
    !vt.vill || needs_no_setting(class)
}

#[tactic(auto, unfolding(crate::specs::Legality::may_start_at))]
fn may_start_at(vstart: u32, class: Class) -> bool
    ensures { result ≡ may_start_at vstart (meant class) }
{
    vstart == 0 || !starts_at_zero(class)
}

#[tactic(auto, unfolding(crate::specs::Legality::are_placed))]
fn are_placed(destination: Option<Operand>, sources: &Sources) -> bool
    ensures { result ≡ are_placed (option_map seen destination) (listed sources.now) }
{
    is_absent_or_placed(destination)
        && is_absent_or_placed(sources.vs3)
        && is_absent_or_placed(sources.vs2)
        && is_absent_or_placed(sources.vs1)
}

fn is_absent_or_placed(operand: Option<Operand>) -> bool
    ensures { result ≡ if_there is_placed (option_map seen operand) }
{
    match operand {
        Some(operand) => operand.is_placed(),
        None => true,
    }
}

impl Operand {
    #[tactic(auto, unfolding(crate::specs::Legality::is_placed))]
    fn is_placed(&self) -> bool
        ensures { result ≡ is_placed (seen self.now) }
    {
        self.has_legal_eew() && self.has_legal_emul() && self.is_aligned() && self.fits_registers()
    }

    #[tactic(auto, unfolding(crate::specs::Legality::has_legal_eew))]
    fn has_legal_eew(&self) -> bool
        ensures { result ≡ has_legal_eew (seen self.now) }
    {
        self.eew == MASK_EEW || (LEAST_EEW..=MOST_EEW).contains(&self.eew)
    }

    #[tactic(auto, unfolding(crate::specs::Legality::has_legal_emul))]
    fn has_legal_emul(&self) -> bool
        ensures { result ≡ has_legal_emul (seen self.now) }
    {
        (LEAST_EMUL..=MOST_EMUL).contains(&self.emul8)
    }

    #[tactic(auto, unfolding(crate::specs::Legality::is_aligned))]
    fn is_aligned(&self) -> bool
        ensures { result ≡ is_aligned (seen self.now) }
    {
        u32::from(self.first) % self.group_registers() == 0
    }

    #[tactic(auto, unfolding(crate::specs::Legality::fits_registers))]
    fn fits_registers(&self) -> bool
        ensures { result ≡ fits_registers (seen self.now) }
    {
        self.count() <= MOST_REGISTERS && self.past() <= REGISTERS
    }
}

#[tactic(auto, unfolding(crate::specs::Legality::writes_legally))]
fn writes_legally(class: Class, i: &VInstr, destination: Option<Operand>, sources: &Sources) -> bool
    ensures { result ≡ writes_legally (meant class) i.now (option_map seen destination) (listed sources.now) }
{
    match destination {
        Some(written) => overlaps_all_legally(class, i, &written, sources)
            && spares_mask(class, i.vm, &written),
        None => true,
    }
}

#[tactic(auto, unfolding(crate::specs::Legality::spares_mask))]
fn spares_mask(class: Class, unmasked: bool, destination: &Operand) -> bool
    ensures { result ≡ spares_mask (meant class) unmasked (seen destination.now) }
{
    unmasked || may_write_mask(class) || !destination.holds(MASK_REGISTER)
}

fn overlaps_all_legally(class: Class, i: &VInstr, destination: &Operand, sources: &Sources) -> bool
    ensures { result ≡ list_all (if_there (overlaps_legally (overlap_of (meant class) i.now) (seen destination.now))) (listed sources.now) }
{
    is_absent_or_overlapped(class, i, destination, sources.vs3)
        && is_absent_or_overlapped(class, i, destination, sources.vs2)
        && is_absent_or_overlapped(class, i, destination, sources.vs1)
}

fn is_absent_or_overlapped(
    class: Class,
    i: &VInstr,
    destination: &Operand,
    source: Option<Operand>,
) -> bool
    ensures { result ≡ if_there (overlaps_legally (overlap_of (meant class) i.now) (seen destination.now)) (option_map seen source) }
{
    match source {
        Some(read) => overlaps_legally(class, i, destination, &read),
        None => true,
    }
}

#[tactic(auto, unfolding(crate::specs::Legality::overlaps_legally, crate::specs::Classes::overlap_of))]
fn overlaps_legally(class: Class, i: &VInstr, destination: &Operand, source: &Operand) -> bool
    ensures { result ≡ overlaps_legally (overlap_of (meant class) i.now) (seen destination.now) (seen source.now) }
{
    if !destination.overlaps(source) {
        return true;
    }
    match class {
        Class::Reduction | Class::WideningReduction => true,
        Class::Gather
        | Class::GatherSixteen
        | Class::SlideUp
        | Class::Compress
        | Class::Iota
        | Class::MaskFirst => false,
        Class::IndexedLoad if i.nf > 1 => false,
        _ => may_overlap_by_width(destination, source),
    }
}

#[tactic(auto, unfolding(crate::specs::Legality::may_overlap_by_width))]
fn may_overlap_by_width(destination: &Operand, source: &Operand) -> bool
    ensures { result ≡ may_overlap_by_width (seen destination.now) (seen source.now) }
{
    if destination.eew < source.eew {
        return destination.is_lowest_part_of(source);
    }
    if destination.eew > source.eew {
        return source.emul8 >= ONE_REGISTER && source.is_highest_part_of(destination);
    }
    true
}
