//! Configuration: what vsetvli, vsetivli and vsetvl leave (version 1.0 of the vector extension, section 6), and the
//! configuration of a vector unit as a whole.
ghost use Rattle.std.specs.Prelude.{◌≡◌, ◌≤◌, IsTrue};
ghost use Rattle.vtype_cfg.specs.Settings.{configured, is_vill_or_supported, is_legal_vlen, vlmax};

use crate::vtype::Vtype;

/// The application vector length: how many elements a configuration instruction asks for (section 6.2).
#[derive(Clone, Copy, PartialEq, Eq, Debug)]
pub enum Avl {
    /// So many: an immediate, or what x[rs1] holds where rs1 is not x0.
    Given(u32),
    /// As many as a group has, where rs1 is x0 and rd is not.
    Max,
    /// As many as before, where rs1 and rd are x0.
    Keep,
}

/// What a vector instruction leaves in an agnostic element: its old value, or all ones (section 3.4.3).
#[derive(Clone, Copy, PartialEq, Eq, Debug)]
pub enum Policy {
    Keep,
    Ones,
}

/// The configuration of a vector unit.
#[derive(Clone, Copy, PartialEq, Eq, Debug)]
pub struct Cfg {
    pub vtype: Vtype,
    /// How many elements an instruction works on.
    pub vl: u32,
    /// The first element that an instruction works on.
    pub vstart: u32,
    /// The rounding mode of fixed-point instructions: 0 to 3.
    pub vxrm: u8,
    /// VLEN, the length of a vector register in bits: a power of two from 32 to 65,536.
    pub vlen: u32,
    pub policy: Policy,
}

/// The vector type and the vector length in elements after a configuration instruction that asks for the vector type of
/// the bits `vtypei`. The type is vill, and the length 0, where that type is not supported, and where the length was to
/// be kept but there was no setting or VLMAX would change.
pub fn set_vl(old: &Vtype, old_vl: u32, avl: Avl, vtypei: u32, vlen: u32) -> (Vtype, u32)
    requires register { IsTrue (is_legal_vlen vlen) }
    requires setting { IsTrue (is_vill_or_supported old.now) }
    requires length { old_vl ≤ vlmax old.now vlen }
    ensures configured { result ≡ configured old.now old_vl avl vtypei vlen }
    ensures setting { IsTrue (is_vill_or_supported result.0) }
    ensures length { result.1 ≤ vlmax result.0 vlen }
{
    configured(old, old_vl, avl, vtypei, vlen)
}

#[tactic(auto, unfolding(crate::specs::Settings::configured))]
fn configured(old: &Vtype, old_vl: u32, avl: Avl, vtypei: u32, vlen: u32) -> (Vtype, u32)
    requires register { IsTrue (is_legal_vlen vlen) }
    requires setting { IsTrue (is_vill_or_supported old.now) }
    ensures { result ≡ configured old.now old_vl avl vtypei vlen }
{
    let new = Vtype::from_bits(vtypei);
    if new.vill {
        return (Vtype::VILL, 0);
    }
    let most = new.vlmax(vlen);
    match avl {
        Avl::Given(length) => (new, length.min(most)),
        Avl::Max => (new, most),
        Avl::Keep if !old.vill && old.vlmax(vlen) == most => (new, old_vl),
        Avl::Keep => (Vtype::VILL, 0),
    }
}
