ghost use Rattle.std.specs.Prelude.{◌≡◌, ◌<◌, true};
ghost use Rattle.steer_net.specs.Network.{windowed, freed, numbered, bit_in, is_width, MaskReaches};
ghost use Rattle.steer_net.specs.Rows.{is_one};

use crate::columns::write_over_mask;
use crate::lanes::write_lanes;
use bit_rows::Planes;

// The register that is the mask.
pub(crate) const MASK: u8 = 0;

// Which elements of a row become ones: `on` and `off` say it of an element from `from` on and
// below `to`, where its bit of the mask is 1 and where it is 0, and `tail` says it of an element
// from `to` on.
#[derive(Clone, Copy)]
pub(crate) struct Ones {
    pub(crate) from: u32,
    pub(crate) to: u32,
    pub(crate) on: bool,
    pub(crate) off: bool,
    pub(crate) tail: bool,
}

/// Writes into a row which elements of `width` bits lie from `from` on and below `to` and, where
/// `masked`, have their bit of register 0 set. The first element of the row has the number `first`.
pub fn window<P: Planes>(
    p: &mut P,
    row: u8,
    width: u8,
    first: u32,
    from: u32,
    to: u32,
    masked: bool,
)
    requires row { row < 64 }
    requires width { is_width width ≡ true }
    requires mask { masked ≡ true → MaskReaches (P.slices p.old).columns width first from to }
    ensures slices { P.slices p.new ≡ windowed row width first from to masked (P.slices p.old) }
    ensures searches { P.searches p.new ≡ P.searches p.old }
    ensures updates { P.updates p.new ≡ P.updates p.old }
    ensures passes { P.passes p.new ≡ P.passes p.old }
{
    let ones = Ones {
        from,
        to,
        on: true,
        off: !masked,
        tail: false,
    };
    write_ones(p, row, width, first, ones);
}

/// Writes into a row which elements of `width` bits are free: those of the tail, which is from `to`
/// on, where `tail`, and those from `from` on and below `to` whose bit of register 0 is clear,
/// where `masked` and `off`. The first element of the row has the number `first`.
pub fn free<P: Planes>(
    p: &mut P,
    row: u8,
    width: u8,
    first: u32,
    from: u32,
    to: u32,
    masked: bool,
    tail: bool,
    off: bool,
)
    requires row { row < 64 }
    requires width { is_width width ≡ true }
    requires mask { masked ≡ true → off ≡ true
        → MaskReaches (P.slices p.old).columns width first from to }
    ensures slices { P.slices p.new
        ≡ freed row width first from to masked tail off (P.slices p.old) }
    ensures searches { P.searches p.new ≡ P.searches p.old }
    ensures updates { P.updates p.new ≡ P.updates p.old }
    ensures passes { P.passes p.new ≡ P.passes p.old }
{
    let ones = Ones {
        from,
        to,
        on: false,
        off: masked && off,
        tail,
    };
    write_ones(p, row, width, first, ones);
}

// Writes the row by the mask as register 0 stands before.
pub(crate) fn write_ones<P: Planes>(p: &mut P, row: u8, width: u8, first: u32, ones: Ones)
    requires row { row < 64 }
    requires width { is_width width ≡ true }
    requires mask { (ones.on ≡ ones.off → ⊥)
        → MaskReaches (P.slices p.old).columns width first ones.from ones.to }
    ensures slices { P.slices p.new
        ≡ numbered row width first (is_one ones (bit_in (P.slices p.old) 0)) (P.slices p.old) }
    ensures searches { P.searches p.new ≡ P.searches p.old }
    ensures updates { P.updates p.new ≡ P.updates p.old }
    ensures passes { P.passes p.new ≡ P.passes p.old }
{
    if row == MASK {
        write_over_mask(p, row, width, first, ones);
    } else {
        write_lanes(p, row, width, first, ones);
    }
}
