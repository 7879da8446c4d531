//! The vector type: the width of an element, the size of a group of registers, and which elements are agnostic (version
//! 1.0 of the vector extension, section 3.4).
ghost use Rattle.std.specs.Prelude.{◌≡◌, ◌^◌, ◌<◌, IsSome, IsTrue};
ghost use Rattle.std.specs.Option.{option_map, option_map_or};
ghost use Rattle.vtype_cfg.specs.Settings.{setting_of_codes, setting_of_sizes, sizes, codes, vtype_of, bits_of, is_vill_or_supported, is_legal_vlen, vlmax};

/// The vector type. Under `vill` no setting is in force, and the other fields are false and 0.
#[derive(Clone, Copy, PartialEq, Eq, Debug)]
pub struct Vtype {
    /// Whether no setting is in force: a setting was asked for that is not supported, or none was.
    pub vill: bool,
    /// Whether the elements of a tail are agnostic.
    pub vta: bool,
    /// Whether the elements that are masked off are agnostic.
    pub vma: bool,
    /// SEW, the width of an element in bits: 8, 16 or 32.
    pub sew: u8,
    /// LMUL, how many registers a group takes, in eighths: 2 is 1/4, 4 is 1/2, 8 is 1, and so on up to 64.
    pub lmul8: u8,
}

// The places of the fields of vtype.
const VILL_AT: u32 = 31;

const VMA_AT: u32 = 7;

const VTA_AT: u32 = 6;

const VSEW_AT: u32 = 3;

// The bits that name SEW, or LMUL, once they are moved to the right.
const CODE: u32 = 0b111;

// How many bits of vtype, from the lowest on, name a setting and its flags.
const DEFINED_BITS: u32 = 8;

// LMUL counts eighths of a register.
const EIGHTHS: u32 = 8;

// SEW is at most LMUL times the width of the widest element, which is 32 bits: so many bits for each eighth.
const BITS_FOR_EIGHTH: u8 = 4;

impl Vtype {
    /// The vector type where no setting is in force.
    pub(crate) const VILL: Vtype = Vtype {
        vill: true,
        vta: false,
        vma: false,
        sew: 0,
        lmul8: 0,
    };

    /// The vector type that the bits of vtype name, as they are asked for by vsetvl: vill where a bit above bit 7 is 1, and
    /// where SEW and LMUL are not supported together.
    #[tactic(auto, using(crate::proofs::Supported::named_is_setting))]
    pub fn from_bits(vtypei: u32) -> Vtype
        ensures value { result ≡ vtype_of vtypei }
        ensures setting { IsTrue (is_vill_or_supported result) }
    {
        vtype_of(vtypei)
    }

    /// The bits of vtype: vill is bit 31, vma 7, vta 6, and SEW and LMUL stand in bits 5:3 and 2:0. `from_bits` gives this
    /// vector type back.
    #[tactic(auto, using(crate::proofs::Supported::named_by))]
    pub fn bits(&self) -> u32
        requires { IsTrue (is_vill_or_supported self.now) }
        ensures value { result ≡ bits_of self.now }
        ensures back { vtype_of result ≡ self.now }
    {
        bits_of(self)
    }

    /// VLMAX, the greatest vector length in elements: LMUL·VLEN/SEW, where a register has `vlen` bits; 0 under vill (section
    /// 3.4.2).
    #[tactic(auto, using(crate::proofs::Supported::setting_bounded, crate::proofs::Supported::vlen_bounded), unfolding(crate::specs::Settings::vlmax))]
    pub fn vlmax(&self, vlen: u32) -> u32
        requires setting { IsTrue (is_vill_or_supported self.now) }
        requires length { IsTrue (is_legal_vlen vlen) }
        ensures { result ≡ vlmax self.now vlen }
    {
        if self.vill {
            return 0;
        }
        u32::from(self.lmul8) * vlen / (EIGHTHS * u32::from(self.sew))
    }
}

#[tactic(auto, unfolding(crate::specs::Settings::vtype_of))]
fn vtype_of(vtypei: u32) -> Vtype
    ensures { result ≡ vtype_of vtypei }
{
    if vtypei >> DEFINED_BITS != 0 {
        return Vtype::VILL;
    }
    match setting_of_codes(vtypei >> VSEW_AT & CODE, vtypei & CODE) {
        Some((sew, lmul8)) => Vtype {
            vill: false,
            vta: vtypei >> VTA_AT & 1 == 1,
            vma: vtypei >> VMA_AT & 1 == 1,
            sew,
            lmul8,
        },
        None => Vtype::VILL,
    }
}

#[tactic(auto, using(crate::proofs::Supported::has_codes), unfolding(crate::specs::Settings::bits_of))]
fn bits_of(vt: &Vtype) -> u32
    requires { IsTrue (is_vill_or_supported vt.now) }
    ensures { result ≡ bits_of vt.now }
{
    if vt.vill {
        return 1 << VILL_AT;
    }
    codes(vt.sew, vt.lmul8) | u32::from(vt.vta) << VTA_AT | u32::from(vt.vma) << VMA_AT
}

// SEW in bits and LMUL in eighths of the supported setting that these codes name.
#[tactic(auto, unfolding(crate::specs::Settings::setting_of_codes, crate::specs::Settings::settings))]
fn setting_of_codes(vsew: u32, vlmul: u32) -> Option<(u8, u8)>
    ensures { result ≡ option_map sizes (setting_of_codes vsew vlmul) }
{
    let sew = match vsew {
        0b000 => 8u8,
        0b001 => 16,
        0b010 => 32,
        _ => return None,
    };
    let lmul8 = match vlmul {
        0b000 => 8u8,
        0b001 => 16,
        0b010 => 32,
        0b011 => 64,
        0b110 => 2,
        0b111 => 4,
        _ => return None,
    };
    (sew / BITS_FOR_EIGHTH <= lmul8).then_some((sew, lmul8))
}

// The codes of a supported setting.
#[tactic(auto, unfolding(crate::specs::Settings::setting_of_sizes, crate::specs::Settings::settings))]
fn codes(sew: u8, lmul8: u8) -> u32
    requires { IsSome (setting_of_sizes sew lmul8) }
    ensures value { result ≡ option_map_or codes (setting_of_sizes sew lmul8) 0 }
    ensures short { result < 2 ^ 6 }
{
    let vsew = match sew {
        8 => 0b000,
        16 => 0b001,
        _ => 0b010,
    };
    let vlmul = match lmul8 {
        8 => 0b000,
        16 => 0b001,
        32 => 0b010,
        64 => 0b011,
        2 => 0b110,
        _ => 0b111,
    };
    vsew << VSEW_AT | vlmul
}
