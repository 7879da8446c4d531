//! What a line of the input asks.
ghost use Rattle.std.specs.Prelude.{IfSome, IsTrue};
ghost use Rattle.vtype_cfg.specs.Settings.{is_valid, is_vill_or_supported};

use vtype_cfg::{Cfg, Policy, Vtype};

// The base of hexadecimal numbers, and of all others.
const HEXADECIMAL: u32 = 16;

const DECIMAL: u32 = 10;

// The lengths in bits that a vector register may have.
const VLENS: [u32; 12] = [
    32, 64, 128, 256, 512, 1024, 2048, 4096, 8192, 16384, 32768, 65536,
];

// The greatest rounding mode.
const MOST_VXRM: u8 = 3;

/// A word, the configuration that it is planned under, and its scalar.
#[derive(Clone, Copy)]
pub(crate) struct Question {
    pub(crate) word: u32,
    pub(crate) cfg: Cfg,
    pub(crate) scalar: u32,
}

// The number that a word gives in decimal.
fn decimal_of(word: &str) -> Option<u32> {
    u32::from_str_radix(word, DECIMAL).ok()
}

// The number that a word gives in hexadecimal.
fn hexadecimal_of(word: &str) -> Option<u32> {
    u32::from_str_radix(word, HEXADECIMAL).ok()
}

// The policy that a word names.
fn policy_of(word: &str) -> Option<Policy> {
    match word {
        "keep" => Some(Policy::Keep),
        "ones" => Some(Policy::Ones),
        _ => None,
    }
}

// The configuration of a vector type, where a vector unit can have it.
#[tactic(auto, unfolding(vtype_cfg::specs::Settings::is_valid, vtype_cfg::specs::Settings::is_legal_vlen, vtype_cfg::specs::Settings::legal_vlens))]
fn cfg_of(vtype: Vtype, vl: u32, vstart: u32, vlen: u32, vxrm: u8, policy: Policy) -> Option<Cfg>
    requires { IsTrue (is_vill_or_supported vtype) }
    ensures valid { IfSome result (λ cfg. IsTrue (is_valid cfg)) }
    ensures setting { IfSome result (λ cfg. IsTrue (is_vill_or_supported cfg.vtype)) }
{
    if !VLENS.contains(&vlen) || vl > vtype.vlmax(vlen) || vstart >= vlen || vxrm > MOST_VXRM {
        return None;
    }
    Some(Cfg {
        vtype,
        vl,
        vstart,
        vxrm,
        vlen,
        policy,
    })
}

/// What the words of a line ask, or `None` where they have another form.
pub(crate) fn question_in(words: &[&str]) -> Option<Question>
    ensures valid { IfSome result (λ question. IsTrue (is_valid question.cfg)) }
    ensures setting { IfSome result (λ question. IsTrue (is_vill_or_supported question.cfg.vtype)) }
{
    let [word, vtype, vl, vstart, vlen, vxrm, policy, scalar] = words else {
        return None;
    };
    let vxrm = u8::from_str_radix(vxrm, DECIMAL).ok()?;
    let (vl, vstart, vlen) = (decimal_of(vl)?, decimal_of(vstart)?, decimal_of(vlen)?);
    let vtype = Vtype::from_bits(hexadecimal_of(vtype)?);
    Some(Question {
        word: hexadecimal_of(word)?,
        cfg: cfg_of(vtype, vl, vstart, vlen, vxrm, policy_of(policy)?)?,
        scalar: hexadecimal_of(scalar)?,
    })
}
