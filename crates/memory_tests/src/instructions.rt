// Instructions and settings that may be carried out.
ghost use Rattle.std.specs.Prelude.{◌≡◌, ◌<◌, true, IfSome, IsTrue};
ghost use Rattle.rvv_decode.specs.Ranges.{IsInRange};
ghost use Rattle.vtype_cfg.specs.Legality.{is_legal};
ghost use Rattle.vtype_cfg.specs.Settings.{is_valid, is_vill_or_supported};
ghost use Rattle.rvv_meaning.specs.VectorAccesses.{reads_memory, writes_memory};

use rvv_decode::{MemoryOp, VInstr, VOp, decode_v};
use vtype_cfg::{Avl, Cfg, Policy, Vtype, legal, set_vl};

// The bits of a vector type without a setting.
const VILL: u32 = 1 << 31;

/// The bits of a vector register.
pub(crate) const VLEN: u32 = 1024;

/// The configuration after a vsetvli that asks for a length and a vector type, with a first element and a policy.
#[tactic(auto, unfolding(vtype_cfg::specs::Settings::is_valid, vtype_cfg::specs::Settings::is_legal_vlen, vtype_cfg::specs::Settings::legal_vlens))]
pub(crate) fn setting(vtype: u32, vl: u32, vstart: u32, policy: Policy) -> Cfg
    requires { vstart < VLEN }
    ensures valid { IsTrue (is_valid result) }
    ensures setting { IsTrue (is_vill_or_supported result.vtype) }
    ensures vlen { result.vlen ≡ VLEN }
{
    let (vtype, vl) = set_vl(&Vtype::from_bits(VILL), 0, Avl::Given(vl), vtype, VLEN);
    Cfg {
        vtype,
        vl,
        vstart,
        vxrm: 0,
        vlen: VLEN,
        policy,
    }
}

/// Whether an instruction reads memory.
#[tactic(auto, unfolding(rvv_meaning::specs::VectorAccesses::is_store))]
fn is_load(op: VOp) -> bool
    ensures { result ≡ reads_memory op }
{
    match op {
        VOp::Memory(op) => matches!(
            op,
            MemoryOp::LoadUnitStride
                | MemoryOp::LoadWholeRegister
                | MemoryOp::LoadMask
                | MemoryOp::LoadFaultOnlyFirst
                | MemoryOp::LoadIndexedUnordered
                | MemoryOp::LoadStrided
                | MemoryOp::LoadIndexedOrdered
        ),
        _ => false,
    }
}

/// Whether an instruction writes memory.
#[tactic(auto, unfolding(rvv_meaning::specs::VectorAccesses::is_store))]
fn is_store(op: VOp) -> bool
    ensures { result ≡ writes_memory op }
{
    match op {
        VOp::Memory(op) => matches!(
            op,
            MemoryOp::StoreUnitStride
                | MemoryOp::StoreWholeRegister
                | MemoryOp::StoreMask
                | MemoryOp::StoreIndexedUnordered
                | MemoryOp::StoreStrided
                | MemoryOp::StoreIndexedOrdered
        ),
        _ => false,
    }
}

/// The load that a word means, where it is legal.
pub(crate) fn load_of(word: u32, cfg: &Cfg) -> Option<VInstr>
    requires { IsTrue (is_vill_or_supported cfg.now.vtype) }
    ensures fields { IfSome result IsInRange }
    ensures legal { IfSome result (λ i. is_legal i cfg.now.vtype cfg.now.vstart ≡ true) }
    ensures load { IfSome result (λ i. reads_memory i.op ≡ true) }
{
    let i = decode_v(word)?;
    if !is_load(i.op) || !is_legal_under(&i, cfg) {
        return None;
    }
    Some(i)
}

/// The store that a word means, where it is legal.
pub(crate) fn store_of(word: u32, cfg: &Cfg) -> Option<VInstr>
    requires { IsTrue (is_vill_or_supported cfg.now.vtype) }
    ensures fields { IfSome result IsInRange }
    ensures legal { IfSome result (λ i. is_legal i cfg.now.vtype cfg.now.vstart ≡ true) }
    ensures store { IfSome result (λ i. writes_memory i.op ≡ true) }
{
    let i = decode_v(word)?;
    if !is_store(i.op) || !is_legal_under(&i, cfg) {
        return None;
    }
    Some(i)
}

// Whether an instruction is legal under a configuration.
fn is_legal_under(i: &VInstr, cfg: &Cfg) -> bool
    requires fields { IsInRange i.now }
    requires setting { IsTrue (is_vill_or_supported cfg.now.vtype) }
    ensures { result ≡ is_legal i.now cfg.now.vtype cfg.now.vstart }
{
    legal(i, &cfg.vtype, cfg.vstart, cfg.vlen)
}
