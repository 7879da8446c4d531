// What each load and store moves.
ghost use Rattle.std.specs.Prelude.{◌≡◌, ◌*◌, ◌/◌, ◌<◌, ◌≤◌, ◌^◌, ◌⊎◌};
ghost use Rattle.rvv_meaning.specs.VectorAccesses.{shape_of, whole, group_count as count_of_group, of_elements as elements_access, of_registers as registers_access, access_of};

use rvv_decode::{MemoryOp, VInstr};
use rvv_meaning::{Access, Offset};
use vtype_cfg::Cfg;

// How many registers a group of elements of so many bits takes.
fn group_count(cfg: &Cfg, width: u8) -> u8
    requires sew { 8 ≤ cfg.now.vtype.sew }
    requires lmul { cfg.now.vtype.lmul8 ≤ 64 }
    requires width { width ≤ 32 }
    ensures { result ≡ count_of_group cfg.now width }
{
    let emul = u32::from(cfg.vtype.lmul8) * u32::from(width) / u32::from(cfg.vtype.sew);
    (emul / 8).max(1) as u8
}

// vl elements of so many bits, at this offset.
fn of_elements(i: &VInstr, cfg: &Cfg, width: u8, trims: bool, offset: Offset) -> Access
    requires sew { 8 ≤ cfg.now.vtype.sew }
    requires lmul { cfg.now.vtype.lmul8 ≤ 64 }
    requires width { width ≤ 32 }
    ensures { result ≡ elements_access i.now cfg.now width trims offset }
{
    Access {
        register: i.vd,
        registers: group_count(cfg, width),
        fields: i.nf,
        width,
        len: cfg.vl,
        masked: !i.vm,
        agnostic_tail: false,
        trims,
        offset,
    }
}

// So many elements side by side.
fn of_registers(i: &VInstr, registers: u8, width: u8, len: u32, agnostic_tail: bool) -> Access
    ensures { result ≡ registers_access i.now registers width len agnostic_tail }
{
    Access {
        register: i.vd,
        registers,
        fields: 1,
        width,
        len,
        masked: false,
        agnostic_tail,
        trims: false,
        offset: Offset::Step(u32::from(width / 8)),
    }
}

// vl elements side by side.
fn of_unit(i: &VInstr, cfg: &Cfg, trims: bool) -> Access
    requires sew { 8 ≤ cfg.now.vtype.sew }
    requires lmul { cfg.now.vtype.lmul8 ≤ 64 }
    requires width { i.now.eew ≤ 32 }
    requires fields { i.now.nf ≤ 8 }
    ensures { result ≡ elements_access i.now cfg.now i.now.eew trims (Offset.Step (i.now.nf * (i.now.eew / 8))) }
{
    of_elements(
        i,
        cfg,
        i.eew,
        trims,
        Offset::Step(u32::from(i.nf) * u32::from(i.eew / 8)),
    )
}

// What a load or a store moves.
#[tactic(auto, unfolding(rvv_meaning::specs::VectorAccesses::access_of, rvv_meaning::specs::VectorAccesses::shape_of, rvv_meaning::specs::VectorAccesses::trims_of))]
pub(crate) fn access_for(op: MemoryOp, i: &VInstr, cfg: &Cfg, stride: u32) -> Access
    requires sew { (shape_of op ≡ whole) ⊎ (8 ≤ cfg.now.vtype.sew) }
    requires most { cfg.now.vtype.sew ≤ 32 }
    requires lmul { cfg.now.vtype.lmul8 ≤ 64 }
    requires some { 0 < i.now.eew }
    requires width { i.now.eew ≤ 32 }
    requires fields { i.now.nf ≤ 8 }
    requires vlen { cfg.now.vlen ≤ 2 ^ 16 }
    requires length { cfg.now.vl ≤ 2 ^ 16 }
    ensures { result ≡ access_of op i.now cfg.now stride }
{
    match op {
        MemoryOp::LoadUnitStride | MemoryOp::StoreUnitStride => of_unit(i, cfg, false),
        MemoryOp::LoadFaultOnlyFirst => of_unit(i, cfg, true),
        MemoryOp::LoadStrided | MemoryOp::StoreStrided => {
            of_elements(i, cfg, i.eew, false, Offset::Step(stride))
        }
        MemoryOp::LoadMask | MemoryOp::StoreMask => {
            of_registers(i, 1, 8, (cfg.vl + 7) / 8, true)
        }
        MemoryOp::LoadWholeRegister | MemoryOp::StoreWholeRegister => {
            of_registers(
                i,
                i.nf,
                i.eew,
                u32::from(i.nf) * cfg.vlen / u32::from(i.eew),
                false,
            )
        }
        _ => of_elements(i, cfg, cfg.vtype.sew, false, Offset::Index(i.vs2, i.eew)),
    }
}
