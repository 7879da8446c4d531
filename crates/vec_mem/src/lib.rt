//! Vector loads and stores (vector extension 1.0, section 7): they move elements between the registers that a chain of slices
//! holds and the memory of a guest. Nothing is allocated, and no search, update or pass is made.
#![tactic(auto)]

ghost use Rattle.std.specs.Prelude.{◌≡◌, ◌*◌, true, None, Some, OnOk, IfErr, IsTrue};
ghost use Rattle.cam_chain.specs.ChainValue.{slices_of};
ghost use Rattle.cam_chain.specs.Views.{KeepsRest};
ghost use Rattle.rvv_decode.specs.Ranges.{IsInRange};
ghost use Rattle.vtype_cfg.specs.Legality.{is_legal};
ghost use Rattle.vtype_cfg.specs.Settings.{is_valid};
ghost use Rattle.rvv_meaning.specs.Elementwise.{is_ones};
ghost use Rattle.rvv_meaning.specs.LoadsAndStores.{outcome};
ghost use Rattle.rvv_meaning.specs.Scalar.{load_fault, store_fault};
ghost use Rattle.rvv_meaning.specs.VectorAccesses.{reads_memory, writes_memory};
ghost use Rattle.vec_mem.specs.Resumption.{ResumeLaw};
ghost use Rattle.vec_mem.specs.Views.{vectors_of};

mod fields;
mod loads;
mod places;
mod runs;
mod stores;
mod table;

use crate::loads::load_access;
use crate::stores::store_access;
use crate::table::access_for;
use cam_chain::Chain;
use guest_mem::Mem;
pub use loads::VecFault;
use rvv_decode::{VInstr, VOp};
use vtype_cfg::Cfg;

/// Carries out a load: elements of the memory from `base` on become elements of the chain's registers. `stride` is what the
/// second scalar register holds. An element is loaded whole or not at all. The fault has the first element that cannot be
/// loaded, whose number `vstart` becomes, and its first bad address; a fault-only-first load has one at element 0 alone, and
/// else lowers `vl`.
pub fn load(
    i: &VInstr,
    cfg: &mut Cfg,
    base: u32,
    stride: u32,
    chain: &mut Chain,
    mem: &Mem,
) -> Result<(), VecFault>
    requires load { reads_memory i.now.op ≡ true }
    requires fields { IsInRange i.now }
    requires legal { is_legal i.now cfg.old.vtype cfg.old.vstart ≡ true }
    requires valid { IsTrue (is_valid cfg.old) }
    requires columns { cfg.old.vlen ≡ 32 * chain.old.columns }
    ensures cfg { cfg.new ≡ (outcome i.now cfg.old base stride (vectors_of chain.old) mem.now.pages).cfg }
    ensures valid { IsTrue (is_valid cfg.new) }
    ensures vectors { vectors_of chain.new
        ≡ (outcome i.now cfg.old base stride (vectors_of chain.old) mem.now.pages).vectors (λ element. is_ones cfg.old.policy) }
    ensures ok { OnOk result ((outcome i.now cfg.old base stride (vectors_of chain.old) mem.now.pages).fault ≡ None) }
    ensures fault { IfErr result (λ f.
        (outcome i.now cfg.old base stride (vectors_of chain.old) mem.now.pages).fault ≡ Some (f.element, f.address)) }
    ensures cause { IfErr result (λ f. f.cause ≡ load_fault) }
    ensures rest { KeepsRest (slices_of chain.old) (slices_of chain.new) }
    ensures columns { chain.new.columns ≡ chain.old.columns }
    ensures counts { chain.new.counts ≡ chain.old.counts }
{
    match i.op {
        VOp::Memory(op) => {
            let access = access_for(op, i, cfg, stride);
            load_access(&access, cfg, base, chain, mem)
        }
        _ => Ok(()),
    }
}

/// Carries out a store: elements of the chain's registers are written into the memory from `base` on. `stride` is what the
/// second scalar register holds. An element is stored whole or not at all. The fault has the first element that cannot be
/// stored, whose number `vstart` becomes, and its first bad address.
pub fn store(
    i: &VInstr,
    cfg: &mut Cfg,
    base: u32,
    stride: u32,
    chain: &Chain,
    mem: &mut Mem,
) -> Result<(), VecFault>
    requires store { writes_memory i.now.op ≡ true }
    requires fields { IsInRange i.now }
    requires legal { is_legal i.now cfg.old.vtype cfg.old.vstart ≡ true }
    requires valid { IsTrue (is_valid cfg.old) }
    requires columns { cfg.old.vlen ≡ 32 * chain.now.columns }
    ensures cfg { cfg.new ≡ (outcome i.now cfg.old base stride (vectors_of chain.now) mem.old.pages).cfg }
    ensures valid { IsTrue (is_valid cfg.new) }
    ensures pages { mem.new
        ≡ record mem.old { pages = (outcome i.now cfg.old base stride (vectors_of chain.now) mem.old.pages).pages } }
    ensures ok { OnOk result ((outcome i.now cfg.old base stride (vectors_of chain.now) mem.old.pages).fault ≡ None) }
    ensures fault { IfErr result (λ f.
        (outcome i.now cfg.old base stride (vectors_of chain.now) mem.old.pages).fault ≡ Some (f.element, f.address)) }
    ensures cause { IfErr result (λ f. f.cause ≡ store_fault) }
{
    match i.op {
        VOp::Memory(op) => {
            let access = access_for(op, i, cfg, stride);
            store_access(&access, cfg, base, chain, mem)
        }
        _ => Ok(()),
    }
}

/// A load or a store that trapped goes on: from the element of its fault, over what it left with one more page mapped, it is
/// legal and leaves what it leaves that has the page mapped before.
pub fn resume_law()
    ensures law { ResumeLaw }
{}
