//! Instructions that move elements of the vector registers, which a chain holds, without micro-operations: gathers by
//! indices in registers, the numbers of set places below each element, and compressions (vector extension 1.0, sections
//! 15.8, 16.4 and 16.5).
#![tactic(auto)]

ghost use Rattle.std.specs.Prelude.{◌≡◌, ◌*◌, ◌/◌, true, IsTrue, is_some};
ghost use Rattle.cam_chain.specs.ChainValue.{slices_of};
ghost use Rattle.cam_chain.specs.Views.{registers_of, KeepsRest};
ghost use Rattle.rvv_decode.specs.Ranges.{IsInRange};
ghost use Rattle.vtype_cfg.specs.Legality.{is_legal};
ghost use Rattle.vtype_cfg.specs.Settings.{is_valid};
ghost use Rattle.element_moves.specs.Permutations.{IsPermuted, permuted_for};
ghost use Rattle.element_moves.specs.Steps.{index_size as index_size_of};

mod destinations;
mod moves;

use crate::destinations::element_size;
use crate::moves::{compress, count_set, gather};
use cam_chain::Chain;
use rvv_decode::{OpiOp, OpmOp, VInstr, VOp};
use vtype_cfg::Cfg;

// The bytes of an index of 16 bits.
const INDEX_BYTES: u32 = 2;

// The bytes of an index of a gather.
fn index_size(op: OpiOp, cfg: &Cfg) -> u32
    ensures { result ≡ index_size_of op cfg.now }
{
    match op {
        OpiOp::Vrgatherei16 => INDEX_BYTES,
        _ => element_size(cfg),
    }
}

/// Moves elements for `vrgather.vv`, `vrgatherei16`, `viota` or `vcompress`, as the instruction means. It is legal under the
/// configuration. No search or update is made, and rows of work, tags and counts stay.
pub fn permute(i: &VInstr, cfg: &Cfg, chain: &mut Chain)
    requires kind { is_some (permuted_for i.now) ≡ true }
    requires fields { IsInRange i.now }
    requires legal { is_legal i.now cfg.now.vtype cfg.now.vstart ≡ true }
    requires valid { IsTrue (is_valid cfg.now) }
    requires long { cfg.now.vlen ≡ 32 * chain.old.columns }
    ensures vectors { IsPermuted i.now cfg.now (registers_of (slices_of chain.old)) (registers_of (slices_of chain.new)) }
    ensures rest { KeepsRest (slices_of chain.old) (slices_of chain.new) }
    ensures columns { chain.new.columns ≡ chain.old.columns }
    ensures counts { chain.new.counts ≡ chain.old.counts }
{
    match i.op {
        VOp::Opi(op) => gather(i, cfg, chain, index_size(op, cfg)),
        VOp::Opm(OpmOp::Viota) => count_set(i, cfg, chain),
        VOp::Opm(OpmOp::Vcompress) => compress(i, cfg, chain),
        _ => unreachable!(),
    }
}
