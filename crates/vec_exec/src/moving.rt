// Instructions that move elements of the vector registers without a program.
ghost use Rattle.std.specs.Prelude.{◌≡◌, ◌*◌, ℕ, true, false, IsTrue};
ghost use Rattle.cam_chain.specs.ChainValue.{slices_of};
ghost use Rattle.cam_chain.specs.Views.{registers_of, KeepsRest};
ghost use Rattle.rvv_decode.specs.Ranges.{IsInRange};
ghost use Rattle.vtype_cfg.specs.Legality.{is_legal};
ghost use Rattle.vtype_cfg.specs.Settings.{is_valid};
ghost use Rattle.rvv_meaning.specs.Vectors.{is_computed};
ghost use Rattle.rvv_meaning.specs.Whole.{makes_number};
ghost use Rattle.vec_exec.specs.Moves.{Permutes};
ghost use Rattle.vec_exec.specs.Programs.{is_engine};

use cam_chain::Chain;
use rvv_decode::VInstr;
use vtype_cfg::Cfg;

/// Moves elements of the vector registers, which the chain holds, for an instruction that has no program: `vrgather.vv`,
/// `vrgatherei16`, `vcompress` or `viota`. The instruction is legal under the configuration. No search or update is
/// made, and rows of work, tags and counts stay.
pub fn permute(i: &VInstr, cfg: &Cfg, chain: &mut Chain)
    requires computes { is_computed i.now.op ≡ true }
    requires apart { is_engine i.now ≡ false }
    requires registers { makes_number i.now.op ≡ false }
    requires fields { IsInRange i.now }
    requires legal { is_legal i.now cfg.now.vtype cfg.now.vstart ≡ true }
    requires valid { IsTrue (is_valid cfg.now) }
    requires long { cfg.now.vlen ≡ 32 * chain.old.columns }
    ensures vectors { Permutes i.now cfg.now (registers_of (slices_of chain.old)) (registers_of (slices_of chain.new)) }
    ensures rest { KeepsRest (slices_of chain.old) (slices_of chain.new) }
    ensures columns { chain.new.columns ≡ chain.old.columns }
    ensures counts { chain.new.counts ≡ chain.old.counts }
{
    element_moves::permute(i, cfg, chain);
}
