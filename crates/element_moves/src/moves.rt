// The moves. The destination shares no register with a source, so that its elements are written in place.
ghost use Rattle.std.specs.Prelude.{◌≡◌, ℕ, ◌+◌, ◌*◌, ◌/◌, ◌<◌, ◌≤◌, ◌^◌, cond, IsTrue};
ghost use lib.Dec.{ltb};
ghost use Rattle.cam_chain.specs.ChainValue.{slices_of};
ghost use Rattle.cam_chain.specs.Views.{registers_of, KeepsRest};
ghost use Rattle.element_ops.specs.Elements.{element_of, mask_bit_of};
ghost use Rattle.vtype_cfg.specs.Settings.{is_legal_vlen, is_vill_or_supported, vlmax};
ghost use Rattle.rvv_meaning.specs.Whole.{is_set as place_is_set};
ghost use Rattle.element_moves.specs.Permutations.{Leaves, gathered_by, counted, packed};
ghost use Rattle.element_moves.specs.Steps.{Fits, Reads, ReadsBits, taken};

use crate::destinations::{element_size, is_left_in, write_element, write_tail};
use cam_chain::Chain;
use register_elements::{element, register_bit, set_element};
use rvv_decode::VInstr;
use vtype_cfg::Cfg;

// Element `index` of vs2, of the `most` that there may be, and 0 past them.
fn gathered(i: &VInstr, cfg: &Cfg, chain: &Chain, most: u32, index: u32) -> u32
    requires source { Reads i.now cfg.now cfg.now.vtype.sew i.now.vs2 most }
    requires columns { cfg.now.vlen ≡ 32 * chain.now.columns }
    ensures { result ≡ cond (ltb index most) (element_of (4 * chain.now.columns) (registers_of (slices_of chain.now)) i.now.vs2 cfg.now.vtype.sew index) 0 }
{
    if index < most {
        element(chain, i.vs2, element_size(cfg), index)
    } else {
        0
    }
}

// The elements of vs2 at the indices in vs1, of so many bytes each.
pub(crate) fn gather(i: &VInstr, cfg: &Cfg, chain: &mut Chain, index_size: u32)
    requires fits { Fits i.now cfg.now }
    requires setting { IsTrue (is_vill_or_supported cfg.now.vtype) }
    requires length { IsTrue (is_legal_vlen cfg.now.vlen) }
    requires indices { Reads i.now cfg.now (8 * index_size) i.now.vs1 cfg.now.vl }
    requires source { Reads i.now cfg.now cfg.now.vtype.sew i.now.vs2 (vlmax cfg.now.vtype cfg.now.vlen) }
    requires columns { cfg.now.vlen ≡ 32 * chain.old.columns }
    ensures vectors { Leaves cfg.now (gathered_by i.now cfg.now (8 * index_size)) (slices_of chain.old) (slices_of chain.new) }
    ensures rest { KeepsRest (slices_of chain.old) (slices_of chain.new) }
    ensures columns { chain.new.columns ≡ chain.old.columns }
    ensures counts { chain.new.counts ≡ chain.old.counts }
{
    let most = cfg.vtype.vlmax(cfg.vlen);
    for e in cfg.vstart..cfg.vl {
        let index = element(chain, i.vs1, index_size, e);
        let value = gathered(i, cfg, chain, most, index);
        write_element(i, cfg, chain, e, value);
    }
    write_tail(i, cfg, chain, cfg.vl);
}

// Whether a place is set: the mask leaves it in, and its bit of vs2 is 1.
fn is_set(i: &VInstr, chain: &Chain, e: u32) -> bool
    requires register { i.now.vs2 < 32 }
    requires place { e < 32 * chain.now.columns }
    ensures { (cfg : Cfg) (x : ℕ) → result ≡ place_is_set i.now cfg x (registers_of (slices_of chain.now)) e }
{
    is_left_in(i, chain, e) && register_bit(chain, i.vs2, e)
}

// The number of set places below each element.
pub(crate) fn count_set(i: &VInstr, cfg: &Cfg, chain: &mut Chain)
    requires fits { Fits i.now cfg.now }
    requires start { cfg.now.vstart ≡ 0 }
    requires source { ReadsBits i.now cfg.now i.now.vs2 }
    requires columns { cfg.now.vlen ≡ 32 * chain.old.columns }
    ensures vectors { Leaves cfg.now (counted i.now cfg.now) (slices_of chain.old) (slices_of chain.new) }
    ensures rest { KeepsRest (slices_of chain.old) (slices_of chain.new) }
    ensures columns { chain.new.columns ≡ chain.old.columns }
    ensures counts { chain.new.counts ≡ chain.old.counts }
{
    let mut below = 0;
    for e in 0..cfg.vl {
        let set = is_set(i, chain, e);
        write_element(i, cfg, chain, e, below);
        below += u32::from(set);
    }
    write_tail(i, cfg, chain, cfg.vl);
}

// Element `e` of vs2 comes to place `to` of the destination, where its bit of vs1 is 1. Gives the next free place.
fn take(i: &VInstr, cfg: &Cfg, chain: &mut Chain, e: u32, to: u32) -> u32
    requires fits { Fits i.now cfg.now }
    requires source { Reads i.now cfg.now cfg.now.vtype.sew i.now.vs2 cfg.now.vl }
    requires register { i.now.vs1 < 32 }
    requires columns { cfg.now.vlen ≡ 32 * chain.old.columns }
    requires element { e < cfg.now.vl }
    requires place { to ≤ e }
    ensures vectors { registers_of (slices_of chain.new) ≡ taken i.now cfg.now (registers_of (slices_of chain.old)) e to }
    ensures next { result ≡ to + cond (mask_bit_of (registers_of (slices_of chain.old)) i.now.vs1 e) 1 0 }
    ensures rest { KeepsRest (slices_of chain.old) (slices_of chain.new) }
    ensures columns { chain.new.columns ≡ chain.old.columns }
    ensures counts { chain.new.counts ≡ chain.old.counts }
{
    if !register_bit(chain, i.vs1, e) {
        return to;
    }
    let size = element_size(cfg);
    let value = element(chain, i.vs2, size, e);
    set_element(chain, i.vd, size, to, value);
    to + 1
}

// The elements of vs2 whose bit of vs1 is 1, one after the other.
pub(crate) fn compress(i: &VInstr, cfg: &Cfg, chain: &mut Chain)
    requires fits { Fits i.now cfg.now }
    requires start { cfg.now.vstart ≡ 0 }
    requires source { Reads i.now cfg.now cfg.now.vtype.sew i.now.vs2 cfg.now.vl }
    requires mask { ReadsBits i.now cfg.now i.now.vs1 }
    requires columns { cfg.now.vlen ≡ 32 * chain.old.columns }
    ensures vectors { Leaves cfg.now (packed i.now cfg.now) (slices_of chain.old) (slices_of chain.new) }
    ensures rest { KeepsRest (slices_of chain.old) (slices_of chain.new) }
    ensures columns { chain.new.columns ≡ chain.old.columns }
    ensures counts { chain.new.counts ≡ chain.old.counts }
{
    let mut to = 0;
    for e in 0..cfg.vl {
        to = take(i, cfg, chain, e, to);
    }
    write_tail(i, cfg, chain, to);
}
