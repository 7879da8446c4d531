// The elements of a destination: how many there are, and how one is written that is computed, masked off or of the tail.
ghost use Rattle.std.specs.Prelude.{◌≡◌, ◌+◌, ◌*◌, ◌/◌, ◌<◌, ◌≤◌, ◌^◌};
ghost use Rattle.cam_chain.specs.ChainValue.{slices_of};
ghost use Rattle.cam_chain.specs.Views.{registers_of, KeepsRest};
ghost use Rattle.element_moves.specs.Steps.{Fits, element_written, ones_from, tail_written};
ghost use Rattle.element_moves.specs.Steps as steps;

use cam_chain::Chain;
use register_elements::{all_ones, mask_bit, set_element};
use rvv_decode::VInstr;
use rvv_meaning::{fills_masked, makes_ones};
use vtype_cfg::Cfg;

// The bits of a byte.
const BYTE_BITS: u8 = 8;

// LMUL counts eighths of a register.
const EIGHTHS: u8 = 8;

// The bytes of an element.
pub(crate) fn element_size(cfg: &Cfg) -> u32
    ensures { result ≡ steps.element_size cfg.now }
{
    u32::from(cfg.vtype.sew / BYTE_BITS)
}

// How many elements the registers of the destination hold.
fn group_elements(i: &VInstr, cfg: &Cfg) -> u32
    requires { Fits i.now cfg.now }
    ensures { result ≡ steps.group_elements cfg.now }
{
    u32::from((cfg.vtype.lmul8 / EIGHTHS).max(1)) * (cfg.vlen / u32::from(cfg.vtype.sew))
}

// Whether the mask leaves an element in.
pub(crate) fn is_left_in(i: &VInstr, chain: &Chain, e: u32) -> bool
    requires { e < 32 * chain.now.columns }
    ensures { result ≡ steps.is_left_in i.now (registers_of (slices_of chain.now)) e }
{
    i.vm || mask_bit(chain, e)
}

// Element `e` becomes `value`, or what the configuration makes of one that is masked off.
pub(crate) fn write_element(i: &VInstr, cfg: &Cfg, chain: &mut Chain, e: u32, value: u32)
    requires fits { Fits i.now cfg.now }
    requires columns { cfg.now.vlen ≡ 32 * chain.old.columns }
    requires element { e < cfg.now.vl }
    ensures vectors { registers_of (slices_of chain.new) ≡ element_written i.now cfg.now (registers_of (slices_of chain.old)) e value }
    ensures rest { KeepsRest (slices_of chain.old) (slices_of chain.new) }
    ensures columns { chain.new.columns ≡ chain.old.columns }
    ensures counts { chain.new.counts ≡ chain.old.counts }
{
    let size = element_size(cfg);
    if is_left_in(i, chain, e) {
        set_element(chain, i.vd, size, e, value);
        return;
    }
    if fills_masked(cfg) {
        set_element(chain, i.vd, size, e, all_ones(size));
    }
}

// The elements from one on become all ones.
fn fill_from(i: &VInstr, cfg: &Cfg, chain: &mut Chain, from: u32)
    requires fits { Fits i.now cfg.now }
    requires columns { cfg.now.vlen ≡ 32 * chain.old.columns }
    ensures vectors { registers_of (slices_of chain.new) ≡ ones_from i.now cfg.now (registers_of (slices_of chain.old)) from }
    ensures rest { KeepsRest (slices_of chain.old) (slices_of chain.new) }
    ensures columns { chain.new.columns ≡ chain.old.columns }
    ensures counts { chain.new.counts ≡ chain.old.counts }
{
    let size = element_size(cfg);
    let ones = all_ones(size);
    for e in from..group_elements(i, cfg) {
        set_element(chain, i.vd, size, e, ones);
    }
}

// Whether the elements of the tail become all ones.
fn fills_tail(cfg: &Cfg) -> bool
    ensures { result ≡ steps.fills_tail cfg.now }
{
    makes_ones(cfg) && cfg.vstart < cfg.vl && cfg.vtype.vta
}

// The tail, from an element on, becomes what the configuration makes of it.
pub(crate) fn write_tail(i: &VInstr, cfg: &Cfg, chain: &mut Chain, from: u32)
    requires fits { Fits i.now cfg.now }
    requires columns { cfg.now.vlen ≡ 32 * chain.old.columns }
    ensures vectors { registers_of (slices_of chain.new) ≡ tail_written i.now cfg.now (registers_of (slices_of chain.old)) from }
    ensures rest { KeepsRest (slices_of chain.old) (slices_of chain.new) }
    ensures columns { chain.new.columns ≡ chain.old.columns }
    ensures counts { chain.new.counts ≡ chain.old.counts }
{
    if fills_tail(cfg) {
        fill_from(i, cfg, chain, from);
    }
}
