// Loads.
ghost use Rattle.std.specs.Prelude.{◌≡◌, ◌+◌, ◌-◌, ◌*◌, ◌<◌, true, None, Some, IfSome, OnOk, IfErr, option_map, Option, ℕ};
ghost use Rattle.cam_chain.specs.ChainValue.{slices_of};
ghost use Rattle.rvv_meaning.specs.LoadsAndStores.{loads, bad, stop as first_stop, trapped, cfg_after, registers_loaded, per_field as elements_per_field};
ghost use Rattle.vec_mem.specs.Steps.{tail_filled, fills_tail as tail_is_filled, Fits, FitsLoad};
ghost use Rattle.rvv_meaning.specs.Scalar.Accesses.{to_read};
ghost use Rattle.rvv_meaning.specs.Elementwise.{is_ones};
ghost use Rattle.rvv_meaning.specs.Scalar.{load_fault};
ghost use Rattle.vec_mem.specs.Runs.{runs};
ghost use Rattle.vec_mem.specs.Views.{vectors_of};
ghost use Rattle.cam_chain.specs.Views.{KeepsRest};

use crate::fields::{fill_fields, load_element};
use crate::places::{field_size, per_field};
use crate::runs::{RUN_VLEN, is_open_run, load_span};
use bitflags::Flags;
use cam_chain::Chain;
use guest_mem::{Mem, Perms};
use rvv_meaning::{Access, makes_ones};
use vtype_cfg::Cfg;

/// A load or a store stopped at an element: the cause of the trap, the first bad address, and the element.
#[derive(Clone, Copy, PartialEq, Eq, Debug)]
pub struct VecFault {
    pub cause: u8,
    pub address: u32,
    pub element: u32,
}

// The element that an access stops at, and its first bad address.
#[derive(Clone, Copy)]
pub(crate) struct Stop {
    pub(crate) element: u32,
    pub(crate) address: u32,
}

// The cause of the trap of a load.
const LOAD_FAULT: u8 = 5;

// The elements after the last one become all ones.
fn fill_tail(access: &Access, cfg: &Cfg, chain: &mut Chain)
    requires fits { Fits cfg.now access.now }
    requires columns { cfg.now.vlen ≡ 32 * chain.old.columns }
    ensures vectors { vectors_of chain.new ≡ tail_filled cfg.now access.now (vectors_of chain.old) access.now.len (elements_per_field cfg.now access.now - access.now.len) }
    ensures rest { KeepsRest (slices_of chain.old) (slices_of chain.new) }
    ensures columns { chain.new.columns ≡ chain.old.columns }
    ensures counts { chain.new.counts ≡ chain.old.counts }
{
    let size = field_size(access);
    let per = per_field(access, cfg);
    for e in access.len..per {
        fill_fields(chain, access.register, access.fields, size, per, e);
    }
}

// Whether the elements after the last one become all ones.
fn fills_tail(access: &Access, cfg: &Cfg) -> bool
    ensures { result ≡ tail_is_filled cfg.now access.now }
{
    makes_ones(cfg) && cfg.vstart < access.len && (access.agnostic_tail || cfg.vtype.vta)
}

// Loads the elements, one after the other, up to one that cannot be loaded whole.
fn load_elements(
    access: &Access,
    cfg: &Cfg,
    base: u32,
    chain: &mut Chain,
    mem: &Mem,
) -> Option<Stop>
    requires fits { Fits cfg.now access.now }
    requires load { FitsLoad cfg.now access.now }
    requires columns { cfg.now.vlen ≡ 32 * chain.old.columns }
    ensures stop { option_map (λ s. s.element) result ≡ first_stop cfg.now access.now base (vectors_of chain.old) to_read mem.now.pages }
    ensures bad { IfSome result (λ s. bad cfg.now access.now base (vectors_of chain.old) to_read mem.now.pages s.element ≡ Some s.address) }
    ensures vectors { vectors_of chain.new ≡ registers_loaded cfg.now access.now base (vectors_of chain.old) mem.now.pages (λ s. is_ones cfg.now.policy) }
    ensures rest { KeepsRest (slices_of chain.old) (slices_of chain.new) }
    ensures columns { chain.new.columns ≡ chain.old.columns }
    ensures counts { chain.new.counts ≡ chain.old.counts }
{
    for e in cfg.vstart..access.len {
        if let Some(address) = load_element(access, cfg, base, e, chain, mem) {
            return Some(Stop {
                element: e,
                address,
            });
        }
    }
    if fills_tail(access, cfg) {
        fill_tail(access, cfg, chain);
        return None;
    }
    None
}

// Loads the elements of a run, whose bytes may all be read.
fn load_run(access: &Access, cfg: &Cfg, base: u32, chain: &mut Chain, mem: &Mem)
    requires fits { Fits cfg.now access.now }
    requires columns { cfg.now.vlen ≡ 32 * chain.old.columns }
    requires run { runs cfg.now access.now base to_read mem.now.pages ≡ true }
    ensures stop { first_stop cfg.now access.now base (vectors_of chain.old) to_read mem.now.pages ≡ None }
    ensures vectors { vectors_of chain.new ≡ registers_loaded cfg.now access.now base (vectors_of chain.old) mem.now.pages (λ s. is_ones cfg.now.policy) }
    ensures rest { KeepsRest (slices_of chain.old) (slices_of chain.new) }
    ensures columns { chain.new.columns ≡ chain.old.columns }
    ensures counts { chain.new.counts ≡ chain.old.counts }
{
    let size = field_size(access);
    load_span(
        chain,
        mem,
        access.register,
        cfg.vstart * size,
        access.len * size,
        base,
    );
    if fills_tail(access, cfg) {
        fill_tail(access, cfg, chain);
    }
}

// Loads the elements up to one that cannot be loaded whole: those of a run as bytes, and others one after the other.
fn load_all(access: &Access, cfg: &Cfg, base: u32, chain: &mut Chain, mem: &Mem) -> Option<Stop>
    requires fits { Fits cfg.now access.now }
    requires load { FitsLoad cfg.now access.now }
    requires columns { cfg.now.vlen ≡ 32 * chain.old.columns }
    ensures stop { option_map (λ s. s.element) result ≡ first_stop cfg.now access.now base (vectors_of chain.old) to_read mem.now.pages }
    ensures bad { IfSome result (λ s. bad cfg.now access.now base (vectors_of chain.old) to_read mem.now.pages s.element ≡ Some s.address) }
    ensures vectors { vectors_of chain.new ≡ registers_loaded cfg.now access.now base (vectors_of chain.old) mem.now.pages (λ s. is_ones cfg.now.policy) }
    ensures rest { KeepsRest (slices_of chain.old) (slices_of chain.new) }
    ensures columns { chain.new.columns ≡ chain.old.columns }
    ensures counts { chain.new.counts ≡ chain.old.counts }
{
    if cfg.vlen >= RUN_VLEN && is_open_run(access, cfg, base, mem, Perms::READ) {
        load_run(access, cfg, base, chain, mem);
        return None;
    }
    load_elements(access, cfg, base, chain, mem)
}

// Ends an access: a stop traps, but that of one that trims the vector length, above element 0.
#[tactic(auto, unfolding(rvv_meaning::specs::LoadsAndStores::cfg_after))]
pub(crate) fn end(
    access: &Access,
    cfg: &mut Cfg,
    cause: u8,
    stop: Option<Stop>,
) -> Result<(), VecFault>
    ensures cfg { cfg.new ≡ cfg_after cfg.old access.now (option_map (λ s. s.element) stop) }
    ensures ok { OnOk result (trapped access.now (option_map (λ s. s.element) stop) ≡ None) }
    ensures element { IfErr result (λ f. trapped access.now (option_map (λ s. s.element) stop) ≡ Some f.element) }
    ensures address { IfErr result (λ f. option_map (λ s. s.address) stop ≡ Some f.address) }
    ensures cause { IfErr result (λ f. f.cause ≡ cause) }
{
    cfg.vstart = 0;
    match stop {
        None => Ok(()),
        Some(stop) => {
            if access.trims && stop.element > 0 {
                cfg.vl = stop.element;
                return Ok(());
            }
            cfg.vstart = stop.element;
            Err(VecFault {
                cause,
                address: stop.address,
                element: stop.element,
            })
        }
    }
}

// Loads a vector. At a fault the elements below that of the fault are loaded, and `vstart` is that element.
pub(crate) fn load_access(
    access: &Access,
    cfg: &mut Cfg,
    base: u32,
    chain: &mut Chain,
    mem: &Mem,
) -> Result<(), VecFault>
    requires fits { Fits cfg.old access.now }
    requires load { FitsLoad cfg.old access.now }
    requires columns { cfg.old.vlen ≡ 32 * chain.old.columns }
    ensures cfg { cfg.new ≡ (loads cfg.old access.now base (vectors_of chain.old) mem.now.pages).cfg }
    ensures vectors { vectors_of chain.new ≡ (loads cfg.old access.now base (vectors_of chain.old) mem.now.pages).vectors (λ s. is_ones cfg.old.policy) }
    ensures ok { OnOk result ((loads cfg.old access.now base (vectors_of chain.old) mem.now.pages).fault ≡ None) }
    ensures fault { IfErr result (λ f. (loads cfg.old access.now base (vectors_of chain.old) mem.now.pages).fault ≡ Some (f.element, f.address)) }
    ensures cause { IfErr result (λ f. f.cause ≡ load_fault) }
    ensures rest { KeepsRest (slices_of chain.old) (slices_of chain.new) }
    ensures columns { chain.new.columns ≡ chain.old.columns }
    ensures counts { chain.new.counts ≡ chain.old.counts }
{
    let stop = load_all(access, cfg, base, chain, mem);
    end(access, cfg, LOAD_FAULT, stop)
}
