// Stores.
ghost use Rattle.std.specs.Prelude.{◌≡◌, ◌+◌, ◌-◌, ◌*◌, ◌/◌, ◌%◌, ◌<◌, ◌≤◌, ℕ, true, None, Some, IfSome, OnOk, IfErr, option_map};
ghost use Rattle.guest_mem.specs.Pages.{written};
ghost use Rattle.rvv_meaning.specs.LoadsAndStores.{stores, bad, byte_stored, bytes_of, element_size as size_of_element, stop as first_stop, pages_stored};
ghost use Rattle.vec_mem.specs.Steps.{Fits, bad_if_moved, element_stored};
ghost use Rattle.rvv_meaning.specs.Scalar.Accesses.{to_write};
ghost use Rattle.rvv_meaning.specs.Scalar.{store_fault};
ghost use Rattle.vec_mem.specs.Runs.{runs};
ghost use Rattle.vec_mem.specs.Views.{vectors_of};

use crate::loads::{Stop, VecFault, end};
use crate::places::{address, field_size, is_unmasked, per_field};
use crate::runs::{RUN_VLEN, is_open_run, store_span};
use bitflags::Flags;
use cam_chain::Chain;
use guest_mem::{Mem, Perms};
use register_elements::element;
use rvv_meaning::Access;
use vtype_cfg::Cfg;

// The cause of the trap of a store.
const STORE_FAULT: u8 = 7;

// Byte `k` of element `e` with all its fields, in the order of memory.
fn byte_at(access: &Access, cfg: &Cfg, chain: &Chain, e: u32, k: u32) -> u8
    requires fits { Fits cfg.now access.now }
    requires columns { cfg.now.vlen ≡ 32 * chain.now.columns }
    requires element { e < access.now.len }
    requires place { k < size_of_element access.now }
    ensures { result ≡ byte_stored cfg.now access.now (vectors_of chain.now) e k }
{
    let size = field_size(access);
    let per = per_field(access, cfg);
    let place = (k / size * per + e) * size + k % size;
    element(chain, access.register, 1, place) as u8
}

// Writes the bytes of an element from an address on.
fn store_bytes(access: &Access, cfg: &Cfg, chain: &Chain, e: u32, address: u32, mem: &mut Mem)
    requires fits { Fits cfg.now access.now }
    requires columns { cfg.now.vlen ≡ 32 * chain.now.columns }
    requires element { e < access.now.len }
    ensures { mem.new ≡ record mem.old { pages = written mem.old.pages address (bytes_of cfg.now access.now (vectors_of chain.now) e) } }
{
    let len = u32::from(access.fields) * field_size(access);
    for k in 0..len {
        let byte = byte_at(access, cfg, chain, e, k);
        mem.copy_in(address.wrapping_add(k), &[byte]);
    }
}

// Stores an element, where the mask leaves it in. Where it cannot be stored whole it gives the first bad address, and
// changes nothing.
fn store_element(
    access: &Access,
    cfg: &Cfg,
    base: u32,
    e: u32,
    chain: &Chain,
    mem: &mut Mem,
) -> Option<u32>
    requires fits { Fits cfg.now access.now }
    requires columns { cfg.now.vlen ≡ 32 * chain.now.columns }
    requires element { e < access.now.len }
    ensures bad { result ≡ bad_if_moved cfg.now access.now base (vectors_of chain.now) to_write mem.old.pages e }
    ensures kept { IfSome result (λ a. mem.new ≡ mem.old) }
    ensures moved { result ≡ None → mem.new ≡ record mem.old { pages = element_stored cfg.now access.now base (vectors_of chain.now) mem.old.pages e } }
{
    if is_unmasked(access, chain, e) {
        let address = address(access, cfg, base, chain, e);
        if let Err(fault) = mem.check(
            address,
            u32::from(access.fields) * field_size(access),
            Perms::WRITE,
        ) {
            return Some(fault.address);
        }
        store_bytes(access, cfg, chain, e, address, mem);
        return None;
    }
    None
}

// Stores the elements, one after the other, up to one that cannot be stored whole.
fn store_elements(
    access: &Access,
    cfg: &Cfg,
    base: u32,
    chain: &Chain,
    mem: &mut Mem,
) -> Option<Stop>
    requires fits { Fits cfg.now access.now }
    requires columns { cfg.now.vlen ≡ 32 * chain.now.columns }
    ensures stop { option_map (λ s. s.element) result ≡ first_stop cfg.now access.now base (vectors_of chain.now) to_write mem.old.pages }
    ensures bad { IfSome result (λ s. bad cfg.now access.now base (vectors_of chain.now) to_write mem.old.pages s.element ≡ Some s.address) }
    ensures pages { mem.new ≡ record mem.old { pages = pages_stored cfg.now access.now base (vectors_of chain.now) mem.old.pages } }
{
    for e in cfg.vstart..access.len {
        if let Some(address) = store_element(access, cfg, base, e, chain, mem) {
            return Some(Stop {
                element: e,
                address,
            });
        }
    }
    None
}

// Stores the elements of a run, whose bytes may all be written.
fn store_run(access: &Access, cfg: &Cfg, base: u32, chain: &Chain, mem: &mut Mem)
    requires fits { Fits cfg.now access.now }
    requires columns { cfg.now.vlen ≡ 32 * chain.now.columns }
    requires run { runs cfg.now access.now base to_write mem.old.pages ≡ true }
    ensures stop { first_stop cfg.now access.now base (vectors_of chain.now) to_write mem.old.pages ≡ None }
    ensures pages { mem.new ≡ record mem.old { pages = pages_stored cfg.now access.now base (vectors_of chain.now) mem.old.pages } }
{
    let size = field_size(access);
    store_span(
        chain,
        mem,
        access.register,
        cfg.vstart * size,
        access.len * size,
        base,
    );
}

// Stores the elements up to one that cannot be stored whole: those of a run as bytes, and others one after the other.
fn store_all(access: &Access, cfg: &Cfg, base: u32, chain: &Chain, mem: &mut Mem) -> Option<Stop>
    requires fits { Fits cfg.now access.now }
    requires columns { cfg.now.vlen ≡ 32 * chain.now.columns }
    ensures stop { option_map (λ s. s.element) result ≡ first_stop cfg.now access.now base (vectors_of chain.now) to_write mem.old.pages }
    ensures bad { IfSome result (λ s. bad cfg.now access.now base (vectors_of chain.now) to_write mem.old.pages s.element ≡ Some s.address) }
    ensures pages { mem.new ≡ record mem.old { pages = pages_stored cfg.now access.now base (vectors_of chain.now) mem.old.pages } }
{
    if cfg.vlen >= RUN_VLEN && is_open_run(access, cfg, base, mem, Perms::WRITE) {
        store_run(access, cfg, base, chain, mem);
        return None;
    }
    store_elements(access, cfg, base, chain, mem)
}

// Stores a vector. At a fault the elements below that of the fault are stored, and `vstart` is that element.
pub(crate) fn store_access(
    access: &Access,
    cfg: &mut Cfg,
    base: u32,
    chain: &Chain,
    mem: &mut Mem,
) -> Result<(), VecFault>
    requires fits { Fits cfg.old access.now }
    requires columns { cfg.old.vlen ≡ 32 * chain.now.columns }
    ensures cfg { cfg.new ≡ (stores cfg.old access.now base (vectors_of chain.now) mem.old.pages).cfg }
    ensures pages { mem.new ≡ record mem.old { pages = (stores cfg.old access.now base (vectors_of chain.now) mem.old.pages).pages } }
    ensures ok { OnOk result ((stores cfg.old access.now base (vectors_of chain.now) mem.old.pages).fault ≡ None) }
    ensures fault { IfErr result (λ f. (stores cfg.old access.now base (vectors_of chain.now) mem.old.pages).fault ≡ Some (f.element, f.address)) }
    ensures cause { IfErr result (λ f. f.cause ≡ store_fault) }
{
    let stop = store_all(access, cfg, base, chain, mem);
    end(access, cfg, STORE_FAULT, stop)
}
