// One element at a time, with all its fields.
ghost use Rattle.std.specs.Prelude.{◌≡◌, ◌+◌, ◌-◌, ◌*◌, ◌/◌, ◌<◌, ◌≤◌, ◌^◌, ◌%◌, ℕ, None, Some, IfSome};
ghost use Rattle.cam_chain.specs.ChainValue.{slices_of};
ghost use Rattle.guest_mem.specs.Pages.{first_bad, loaded};
ghost use Rattle.vtype_cfg.specs.declared.configuration.Cfg.{Cfg};
ghost use Rattle.vec_mem.specs.Steps.{fields_written, values_at, ones_of, Fits, OffsetFits, element_loaded, bad_if_moved};
ghost use Rattle.rvv_meaning.specs.LoadsAndStores.{field_size as size_of_field, per_field as elements_per_field, is_unmasked as unmasked, address as place_of};
ghost use Rattle.rvv_meaning.specs.Scalar.Accesses.{to_read};
ghost use Rattle.vec_mem.specs.Views.{vectors_of};
ghost use Rattle.cam_chain.specs.Views.{KeepsRest};
ghost use Rattle.element_ops.specs.Elements.{IsSize};

use crate::places::{address, field_size, is_unmasked, per_field};
use bitflags::Flags;
use cam_chain::Chain;
use guest_mem::{Mem, Perms};
use register_elements::{all_ones, set_element};
use rvv_meaning::{Access, fills_masked};
use vtype_cfg::Cfg;

// A number of a range that may be read.
fn number_at(mem: &Mem, address: u32, size: u32) -> u32
    requires few { size ≤ 4 }
    requires may { first_bad mem.now.pages to_read address size ≡ None }
    ensures { result ≡ loaded mem.now.pages address size }
{
    match mem.load(address, size) {
        Ok(number) => number,
        Err(_) => 0,
    }
}

// Element `e` of each field gets its number in memory. There are `per` elements in a field.
fn load_fields(
    chain: &mut Chain,
    mem: &Mem,
    first: u8,
    fields: u8,
    size: u32,
    per: u32,
    e: u32,
    address: u32,
)
    requires size { IsSize size }
    requires few { fields ≤ 8 }
    requires place { e < per }
    requires register { first < 32 }
    requires small { fields * per < 2 ^ 20 }
    requires room { fields * per * size ≤ (32 - first) * (4 * chain.old.columns) }
    requires may { first_bad mem.now.pages to_read address (fields * size) ≡ None }
    ensures vectors { vectors_of chain.new ≡ fields_written (4 * chain.old.columns) (vectors_of chain.old) first (8 * size) per e (values_at mem.now.pages size address) fields }
    ensures rest { KeepsRest (slices_of chain.old) (slices_of chain.new) }
    ensures columns { chain.new.columns ≡ chain.old.columns }
    ensures counts { chain.new.counts ≡ chain.old.counts }
{
    for f in 0..u32::from(fields) {
        let number = number_at(mem, address.wrapping_add(f * size), size);
        set_element(chain, first, size, f * per + e, number);
    }
}

// Element `e` of each field becomes all ones.
pub(crate) fn fill_fields(chain: &mut Chain, first: u8, fields: u8, size: u32, per: u32, e: u32)
    requires size { IsSize size }
    requires few { fields ≤ 8 }
    requires place { e < per }
    requires register { first < 32 }
    requires small { fields * per < 2 ^ 20 }
    requires room { fields * per * size ≤ (32 - first) * (4 * chain.old.columns) }
    ensures vectors { vectors_of chain.new ≡ fields_written (4 * chain.old.columns) (vectors_of chain.old) first (8 * size) per e (ones_of (8 * size)) fields }
    ensures rest { KeepsRest (slices_of chain.old) (slices_of chain.new) }
    ensures columns { chain.new.columns ≡ chain.old.columns }
    ensures counts { chain.new.counts ≡ chain.old.counts }
{
    let ones = all_ones(size);
    for f in 0..u32::from(fields) {
        set_element(chain, first, size, f * per + e, ones);
    }
}

// Loads an element, or leaves it as the mask says. Where it cannot be loaded whole it gives the first bad address, and
// changes nothing.
pub(crate) fn load_element(
    access: &Access,
    cfg: &Cfg,
    base: u32,
    e: u32,
    chain: &mut Chain,
    mem: &Mem,
) -> Option<u32>
    requires fits { Fits cfg.now access.now }
    requires columns { cfg.now.vlen ≡ 32 * chain.old.columns }
    requires element { e < access.now.len }
    ensures bad { result ≡ bad_if_moved cfg.now access.now base (vectors_of chain.old) to_read mem.now.pages e }
    ensures moved { result ≡ None → vectors_of chain.new ≡ element_loaded cfg.now access.now base mem.now.pages (vectors_of chain.old) e }
    ensures kept { IfSome result (λ a. vectors_of chain.new ≡ vectors_of chain.old) }
    ensures rest { KeepsRest (slices_of chain.old) (slices_of chain.new) }
    ensures columns { chain.new.columns ≡ chain.old.columns }
    ensures counts { chain.new.counts ≡ chain.old.counts }
{
    let size = field_size(access);
    let per = per_field(access, cfg);
    if is_unmasked(access, chain, e) {
        let address = address(access, cfg, base, chain, e);
        if let Err(fault) = mem.check(address, u32::from(access.fields) * size, Perms::READ) {
            return Some(fault.address);
        }
        load_fields(
            chain,
            mem,
            access.register,
            access.fields,
            size,
            per,
            e,
            address,
        );
        return None;
    }
    if fills_masked(cfg) {
        fill_fields(chain, access.register, access.fields, size, per, e);
        return None;
    }
    None
}
