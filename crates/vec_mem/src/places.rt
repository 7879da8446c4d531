// Where the elements of an access stand, in memory and in the registers.
ghost use Rattle.std.specs.Prelude.{◌≡◌, ◌+◌, ◌*◌, ◌/◌, ◌<◌, ◌≤◌, ◌^◌, ℕ};
ghost use Rattle.vtype_cfg.specs.declared.configuration.Cfg.{Cfg};
ghost use Rattle.element_ops.specs.Elements.{IsSize};
ghost use Rattle.rvv_meaning.specs.LoadsAndStores.{field_size as size_of_field, per_field as elements_per_field, is_unmasked as unmasked, address as place_of};
ghost use Rattle.vec_mem.specs.Steps.{OffsetFits};
ghost use Rattle.vec_mem.specs.Views.{vectors_of};

use cam_chain::Chain;
use register_elements::{element, mask_bit};
use rvv_meaning::{Access, Offset};
use vtype_cfg::Cfg;

// The bytes of a field.
pub(crate) fn field_size(access: &Access) -> u32
    ensures { result ≡ size_of_field access.now }
{
    u32::from(access.width / 8)
}

// How many elements the registers of a field hold, of so many words each.
pub(crate) fn per_field(access: &Access, cfg: &Cfg) -> u32
    requires size { IsSize (size_of_field access.now) }
    requires short { cfg.now.vlen ≤ 2 ^ 16 }
    ensures { result ≡ elements_per_field cfg.now access.now }
{
    let _size = field_size(access);
    u32::from(access.registers) * (cfg.vlen / 8) / field_size(access)
}

// The mask leaves an element in.
pub(crate) fn is_unmasked(access: &Access, chain: &Chain, e: u32) -> bool
    requires { e < 32 * chain.now.columns }
    ensures { (cfg : Cfg) (base : ℕ) → result ≡ unmasked cfg access.now base (vectors_of chain.now) e }
{
    !access.masked || mask_bit(chain, e)
}

// Where an element stands in memory.
pub(crate) fn address(access: &Access, cfg: &Cfg, base: u32, chain: &Chain, e: u32) -> u32
    requires fits { OffsetFits access.now.offset cfg.now access.now }
    requires columns { cfg.now.vlen ≡ 32 * chain.now.columns }
    requires element { e < access.now.len }
    ensures { result ≡ place_of cfg.now access.now base (vectors_of chain.now) e }
{
    match access.offset {
        Offset::Step(step) => base.wrapping_add(e.wrapping_mul(step)),
        Offset::Index(register, width) => {
            base.wrapping_add(element(chain, register, u32::from(width / 8), e))
        }
    }
}
