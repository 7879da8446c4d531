// Elements of one field that stand side by side in memory: they are moved as bytes.
ghost use Rattle.std.specs.Prelude.{◌≡◌, ℕ, ◌+◌, ◌-◌, ◌*◌, ◌<◌, ◌≤◌, ◌^◌, None, length, slice_index};
ghost use Rattle.bit_laws.specs.Numbers.{low};
ghost use Rattle.bit_laws.specs.Lists.{tabulate};
ghost use Rattle.cam_chain.specs.ChainValue.{slices_of};
ghost use Rattle.cam_chain.specs.Views.{KeepsRest};
ghost use Rattle.element_ops.specs.Elements.{byte_at as register_byte_at};
ghost use Rattle.guest_mem.specs.Pages.{first_bad, written};
ghost use Rattle.guest_mem.specs.Ranges.{range_bytes};
ghost use Rattle.rvv_meaning.specs.Scalar.Accesses.{to_read};
ghost use Rattle.vec_mem.specs.Runs.{byte_after, is_run as run_of, is_step_of, span, runs, with_run};
ghost use Rattle.vec_mem.specs.Steps.{Fits};
ghost use Rattle.vec_mem.specs.Views.{vectors_of};

use crate::places::field_size;
use bitflags::Flags;
use cam_chain::Chain;
use guest_mem::{Mem, PAGE_SIZE, Perms};
use register_bytes::{MAX_BYTES, read_register, write_register};
use rvv_meaning::{Access, Offset};
use vtype_cfg::Cfg;

// Registers of fewer bits are moved faster element by element.
pub(crate) const RUN_VLEN: u32 = 512;

// Each element stands right after the one before it.
fn is_step(offset: Offset, size: u32) -> bool
    ensures { result ≡ is_step_of offset size }
{
    match offset {
        Offset::Step(step) => step == size,
        Offset::Index(_, _) => false,
    }
}

// The elements have one field, stand side by side, and are all left in.
fn is_run(access: &Access) -> bool
    ensures { result ≡ run_of access.now }
{
    access.fields == 1 && !access.masked && is_step(access.offset, field_size(access))
}

// They are a run from vstart on, and all bytes may be reached as it is needed.
pub(crate) fn is_open_run(access: &Access, cfg: &Cfg, base: u32, mem: &Mem, need: Perms) -> bool
    requires fits { Fits cfg.now access.now }
    ensures { result ≡ runs cfg.now access.now base need.0 mem.now.pages }
{
    if !is_run(access) || access.len < cfg.vstart {
        return false;
    }
    let size = field_size(access);
    let from = cfg.vstart * size;
    let to = access.len * size;
    mem.check(base.wrapping_add(from), to - from, need).is_ok()
}

// Copies bytes of memory that may be read.
fn copy_out(mem: &Mem, address: u32, into: &mut [u8])
    requires few { length into.old ≤ 2 ^ 16 }
    requires may { first_bad mem.now.pages to_read address (length into.old) ≡ None }
    ensures bytes { into.new ≡ range_bytes mem.now.pages address (length into.old) }
    ensures small { (k : ℕ) → slice_index into.new k < 2 ^ 8 }
{
    let mut done = 0;
    while done < into.len() {
        let at = address.wrapping_add(done as u32);
        let room = (PAGE_SIZE - at % PAGE_SIZE) as usize;
        let count = room.min(into.len() - done);
        into[done..done + count].copy_from_slice(mem.bytes_in_page(at, count as u32));
        done += count;
    }
}

// Loads bytes of one register.
fn load_part(
    chain: &mut Chain,
    mem: &Mem,
    register: u8,
    low: u32,
    count: u32,
    address: u32,
    buffer: &mut [u8],
)
    requires register { register < 32 }
    requires all { length buffer.old ≡ 4 * chain.old.columns }
    requires few { length buffer.old ≤ 2 ^ 16 }
    requires inside { low + count ≤ 4 * chain.old.columns }
    requires may { first_bad mem.now.pages to_read address count ≡ None }
    ensures vectors { vectors_of chain.new
        ≡ with_run (4 * chain.old.columns) (vectors_of chain.old) register low (low + count) (λ p. byte_after mem.now.pages address (p - low)) }
    ensures bytes { (k : ℕ) → k < count → byte_after mem.now.pages address k < 2 ^ 8 }
    ensures rest { KeepsRest (slices_of chain.old) (slices_of chain.new) }
    ensures columns { chain.new.columns ≡ chain.old.columns }
    ensures counts { chain.new.counts ≡ chain.old.counts }
{
    read_register(chain, register, buffer);
    copy_out(
        mem,
        address,
        &mut buffer[low as usize..(low + count) as usize],
    );
    write_register(chain, register, buffer);
}

// Loads the bytes of the registers from `first` on, from place `from` on and below `to`. Place 0 stands at the base.
pub(crate) fn load_span(chain: &mut Chain, mem: &Mem, first: u8, from: u32, to: u32, base: u32)
    requires register { first < 32 }
    requires order { from ≤ to }
    requires room { to ≤ (32 - first) * (4 * chain.old.columns) }
    requires may { first_bad mem.now.pages to_read (low 32 (base + from)) (to - from) ≡ None }
    ensures vectors { vectors_of chain.new
        ≡ with_run (4 * chain.old.columns) (vectors_of chain.old) first from to (byte_after mem.now.pages base) }
    ensures bytes { (p : ℕ) → from ≤ p → p < to → byte_after mem.now.pages base p < 2 ^ 8 }
    ensures rest { KeepsRest (slices_of chain.old) (slices_of chain.new) }
    ensures columns { chain.new.columns ≡ chain.old.columns }
    ensures counts { chain.new.counts ≡ chain.old.counts }
{
    let size = 4 * chain.columns();
    let mut buffer = [0; MAX_BYTES];
    let mut at = from;
    while at < to {
        let count = (to - at).min(size - at % size);
        load_part(
            chain,
            mem,
            first + (at / size) as u8,
            at % size,
            count,
            base.wrapping_add(at),
            &mut buffer[..size as usize],
        );
        at += count;
    }
}

// Stores bytes of one register.
fn store_part(
    chain: &Chain,
    mem: &mut Mem,
    register: u8,
    low: u32,
    count: u32,
    address: u32,
    buffer: &mut [u8],
)
    requires register { register < 32 }
    requires all { length buffer.old ≡ 4 * chain.now.columns }
    requires few { length buffer.old ≤ 2 ^ 16 }
    requires inside { low + count ≤ 4 * chain.now.columns }
    ensures { mem.new ≡ record mem.old {
      pages = written mem.old.pages address
          (tabulate count (λ k. register_byte_at (vectors_of chain.now) register (low + k)));
    } }
{
    read_register(chain, register, buffer);
    mem.copy_in(address, &buffer[low as usize..(low + count) as usize]);
}

// Stores the bytes of the registers from `first` on, from place `from` on and below `to`. Place 0 stands at the base.
pub(crate) fn store_span(chain: &Chain, mem: &mut Mem, first: u8, from: u32, to: u32, base: u32)
    requires register { first < 32 }
    requires order { from ≤ to }
    requires room { to ≤ (32 - first) * (4 * chain.now.columns) }
    ensures { mem.new ≡ record mem.old {
      pages = written mem.old.pages (low 32 (base + from))
          (span (4 * chain.now.columns) (vectors_of chain.now) first from (to - from));
    } }
{
    let size = 4 * chain.columns();
    let mut buffer = [0; MAX_BYTES];
    let mut at = from;
    while at < to {
        let count = (to - at).min(size - at % size);
        store_part(
            chain,
            mem,
            first + (at / size) as u8,
            at % size,
            count,
            base.wrapping_add(at),
            &mut buffer[..size as usize],
        );
        at += count;
    }
}
