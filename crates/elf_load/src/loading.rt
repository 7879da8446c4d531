// Loading an image.
ghost use Rattle.std.specs.Prelude.{◌≡◌, ◌≢◌, Some, None, IfOk, IfErr, OnOk, Err};
ghost use Rattle.elf_load.specs.Fields.{entry};
ghost use Rattle.elf_load.specs.Headers.{segments as image_segments};
ghost use Rattle.elf_load.specs.Layout.{heap_span, regions, heap_start, heap_end};
ghost use Rattle.elf_load.specs.Faults.{fault};

use crate::checking::check;
use crate::faults::LoadFault;
use crate::fields::{ENTRY_PLACE, u32_at};
use crate::headers::Header;
use crate::loaded::Loaded;
use crate::region_list::RegionList;
use crate::regions::regions_of;
use guest_mem::Span;
use std::alloc::{AllocError, Global};

// Lays out an image that has no fault.
fn lay_out(
    alloc: Global,
    image: &[u8],
    segments: &[Header],
    heap: Span,
) -> Result<Loaded, AllocError>
    requires sound { fault image.now ≡ None }
    requires segments { segments.now ≡ image_segments image.now }
    requires heap { heap ≡ heap_span image.now }
    ensures entry { IfOk result (λ loaded. loaded.entry_pc ≡ entry image.now) }
    ensures regions { IfOk result (λ loaded. loaded.regions ≡ regions image.now) }
    ensures heap { IfOk result (λ loaded. loaded.heap ≡ heap_start image.now) }
    ensures heap_end { IfOk result (λ loaded. loaded.heap_end ≡ heap_end image.now) }
{
    let regions = regions_of(alloc, image, segments, heap)?;
    Ok(Loaded {
        entry_pc: u32_at(image, ENTRY_PLACE),
        regions: RegionList::new(regions),
        heap: heap.start,
        heap_end: heap.start + heap.len,
    })
}

/// Loads an image, or refuses it by its first fault. Nothing is kept of an image that is refused; memory is taken, and
/// `NoMemory` answered, only where the image has no fault.
pub fn load(alloc: Global, image: &[u8]) -> Result<Loaded, LoadFault>
    ensures sound { OnOk result (fault image.now ≡ None) }
    ensures entry { IfOk result (λ loaded. loaded.entry_pc ≡ entry image.now) }
    ensures regions { IfOk result (λ loaded. loaded.regions ≡ regions image.now) }
    ensures heap { IfOk result (λ loaded. loaded.heap ≡ heap_start image.now) }
    ensures heap_end { IfOk result (λ loaded. loaded.heap_end ≡ heap_end image.now) }
    ensures refused { IfErr result (λ f. f ≢ LoadFault.NoMemory → fault image.now ≡ Some f) }
    ensures memory { result ≡ Err LoadFault.NoMemory → fault image.now ≡ None }
{
    let plan = check(image)?;
    lay_out(alloc, image, &plan.segments, plan.heap).map_err(|_| LoadFault::NoMemory)
}
