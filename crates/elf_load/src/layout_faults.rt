// The faults of what is laid out.
ghost use Rattle.std.specs.Prelude.{◌≡◌, None};
ghost use Rattle.elf_load.specs.Headers.{segments as image_segments};
ghost use Rattle.elf_load.specs.Layout.{spans as image_spans};
ghost use Rattle.elf_load.specs.Faults.{first_of, header_faults, segment_faults, layout_faults};

use crate::faults::LoadFault;
use crate::fields::{ENTRY_PLACE, u32_at};
use crate::headers::Header;
use crate::spans::{pages_met, perms_of_page};
use bitflags::Flags;
use guest_mem::{PAGE_SIZE, Perms, Span};

// The most pages, which are 64 MiB.
const PAGE_LIMIT: u32 = 16_384;

// The bytes of an instruction.
const INSTRUCTION_SIZE: u32 = 4;

/// The first fault of the layout of an image, where its header and its segments have none.
#[tactic(auto, using(crate::proofs::FaultOrder::span_facts))]
pub fn layout_fault(image: &[u8], segments: &[Header], spans: &[Span]) -> Option<LoadFault>
    requires header { first_of header_faults image.now ≡ None }
    requires sound { first_of segment_faults image.now ≡ None }
    requires segments { segments.now ≡ image_segments image.now }
    requires spans { spans.now ≡ image_spans image.now }
    ensures { result ≡ first_of layout_faults image.now }
{
    if !segments.is_empty() && pages_met(spans) > PAGE_LIMIT {
        return Some(LoadFault::TooLarge);
    }
    if segments.is_empty() {
        return Some(LoadFault::NoSegments);
    }
    let entry = u32_at(image, ENTRY_PLACE);
    if entry % INSTRUCTION_SIZE != 0
        || !perms_of_page(spans, entry / PAGE_SIZE).contains(Perms::EXECUTE)
    {
        return Some(LoadFault::BadEntry);
    }
    None
}
