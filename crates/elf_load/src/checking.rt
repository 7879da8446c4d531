// Whether an image has a fault, and what is to be laid out of it where it has none.
ghost use Rattle.std.specs.Prelude.{◌≡◌, Some, None, IfOk, IfErr, OnOk};
ghost use Rattle.elf_load.specs.Headers.{segments as image_segments};
ghost use Rattle.elf_load.specs.Layout.{heap_span};
ghost use Rattle.elf_load.specs.Faults.{fault};

use crate::faults::LoadFault;
use crate::header_faults::header_fault;
use crate::headers::{HEADER_LIMIT, Header, headers_of, segments_of};
use crate::layout::{heap_of, spans_of};
use crate::layout_faults::layout_fault;
use crate::segment_faults::segment_fault;
use arrayvec::ArrayVec;
use guest_mem::Span;

/// What is to be laid out of an image: its segments, and the heap after them.
#[derive(Drop)]
pub struct Plan {
    pub segments: ArrayVec<Header, HEADER_LIMIT>,
    pub heap: Span,
}

/// The plan of an image without a fault, or its first fault. No memory is taken.
#[tactic(auto, using(crate::proofs::FaultOrder::fault_cases), unfolding(crate::specs::Headers::segments, crate::specs::Layout::spans, crate::specs::Layout::heap_start))]
pub fn check(image: &[u8]) -> Result<Plan, LoadFault>
    ensures sound { OnOk result (fault image.now ≡ None) }
    ensures segments { IfOk result (λ plan. plan.segments.items ≡ image_segments image.now) }
    ensures heap { IfOk result (λ plan. plan.heap ≡ heap_span image.now) }
    ensures refused { IfErr result (λ f. fault image.now ≡ Some f) }
{
    if let Some(found) = header_fault(image) {
        return Err(found);
    }
    let headers = headers_of(image);
    let segments = segments_of(&headers);
    if let Some(found) = segment_fault(image, &headers, &segments) {
        return Err(found);
    }
    let heap = heap_of(&segments);
    if let Some(found) = layout_fault(image, &segments, &spans_of(&segments, heap)) {
        return Err(found);
    }
    Ok(Plan { segments, heap })
}
