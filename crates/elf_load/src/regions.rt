// The regions of an image, with their bytes.
ghost use Rattle.std.specs.Prelude.{◌≡◌, ◌≤◌, ◌<◌, ◌+◌, IfOk, length, false};
ghost use Rattle.elf_load.specs.Headers.{segments as image_segments};
ghost use Rattle.elf_load.specs.Layout.{heap_span, region_of, segment_bytes, segment_region, regions as image_regions};
ghost use Rattle.elf_load.specs.Faults.{any_past_file};

use crate::headers::Header;
use crate::layout::{segment_span_of, stack};
use guest_mem::{ByteList, Region, Span};
use std::alloc::{AllocError, Global};

// The bytes that the file holds of a segment. A segment without bytes may name a place after the end of the file.
fn bytes_of<'a>(image: &'a [u8], header: &Header) -> &'a [u8]
    requires { 0 < header.now.filesz → header.now.offset + header.now.filesz ≤ length image.now }
    ensures { result.now ≡ segment_bytes image.now header.now }
{
    if header.filesz == 0 {
        return &image[..0];
    }
    let start = header.offset as usize;
    &image[start..start + header.filesz as usize]
}

// The region of a range, with the bytes from its start on.
fn region(alloc: Global, span: Span, bytes: &[u8]) -> Result<Region, AllocError>
    ensures { IfOk result (λ region. region ≡ region_of span bytes.now) }
{
    Ok(Region {
        start: span.start,
        len: span.len,
        perms: span.perms,
        bytes: ByteList::new(Vec::from_slice(alloc, bytes)?),
    })
}

// The region of a segment.
fn region_of_segment(alloc: Global, image: &[u8], header: &Header) -> Result<Region, AllocError>
    requires { 0 < header.now.filesz → header.now.offset + header.now.filesz ≤ length image.now }
    ensures { IfOk result (λ region. region ≡ segment_region image.now header.now) }
{
    region(alloc, segment_span_of(header), bytes_of(image, header))
}

/// The regions of an image: those of its segments in their order, the stack and the heap.
#[tactic(auto, unfolding(crate::specs::Layout::regions))]
pub fn regions_of(
    alloc: Global,
    image: &[u8],
    segments: &[Header],
    heap: Span,
) -> Result<Vec<Region>, AllocError>
    requires segments { segments.now ≡ image_segments image.now }
    requires heap { heap ≡ heap_span image.now }
    requires in_file { any_past_file (length image.now) segments.now ≡ false }
    ensures { IfOk result (λ regions. regions.items ≡ image_regions image.now) }
{
    let mut regions = Vec::new(alloc);
    for h in segments {
        regions.push(region_of_segment(alloc, image, h)?)?;
    }
    regions.push(region(alloc, stack(), &[])?)?;
    regions.push(region(alloc, heap, &[])?)?;
    Ok(regions)
}
