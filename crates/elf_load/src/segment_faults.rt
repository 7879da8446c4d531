// The faults of the program headers and of the segments.
ghost use Rattle.std.specs.Prelude.{◌≡◌};
ghost use Rattle.std.specs.List.{list_any};
ghost use Rattle.elf_load.specs.Headers.{headers as image_headers, segments as image_segments};
ghost use Rattle.elf_load.specs.Faults.{first_of, segment_faults, any_dynamic, any_above_memsz, any_past_file, any_wraps, any_overlap, any_over_stack, overlaps};

use crate::faults::LoadFault;
use crate::headers::{DYNAMIC, Header, INTERPRETER, LOAD};
use crate::layout::{STACK_END, STACK_START, TOP};

// A header asks for a dynamic linker.
fn has_dynamic(headers: &[Header]) -> bool
    ensures { result ≡ any_dynamic headers.now }
{
    headers
        .iter()
        .any(|h| h.kind == DYNAMIC || h.kind == INTERPRETER)
}

// The file holds more of a segment than memory does.
fn has_above_memsz(headers: &[Header]) -> bool
    ensures { result ≡ any_above_memsz headers.now }
{
    headers.iter().any(|h| h.kind == LOAD && h.memsz < h.filesz)
}

// A segment has bytes past the end of the file.
fn has_past_file(len: usize, segments: &[Header]) -> bool
    ensures { result ≡ any_past_file len segments.now }
{
    segments.iter().any(|h| h.filesz > 0 && u64::from(h.offset) + u64::from(h.filesz) > len as u64)
}

// A segment ends above the end of what segments may take.
fn has_wraps(segments: &[Header]) -> bool
    ensures { result ≡ any_wraps segments.now }
{
    segments.iter().any(|h| u64::from(h.vaddr) + u64::from(h.memsz) > u64::from(TOP))
}

// The two segments share a byte of memory.
fn overlap(a: &Header, b: &Header) -> bool
    ensures { result ≡ overlaps a.now b.now }
{
    u64::from(a.vaddr) < u64::from(b.vaddr) + u64::from(b.memsz)
        && u64::from(b.vaddr) < u64::from(a.vaddr) + u64::from(a.memsz)
}

// The segment shares a byte of memory with one of the others.
fn overlaps_any(h: &Header, others: &[Header]) -> bool
    ensures { result ≡ list_any (overlaps h.now) others.now }
{
    others.iter().any(|other| overlap(h, other))
}

// Two of the segments share a byte of memory.
#[tactic(auto, using(crate::proofs::HeaderLemmas::overlap_steps))]
fn has_overlap(segments: &[Header]) -> bool
    ensures { result ≡ any_overlap segments.now }
{
    for (k, h) in segments.iter().enumerate() {
        if overlaps_any(h, &segments[k + 1..]) {
            return true;
        }
    }
    false
}

// A segment has a byte of the stack.
fn has_over_stack(segments: &[Header]) -> bool
    ensures { result ≡ any_over_stack segments.now }
{
    segments.iter().any(|h| h.vaddr < STACK_END
        && u64::from(h.vaddr) + u64::from(h.memsz) > u64::from(STACK_START))
}

/// The first fault of the program headers and the segments of an image.
pub fn segment_fault(image: &[u8], headers: &[Header], segments: &[Header]) -> Option<LoadFault>
    requires headers { headers.now ≡ image_headers image.now }
    requires segments { segments.now ≡ image_segments image.now }
    ensures { result ≡ first_of segment_faults image.now }
{
    if has_dynamic(headers) {
        return Some(LoadFault::Dynamic);
    }
    if has_above_memsz(headers) {
        return Some(LoadFault::FileszAboveMemsz);
    }
    if has_past_file(image.len(), segments) {
        return Some(LoadFault::SegmentPastFile);
    }
    if has_wraps(segments) {
        return Some(LoadFault::SegmentWraps);
    }
    if has_overlap(segments) {
        return Some(LoadFault::Overlap);
    }
    if has_over_stack(segments) {
        return Some(LoadFault::OverStack);
    }
    None
}
