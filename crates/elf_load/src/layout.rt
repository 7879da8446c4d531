// Where things lie in memory: the segments, the stack, and the heap after the segments.
ghost use Rattle.std.specs.Prelude.{◌≡◌, ◌≤◌, length, false};
ghost use Rattle.elf_load.specs.Layout.{read_write, highest_end, start_after, heap_at, segment_span, stack_span, mapped_spans};
ghost use Rattle.elf_load.specs.Faults.{any_wraps};

use crate::headers::{HEADER_LIMIT, Header};
use arrayvec::ArrayVec;
use bitflags::Flags;
use guest_mem::{PAGE_SIZE, Perms, Span};

/// The stack: its first address, and the first after it.
pub const STACK_START: u32 = 0x7ff0_0000;

pub const STACK_END: u32 = 0x8000_0000;

/// The end of what segments and heap may take.
pub const TOP: u32 = 0xffff_f000;

// The most that the heap takes: 16 MiB.
const HEAP_SIZE: u32 = 0x100_0000;

// The values of the permissions in a segment's flags.
const PERMISSION_VALUES: u32 = 8;

// The ranges of an image: its segments, the stack and the heap.
const SPAN_LIMIT: usize = HEADER_LIMIT + 2;

// The permissions to read and to write.
fn read_and_write() -> Perms
    ensures { result ≡ read_write }
{
    Perms::READ.union(Perms::WRITE)
}

// The end of the segment that ends highest.
#[tactic(auto, using(crate::proofs::LayoutLemmas::highest_end_steps))]
fn highest_end_of(segments: &[Header]) -> u64
    ensures { result ≡ highest_end segments.now }
{
    let mut end = 0u64;
    for h in segments {
        end = end.max(u64::from(h.vaddr) + u64::from(h.memsz));
    }
    end
}

/// The heap after segments that do not wrap.
#[tactic(auto, using(crate::proofs::LayoutLemmas::heap_steps))]
pub fn heap_of(segments: &[Header]) -> Span
    requires { any_wraps segments.now ≡ false }
    ensures { result ≡ heap_at (start_after segments.now) }
{
    let end = highest_end_of(segments) as u32;
    let start = (end + (PAGE_SIZE - 1)) / PAGE_SIZE * PAGE_SIZE;
    let bound = if start <= STACK_START {
        STACK_START
    } else {
        TOP
    };
    Span {
        start,
        len: HEAP_SIZE.min(bound - start),
        perms: read_and_write(),
    }
}

/// The range of a segment.
pub fn segment_span_of(header: &Header) -> Span
    ensures { result ≡ segment_span header.now }
{
    Span {
        start: header.vaddr,
        len: header.memsz,
        perms: Perms::from_bits_retain((header.flags % PERMISSION_VALUES) as u8),
    }
}

/// The range of the stack.
pub fn stack() -> Span
    ensures { result ≡ stack_span }
{
    Span {
        start: STACK_START,
        len: STACK_END - STACK_START,
        perms: read_and_write(),
    }
}

/// The ranges of the segments, of the stack and of the heap.
#[tactic(auto, unfolding(crate::specs::Layout::mapped_spans))]
pub fn spans_of(segments: &[Header], heap: Span) -> ArrayVec<Span, SPAN_LIMIT>
    requires few { length segments.now ≤ HEADER_LIMIT }
    requires heap { heap ≡ heap_at (start_after segments.now) }
    ensures { result.items ≡ mapped_spans segments.now }
{
    let mut spans = ArrayVec::new();
    for h in segments {
        spans.push(segment_span_of(h));
    }
    spans.push(stack());
    spans.push(heap);
    spans
}
