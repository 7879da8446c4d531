// What is loaded of an image.
ghost use Rattle.std.specs.Prelude.{◌≡◌, ◌≤◌, ◌%◌, map, true};
ghost use Rattle.guest_mem.specs.Pages.{page_size};
ghost use Rattle.guest_mem.specs.Spans.{span_of};
ghost use Rattle.elf_load.specs.Layout.{all_apart, none_wraps, bytes_fit};

use crate::region_list::RegionList;

/// A loaded image: where its first instruction is, its segments, stack and heap, and the limits of the heap. The regions
/// share no byte, none wraps, and none has more bytes than its length; the heap begins and ends at the start of a page.
#[derive(Drop)]
pub struct Loaded {
    pub entry_pc: u32,
    pub regions: RegionList,
    pub heap: u32,
    pub heap_end: u32,
    ghost aligned: { entry_pc % 4 ≡ 0 },
    ghost apart: { all_apart (map span_of regions) ≡ true },
    ghost inside: { none_wraps (map span_of regions) ≡ true },
    ghost fits: { bytes_fit regions ≡ true },
    ghost heap_aligned: { heap % page_size ≡ 0 },
    ghost heap_end_aligned: { heap_end % page_size ≡ 0 },
    ghost ordered: { heap ≤ heap_end },
}
