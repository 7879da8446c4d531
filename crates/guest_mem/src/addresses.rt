// The page of an address, and its place there.
ghost use Rattle.std.specs.Prelude.{◌≡◌, ◌+◌, ◌<◌, ◌≤◌, ◌↔◌, IsTrue};
ghost use Rattle.guest_mem.specs.Pages.{page_of, page_size, place_of};

/// The bytes of a page.
pub const PAGE_SIZE: u32 = 4096;

/// How many pages there are.
pub const PAGES: u32 = 1 << 20;

// The same, as a length.
pub(crate) const PAGE_LEN: usize = PAGE_SIZE as usize;

// The number of the page of an address.
pub(crate) fn page_number(address: u32) -> u32
    ensures { result ≡ page_of address }
{
    address / PAGE_SIZE
}

// The place of an address in its page.
pub(crate) fn place(address: u32) -> usize
    ensures { result ≡ place_of address }
{
    (address % PAGE_SIZE) as usize
}

// How many bytes from an address on lie in its page.
pub(crate) fn room(address: u32) -> u32
    ensures { place_of address + result ≡ page_size }
{
    PAGE_SIZE - address % PAGE_SIZE
}

// Whether a range has bytes, all within one page.
pub(crate) fn lies_in_page(address: u32, len: u32) -> bool
    ensures { IsTrue result ↔ ((0 < len) × (place_of address + len ≤ page_size)) }
{
    0 < len && len <= room(address)
}
