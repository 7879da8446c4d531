// Ranges of addresses, and the pages that they meet.
ghost use Rattle.std.specs.Prelude.{◌≡◌, ◌+◌, ◌<◌, ◌≤◌};
ghost use Rattle.guest_mem.specs.Spans.{first_page, last_page, meets, page_count_of, page_numbers};

use crate::addresses::{PAGE_SIZE, PAGES};
use crate::permissions::Perms;
use bitflags::Flags;

/// A range of addresses: the first of them, how many there are, and the permissions that the pages get that it meets.
#[derive(Clone, Copy)]
pub struct Span {
    pub start: u32,
    pub len: u32,
    pub perms: Perms,
}

impl Default for Span {
    ghost is_default = { λ s. s.len ≡ 0 };

    /// A range without an address.
    fn default() -> Span {
        Span {
            start: 0,
            len: 0,
            perms: Perms::empty(),
        }
    }
}

impl Span {
    /// The number of the page of its first address.
    pub fn first_page(&self) -> u32
        ensures page { result ≡ first_page self.now }
        ensures bound { result < page_numbers }
    {
        self.start / PAGE_SIZE
    }

    /// The number of the page of its last address. A range that ends past the last address of all ends in a page past
    /// the last page of all.
    pub fn last_page(&self) -> u32
        requires { 0 < self.now.len }
        ensures { result ≡ last_page self.now }
    {
        let last = u64::from(self.start) + u64::from(self.len) - 1;
        (last / u64::from(PAGE_SIZE)) as u32
    }

    /// Whether it meets a page, that is, has an address in it.
    pub fn meets(&self, page: u32) -> bool
        ensures { result ≡ meets page self.now }
    {
        self.len > 0 && self.first_page() <= page && page <= self.last_page()
    }

    // How many pages it meets, of those that there are.
    pub(crate) fn page_count(&self) -> u32
        ensures count { result ≡ page_count_of self.now }
        ensures bound { first_page self.now + result ≤ page_numbers }
    {
        if self.len == 0 {
            return 0;
        }
        self.last_page().min(PAGES - 1) + 1 - self.first_page()
    }
}
