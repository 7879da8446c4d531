// The pages that are mapped, in rising order of their numbers.
ghost use Rattle.std.specs.Prelude.{◌≡◌, ℕ, ◌+◌, ◌<◌, ◌≤◌, ◌^◌, ◌↔◌, None, Contains, IsSome, IfOk, OnOk, OnErr, length, if◌then◌else◌};
ghost use Rattle.std.specs.Borrow.{sem, LendsIf};
ghost use Rattle.std.specs.FinMap as map;
ghost use Rattle.std.specs.List.Sorted.{IsStrictlyIncreasing};
ghost use Rattle.std.specs.Option.{option_copied, option_copied_mut};
ghost use Rattle.guest_mem.specs.Laying.{granted, laid};
ghost use Rattle.guest_mem.specs.Opening.{opened};
ghost use Rattle.guest_mem.specs.Pages.{allows, joined, page_size, perms_at, place_of, written};
ghost use Rattle.guest_mem.specs.contracts.page_list.PageList.{the_row as list_row};
ghost use Rattle.guest_mem.specs.contracts.stored_page.StoredPage.{the_row as page_row};

use crate::addresses::{page_number, place, room};
use crate::permissions::Perms;
use crate::regions::Region;
use crate::searching::{index_of, lower_bound};
use crate::stored_page::StoredPage;
use bitflags::Flags;
use std::alloc::{AllocError as NoMemory, Global};
use std::marker::Model;

// The numbers of the pages, which rise, and beside them the pages. The numbers lie close together, so that a search
// steps over no bytes; a page lies in a box, so that one that is added moves no bytes of others.
#[derive(Drop)]
pub(crate) struct PageList {
    numbers: Vec<u32>,
    pages: Vec<Box<StoredPage>>,
}

impl Model for PageList {
    ghost use Rattle.std.specs.Prelude.{map};
    ghost use Rattle.std.specs.List.{zip};
    ghost use Rattle.std.specs.FinMap as fin;
    ghost use Rattle.std.specs.Coded.{coded_ℕ};
    ghost use Rattle.guest_mem.specs.Pages.{Pages, page_code};
    ghost use Rattle.guest_mem.specs.Indexes.{IsIndex};

    ghost Value = { Pages };

    ghost coded = { fin.code coded_ℕ page_code };

    ghost view = { λ l. fin.from_entries (zip l.numbers.items (map (λ p. p.value) l.pages.items)) };

    ghost invariant = { λ l. IsIndex l.numbers.items (map (λ p. p.value) l.pages.items) };
}

impl PageList {
    // No pages.
    fn new(alloc: Global) -> PageList
        ensures { result ≡ map.empty }
    {
        PageList {
            numbers: Vec::new(alloc),
            pages: Vec::new(alloc),
        }
    }

    // The pages of these regions.
    pub(crate) fn of_regions(alloc: Global, regions: &[Region]) -> Result<PageList, NoMemory>
        ensures { IfOk result (λ pages. pages ≡ opened regions.now) }
    {
        let mut pages = PageList::new(alloc);
        for region in regions {
            pages.lay(alloc, region)?;
        }
        Ok(pages)
    }

    // The numbers of the pages, each once, rising.
    pub(crate) fn numbers(&self) -> &[u32]
        ensures rising { IsStrictlyIncreasing result.now }
        ensures mapped { (n : ℕ) → Contains result.now n ↔ IsSome (map.get self.now n) }
    {
        &self.numbers
    }

    // The page of a number.
    pub(crate) fn page(&self, number: u32) -> Option<&StoredPage>
        ensures { option_copied result ≡ map.get self.now number }
    {
        match index_of(&self.numbers, number) {
            Some(at) => Some(&*self.pages[at]),
            None => None,
        }
    }

    // The page of a number, to be changed.
    fn page_mut(&mut self, number: u32) -> Option<&mut StoredPage>
        ensures* writes_back { sem 𝓛 (LendsIf list_row page_row self.entry result (λ page. map.insert self.old number page) self.old) }
        ensures page { option_copied_mut result ≡ map.get self.old number }
    {
        match index_of(&self.numbers, number) {
            Some(at) => Some(&mut *self.pages[at]),
            None => None,
        }
    }

    // Adds a page of zeros, whose number was not there.
    fn add(&mut self, alloc: Global, number: u32, perms: Perms) -> Result<(), NoMemory>
        requires { map.get self.old number ≡ None }
        ensures page { OnOk result (self.new ≡ map.insert self.old number (joined None perms.0)) }
        ensures kept { OnErr result (self.new ≡ self.old) }
    {
        let at = lower_bound(&self.numbers, number);
        let page = Box::new(alloc, StoredPage::zero(perms))?;
        self.numbers.reserve(1)?;
        self.pages.insert(at, page)?;
        self.numbers.insert(at, number)?;
        Ok(())
    }

    // Gives permissions to a page, which is added where it was not there.
    pub(crate) fn grant(&mut self, alloc: Global, number: u32, perms: Perms) -> Result<(), NoMemory>
        ensures page { OnOk result (self.new ≡ map.insert self.old number (joined (map.get self.old number) perms.0)) }
        ensures kept { OnErr result (self.new ≡ self.old) }
    {
        if let Some(page) = self.page_mut(number) {
            page.grant(perms);
            return Ok(());
        }
        self.add(alloc, number, perms)
    }

    // Gives permissions to pages from a number on.
    fn grant_each(
        &mut self,
        alloc: Global,
        first: u32,
        count: u32,
        perms: Perms,
    ) -> Result<(), NoMemory>
        requires { first + count < 2 ^ 32 }
        ensures { OnOk result (self.new ≡ granted self.old perms.0 first count) }
    {
        for more in 0..count {
            self.grant(alloc, first + more, perms)?;
        }
        Ok(())
    }

    // Adds a region: its permissions, then its bytes.
    fn lay(&mut self, alloc: Global, region: &Region) -> Result<(), NoMemory>
        ensures { OnOk result (self.new ≡ laid self.old region.now) }
    {
        let span = region.span();
        self.grant_each(alloc, span.first_page(), span.page_count(), region.perms)?;
        self.copy_in(region.start, region.bytes_inside());
        Ok(())
    }

    // Writes bytes from an address on, page by page.
    pub(crate) fn copy_in(&mut self, address: u32, bytes: &[u8])
        ensures { self.new ≡ written self.old address bytes.now }
    {
        let mut at = address;
        let mut rest = bytes;
        while !rest.is_empty() {
            let count = rest.len().min(room(at) as usize);
            let (here, later) = rest.split_at(count);
            self.copy_in_page(at, here);
            at = at.wrapping_add(count as u32);
            rest = later;
        }
    }

    // Writes bytes that lie within one page, where it is mapped.
    fn copy_in_page(&mut self, address: u32, bytes: &[u8])
        requires { place_of address + length bytes.now ≤ page_size }
        ensures { self.new ≡ written self.old address bytes.now }
    {
        if let Some(page) = self.page_mut(page_number(address)) {
            page.overwrite(place(address), bytes);
        }
    }

    // Writes bytes that lie within one page, where it may be written. Says whether it may.
    pub(crate) fn store_in_page(&mut self, address: u32, bytes: &[u8]) -> bool
        requires { place_of address + length bytes.now ≤ page_size }
        ensures allowed { result ≡ allows Perms.WRITE.0 (perms_at self.old address) }
        ensures pages { self.new ≡ (if result then written self.old address bytes.now else self.old) }
    {
        if let Some(page) = self.page_mut(page_number(address)) {
            if page.perms().contains(Perms::WRITE) {
                page.overwrite(place(address), bytes);
                return true;
            }
        }
        false
    }
}
