// Memory: the pages that are mapped, and the break.
ghost use Rattle.std.specs.Prelude.{◌≡◌, ℕ, ◌+◌, ◌<◌, ◌≤◌, ◌↔◌, IsTrue, true, false, Contains, Some, None, IsSome, OnOk, IfOk, OnErr, IfErr, IfSome, IfNone, is_none, is_some, length};
ghost use Rattle.std.specs.FinMap as map;
ghost use Rattle.std.specs.List.Sorted.{IsStrictlyIncreasing};
ghost use Rattle.std.specs.Int.{from_le_bytes, w32};
ghost use Rattle.std.specs.Option.{option_copied};
ghost use Rattle.guest_mem.specs.Opening.{opened};
ghost use Rattle.guest_mem.specs.Pages.{allows, byte_at, first_bad, loaded, page_of, page_size, perms_at, place_of, stored, with_page, written};
ghost use Rattle.guest_mem.specs.Ranges.{range_bytes};

use crate::addresses::{lies_in_page, page_number, place, room};
use crate::faults::MemFault;
use crate::page_list::PageList;
use crate::permissions::Perms;
use crate::regions::Region;
use crate::stored_page::StoredPage;
use bitflags::Flags;
use std::alloc::{AllocError as NoMemory, Global};
use std::marker::Model;

// The bytes of a word.
const WORD_BYTES: u32 = 4;

/// The memory of a guest.
#[derive(Drop)]
pub struct Mem {
    pages: PageList,
    heap: u32,
    heap_end: u32,
    brk: u32,
}

impl Model for Mem {
    ghost use Rattle.std.specs.Prelude.{◌≤◌};
    ghost use Rattle.guest_mem.specs.Pages.{Memory, memory_code};

    ghost Value = { Memory };

    ghost coded = { memory_code };

    ghost view = { λ m. record { pages = m.pages; heap = m.heap; heap_end = m.heap_end; brk = m.brk } };

    ghost invariant = { λ m. (m.heap ≤ m.brk) × (m.brk ≤ m.heap_end) };
}

// The number of up to four bytes, the lowest first. A word is one read.
fn little_endian(bytes: &[u8]) -> u32
    requires { length bytes.now ≤ WORD_BYTES }
    ensures { result ≡ from_le_bytes w32 bytes.now }
{
    if let [a, b, c, d] = bytes {
        return u32::from_le_bytes([*a, *b, *c, *d]);
    }
    let mut word = [0; WORD_BYTES as usize];
    word[..bytes.len()].copy_from_slice(bytes);
    u32::from_le_bytes(word)
}

impl Mem {
    // The page of an address.
    fn page(&self, address: u32) -> Option<&StoredPage>
        ensures { option_copied result ≡ map.get self.now.pages (page_of address) }
    {
        self.pages.page(page_number(address))
    }

    /// The numbers of the pages that are mapped, each once, rising.
    pub fn index(&self) -> &[u32]
        ensures rising { IsStrictlyIncreasing result.now }
        ensures mapped { (n : ℕ) → Contains result.now n ↔ IsSome (map.get self.now.pages n) }
    {
        self.pages.numbers()
    }

    /// The permissions of an address: none where its page is not mapped.
    pub fn perms(&self, address: u32) -> Perms
        ensures { result.0 ≡ perms_at self.now.pages address }
    {
        self.page(address)
            .map_or(Perms::empty(), |page| page.perms())
    }

    /// The byte of an address, or `None` where its page is not mapped.
    pub fn peek(&self, address: u32) -> Option<u8>
        ensures { result ≡ byte_at self.now.pages address }
    {
        self.page(address).map(|page| page.byte(place(address)))
    }

    /// The bytes of a range that lies within one page, whatever its permissions. They are lent, and not copied.
    pub fn bytes_in_page(&self, address: u32, len: u32) -> &[u8]
        requires mapped { IsSome (map.get self.now.pages (page_of address)) }
        requires inside { place_of address + len ≤ page_size }
        ensures { result.now ≡ range_bytes self.now.pages address len }
    {
        self.page(address)
            .unwrap()
            .range(place(address), len as usize)
    }

    /// The bytes of a range that lies within one page, where the page has the permissions that are needed; `None` where it
    /// runs over the page's end or the page lacks one. They are lent, and not copied.
    pub fn range_in_page(&self, address: u32, len: u32, need: Perms) -> Option<&[u8]>
        requires { 0 < need.0 }
        ensures inside { IsSome result → place_of address + len ≤ page_size }
        ensures allowed { IsSome result → allows need.0 (perms_at self.now.pages address) ≡ true }
        ensures refused { IfNone result (place_of address + len ≤ page_size → allows need.0 (perms_at self.now.pages address) ≡ false) }
        ensures bytes { IfSome result (λ bytes. bytes.now ≡ range_bytes self.now.pages address len) }
    {
        if len > room(address) {
            return None;
        }
        let page = self.page(address)?;
        if !page.perms().contains(need) {
            return None;
        }
        Some(page.range(place(address), len as usize))
    }

    /// Whether each byte of a range may be reached as it is needed. The range wraps modulo 2^32; of no bytes it is
    /// allowed. The fault has the first address that lacks a permission.
    #[tactic(auto, using(crate::proofs::InPage::bad_steps))]
    pub fn check(&self, address: u32, len: u32, need: Perms) -> Result<(), MemFault>
        ensures ok { OnOk result (first_bad self.now.pages need.0 address len ≡ None) }
        ensures fault { IfErr result (λ f. first_bad self.now.pages need.0 address len ≡ Some f.address) }
    {
        let mut at = address;
        let mut left = len;
        while left > 0 {
            if !self.perms(at).contains(need) {
                return Err(MemFault { address: at });
            }
            let here = left.min(room(at));
            at = at.wrapping_add(here);
            left -= here;
        }
        Ok(())
    }

    // The number of a range's bytes, the lowest first, of at most four; a byte whose page is not mapped counts as 0.
    fn gathered(&self, address: u32, len: u32) -> u32
        requires { len ≤ WORD_BYTES }
        ensures { result ≡ loaded self.now.pages address len }
    {
        let mut word = [0; WORD_BYTES as usize];
        for k in 0..len {
            word[k as usize] = self.peek(address.wrapping_add(k)).unwrap_or(0);
        }
        little_endian(&word[..len as usize])
    }

    // Reads up to four bytes that lie within one page as a number, where the page has the permissions that are needed.
    fn read_in_page(&self, address: u32, len: u32, need: Perms) -> Option<u32>
        requires few { len ≤ WORD_BYTES }
        requires inside { place_of address + len ≤ page_size }
        requires some { 0 < need.0 }
        ensures allowed { is_some result ≡ allows need.0 (perms_at self.now.pages address) }
        ensures value { IfSome result (λ v. v ≡ loaded self.now.pages address len) }
    {
        let bytes = self.range_in_page(address, len, need)?;
        Some(little_endian(bytes))
    }

    // Reads up to four bytes as a number, where they have the permissions that are needed.
    #[tactic(auto, using(crate::proofs::InPage::bad_in_page))]
    fn read(&self, address: u32, len: u32, need: Perms) -> Result<u32, MemFault>
        requires few { len ≤ WORD_BYTES }
        requires some { 0 < need.0 }
        ensures ok { OnOk result (first_bad self.now.pages need.0 address len ≡ None) }
        ensures value { IfOk result (λ v. v ≡ loaded self.now.pages address len) }
        ensures fault { IfErr result (λ f. first_bad self.now.pages need.0 address len ≡ Some f.address) }
    {
        if !lies_in_page(address, len) {
            self.check(address, len, need)?;
            return Ok(self.gathered(address, len));
        }
        self.read_in_page(address, len, need)
            .ok_or(MemFault { address })
    }

    /// Reads up to four bytes as a number, the lowest first. The range wraps modulo 2^32. The fault has the first
    /// address that may not be read.
    pub fn load(&self, address: u32, len: u32) -> Result<u32, MemFault>
        requires { len ≤ WORD_BYTES }
        ensures ok { OnOk result (first_bad self.now.pages Perms.READ.0 address len ≡ None) }
        ensures value { IfOk result (λ v. v ≡ loaded self.now.pages address len) }
        ensures fault { IfErr result (λ f. first_bad self.now.pages Perms.READ.0 address len ≡ Some f.address) }
    {
        self.read(address, len, Perms::READ)
    }

    /// Reads the four bytes at the pc as an instruction word. The fault has the first address that may not be executed.
    pub fn fetch(&self, pc: u32) -> Result<u32, MemFault>
        ensures ok { OnOk result (first_bad self.now.pages Perms.EXECUTE.0 pc WORD_BYTES ≡ None) }
        ensures value { IfOk result (λ v. v ≡ loaded self.now.pages pc WORD_BYTES) }
        ensures fault { IfErr result (λ f. first_bad self.now.pages Perms.EXECUTE.0 pc WORD_BYTES ≡ Some f.address) }
    {
        self.read(pc, WORD_BYTES, Perms::EXECUTE)
    }

    /// The memory of these regions: a page has the permissions of every region that meets it, and zeros where no
    /// region has a byte. The break is at the start of the heap.
    pub fn new(alloc: Global, regions: &[Region], heap: u32, heap_end: u32) -> Result<Mem, NoMemory>
        requires { heap ≤ heap_end }
        ensures { IfOk result (λ m. m ≡ record { pages = opened regions.now; heap = heap; heap_end = heap_end; brk = heap }) }
    {
        let pages = PageList::of_regions(alloc, regions)?;
        Ok(Mem {
            pages,
            heap,
            heap_end,
            brk: heap,
        })
    }

    /// Writes bytes from an address on, whatever the permissions. The range wraps modulo 2^32. A byte whose page is not
    /// mapped is dropped.
    pub fn copy_in(&mut self, address: u32, bytes: &[u8])
        ensures { self.new ≡ record self.old { pages = written self.old.pages address bytes.now } }
    {
        self.pages.copy_in(address, bytes);
    }

    /// Writes bytes that lie within one page, where it may be written. Says whether it may.
    pub fn store_in_page(&mut self, address: u32, bytes: &[u8]) -> bool
        requires { place_of address + length bytes.now ≤ page_size }
        ensures allowed { result ≡ allows Perms.WRITE.0 (perms_at self.old.pages address) }
        ensures stored { IsTrue result → self.new ≡ record self.old { pages = written self.old.pages address bytes.now } }
        ensures kept { result ≡ false → self.new ≡ self.old }
    {
        self.pages.store_in_page(address, bytes)
    }

    /// Writes the low bytes of a number, of up to four bytes, the lowest first. The range wraps modulo 2^32. The fault
    /// has the first address that may not be written, and then nothing is written.
    #[tactic(auto, using(crate::proofs::InPage::bad_in_page, crate::proofs::Storing::stored_word))]
    pub fn store(&mut self, address: u32, len: u32, value: u32) -> Result<(), MemFault>
        requires { len ≤ WORD_BYTES }
        ensures ok { OnOk result (first_bad self.old.pages Perms.WRITE.0 address len ≡ None) }
        ensures stored { OnOk result (self.new ≡ record self.old { pages = stored self.old.pages address value len }) }
        ensures fault { IfErr result (λ f. first_bad self.old.pages Perms.WRITE.0 address len ≡ Some f.address) }
        ensures kept { OnErr result (self.new ≡ self.old) }
    {
        let word = value.to_le_bytes();
        let bytes = &word[..len as usize];
        if !lies_in_page(address, len) {
            self.check(address, len, Perms::WRITE)?;
            self.copy_in(address, bytes);
            return Ok(());
        }
        if !self.store_in_page(address, bytes) {
            return Err(MemFault { address });
        }
        Ok(())
    }

    /// Adds the page of an address, zero, readable and writable. False where it was there already. Where memory is
    /// wanting nothing changes.
    pub fn map(&mut self, alloc: Global, address: u32) -> Result<bool, NoMemory>
        ensures added { IfOk result (λ added. added ≡ is_none (map.get self.old.pages (page_of address))) }
        ensures page { OnOk result (self.new ≡ record self.old { pages = with_page self.old.pages address }) }
        ensures kept { OnErr result (self.new ≡ self.old) }
    {
        if self.page(address).is_some() {
            return Ok(false);
        }
        self.pages.grant(alloc, page_number(address), Perms::READ.union(Perms::WRITE))?;
        Ok(true)
    }

    /// The break.
    pub fn brk(&self) -> u32
        ensures { result ≡ self.now.brk }
    {
        self.brk
    }

    /// Asks for a break. From `heap` to `heap_end`, both included, it becomes the break; else the break stays. The
    /// answer is the break after it.
    pub fn set_brk(&mut self, asked: u32) -> u32
        ensures answer { result ≡ self.new.brk }
        ensures moved { self.old.heap ≤ asked → asked ≤ self.old.heap_end → self.new ≡ record self.old { brk = asked } }
        ensures low { asked < self.old.heap → self.new ≡ self.old }
        ensures high { self.old.heap_end < asked → self.new ≡ self.old }
    {
        if self.heap <= asked && asked <= self.heap_end {
            self.brk = asked;
        }
        self.brk
    }
}
