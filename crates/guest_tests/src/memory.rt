// Steps on a small memory: edges of pages, of permissions, of addresses and of the heap.
use bitflags::Flags;
use guest_mem::{ByteList, Mem, MemFault, PAGE_SIZE, Perms, Region};
use std::alloc::{AllocError as NoMemory, Global};
use std::test::Fail;

// The permissions of a page, as bits: 4 to read, 2 to write, 1 to execute.
const READ_EXECUTE: u8 = 5;

const WRITE: u8 = 2;

const EXECUTE: u8 = 1;

const ALL: u8 = 7;

// The most bytes of a load and of a store.
const WORD_BYTES: u32 = 4;

// The start, the length, the permissions and the bytes of each region: a page to read and execute that holds 1, 2, 3, 4
// before its end, one to write that shares the page after it, and a third page to execute alone.
const REGIONS: [(u32, u32, u8, &[u8]); 3] = [
    (0x1ffc, 8, READ_EXECUTE, &[1, 2, 3, 4, 5, 6]),
    (0x2100, 0x10, WRITE, &[7]),
    (0x3000, 0x1000, EXECUTE, &[8]),
];

// A call, its arguments, and its answer at the end.
#[derive(Clone, Copy)]
enum Step {
    Load(u32, u32, Result<u32, MemFault>),
    Fetch(u32, Result<u32, MemFault>),
    Peek(u32, Option<u8>),
    Permissions(u32, u8),
    Check(u32, u32, Perms, Result<(), MemFault>),
    Store(u32, u32, u32, Result<(), MemFault>),
    Map(u32, bool),
    CopyIn(u32, &'static [u8]),
    Index(&'static [u32]),
    RangeInPage(u32, u32, Perms, Option<&'static [u8]>),
    StoreInPage(u32, &'static [u8], bool),
    Break(u32),
    SetBreak(u32, u32),
}

// Loads of ranges that run over edges, and permissions.
const READS: [Step; 15] = [
    Step::Index(&[1, 2, 3]),
    // A range runs over the end of a page.
    Step::Load(0x1ffe, 4, Ok(0x0605_0403)),
    Step::Load(0x1ffe, 1, Ok(3)),
    Step::Fetch(0x1ffc, Ok(0x0403_0201)),
    Step::Load(0x2004, 2, Ok(0)),
    Step::Peek(0x2100, Some(7)),
    Step::Peek(0x4000, None),
    Step::Load(0x2ffe, 4, Err(MemFault { address: 0x3000 })),
    Step::Load(0x0ffe, 4, Err(MemFault { address: 0x0ffe })),
    // A page has the permissions of each region that meets it.
    Step::Permissions(0x1000, READ_EXECUTE),
    Step::Permissions(0x2fff, ALL),
    Step::Permissions(0x4000, 0),
    Step::Check(0x2000, 0x1000, Perms::WRITE, Ok(())),
    Step::Check(
        0x2000,
        0x1001,
        Perms::WRITE,
        Err(MemFault { address: 0x3000 }),
    ),
    Step::Check(0x4000, 0, Perms::WRITE, Ok(())),
];

// Ranges within a page, and stores; a refused one writes nothing.
const WRITES: [Step; 14] = [
    // A range is lent where it lies within one page that has the permissions.
    Step::RangeInPage(0x1ffe, 2, Perms::READ, Some(&[3, 4])),
    Step::RangeInPage(0x1ffe, 3, Perms::READ, None),
    Step::RangeInPage(0x1ffe, 2, Perms::WRITE, None),
    Step::RangeInPage(0x4000, 1, Perms::READ, None),
    Step::StoreInPage(0x1ffe, &[9, 9], false),
    Step::Load(0x1ffe, 2, Ok(0x0403)),
    Step::StoreInPage(0x2ffe, &[9, 8], true),
    Step::Load(0x2ffe, 2, Ok(0x0809)),
    Step::StoreInPage(0x2ffe, &[0, 0], true),
    Step::Store(0x2ffe, 4, 0x0a0b_0c0d, Err(MemFault { address: 0x3000 })),
    Step::Load(0x2ffe, 2, Ok(0)),
    Step::Store(0x1ffe, 4, 0x0a0b_0c0d, Err(MemFault { address: 0x1ffe })),
    Step::Store(0x2000, 2, 0x0a0b_0c0d, Ok(())),
    Step::Load(0x1ffe, 4, Ok(0x0c0d_0403)),
];

// A page is added once, and addresses wrap.
const ADDED_PAGES: [Step; 10] = [
    Step::Map(0xffff_ffff, true),
    Step::Map(0xffff_f000, false),
    Step::Store(0xffff_fffe, 2, 0x0102, Ok(())),
    Step::Load(0xffff_fffe, 4, Err(MemFault { address: 0 })),
    Step::Map(0, true),
    Step::Index(&[0, 1, 2, 3, 0xf_ffff]),
    Step::Load(0xffff_fffe, 4, Ok(0x0102)),
    Step::CopyIn(0xffff_ffff, &[5, 6]),
    Step::Load(0xffff_fffe, 4, Ok(0x0006_0502)),
    Step::Fetch(0, Err(MemFault { address: 0 })),
];

// The break stays in the heap.
const BREAKS: [Step; 5] = [
    Step::Break(0x4000),
    Step::SetBreak(0x8000, 0x8000),
    Step::SetBreak(0x8001, 0x8000),
    Step::SetBreak(0x3fff, 0x8000),
    Step::SetBreak(0x4000, 0x4000),
];

fn three_regions(alloc: Global) -> Result<Mem, NoMemory> {
    let mut regions = Vec::new(alloc);
    for (start, len, perms, bytes) in REGIONS {
        regions.push(Region {
            start,
            len,
            perms: Perms::from_bits_retain(perms),
            bytes: ByteList::new(Vec::from_slice(alloc, bytes)?),
        })?;
    }
    Mem::new(alloc, &regions, 0x4000, 0x8000)
}

// Whether these bytes are lent, or none.
fn is_lent(lent: Option<&[u8]>, answer: Option<&[u8]>) -> bool {
    match (lent, answer) {
        (Some(bytes), Some(wanted)) => bytes == wanted,
        (None, None) => true,
        _ => false,
    }
}

// Makes the call of a step, and says whether it answers so.
fn answers(alloc: Global, mem: &mut Mem, step: &Step) -> Result<bool, NoMemory> {
    Ok(match *step {
        Step::Load(address, len, answer) => len <= WORD_BYTES && mem.load(address, len) == answer,
        Step::Fetch(address, answer) => mem.fetch(address) == answer,
        Step::Peek(address, answer) => mem.peek(address) == answer,
        Step::Permissions(address, answer) => mem.perms(address).bits() == answer,
        Step::Check(address, len, need, answer) => mem.check(address, len, need) == answer,
        Step::Store(address, len, value, answer) => {
            len <= WORD_BYTES && mem.store(address, len, value) == answer
        }
        Step::Map(address, answer) => mem.map(alloc, address)? == answer,
        Step::CopyIn(address, bytes) => {
            mem.copy_in(address, bytes);
            true
        }
        Step::Index(answer) => mem.index() == answer,
        Step::RangeInPage(address, len, need, answer) => {
            need.bits() > 0 && is_lent(mem.range_in_page(address, len, need), answer)
        }
        Step::StoreInPage(address, bytes, answer) => {
            bytes.len() <= (PAGE_SIZE - address % PAGE_SIZE) as usize
                && mem.store_in_page(address, bytes) == answer
        }
        Step::Break(answer) => mem.brk() == answer,
        Step::SetBreak(asked, answer) => mem.set_brk(asked) == answer,
    })
}

// Makes the calls of steps on a memory of the three regions, until one has another answer.
fn run_steps(alloc: Global, steps: &[Step]) -> Result<bool, NoMemory> {
    let mut mem = three_regions(alloc)?;
    for step in steps {
        if !answers(alloc, &mut mem, step)? {
            return Ok(false);
        }
    }
    Ok(true)
}

#[test]
fn loads_and_permissions_have_their_answers(rt: HostRuntime) -> Result<(), Fail> {
    assert!(rt; run_steps(rt.alloc(), &READS)?, "reads");
    Ok(())
}

#[test]
fn ranges_and_stores_have_their_answers(rt: HostRuntime) -> Result<(), Fail> {
    assert!(rt; run_steps(rt.alloc(), &WRITES)?, "writes");
    Ok(())
}

#[test]
fn added_pages_have_their_answers(rt: HostRuntime) -> Result<(), Fail> {
    assert!(rt; run_steps(rt.alloc(), &ADDED_PAGES)?, "added pages");
    Ok(())
}

#[test]
fn the_break_has_its_answers(rt: HostRuntime) -> Result<(), Fail> {
    assert!(rt; run_steps(rt.alloc(), &BREAKS)?, "breaks");
    Ok(())
}
