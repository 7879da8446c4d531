// Program headers.
ghost use Rattle.std.specs.Prelude.{◌≡◌, ◌+◌, ◌≤◌, None, length, filter};
ghost use Rattle.elf_load.specs.Headers.{header_from, headers as image_headers, is_segment};
ghost use Rattle.elf_load.specs.Faults.{first_of, header_faults};

use crate::fields::{COUNT_PLACE, TABLE_PLACE, u16_at, u32_at};
use arrayvec::ArrayVec;

/// The bytes of a program header.
pub const HEADER_SIZE: usize = 32;

/// The most program headers.
pub const HEADER_LIMIT: usize = 64;

/// The types of a program header: a segment to load, a table for a dynamic linker, and the name of one.
pub const LOAD: u32 = 1;

pub const DYNAMIC: u32 = 2;

pub const INTERPRETER: u32 = 3;

// The places of the fields of a program header that a loader reads, after its type.
const OFFSET_PLACE: usize = 4;

const VADDR_PLACE: usize = 8;

const FILESZ_PLACE: usize = 16;

const MEMSZ_PLACE: usize = 20;

const SEGMENT_FLAGS_PLACE: usize = 24;

/// A program header (System V ABI, chapter 5): its type, the place and the number of its bytes in the file, its address
/// and its bytes in memory, and its flags.
#[derive(Clone, Copy, Debug, PartialEq, Eq, Default)]
pub struct Header {
    pub kind: u32,
    pub offset: u32,
    pub vaddr: u32,
    pub filesz: u32,
    pub memsz: u32,
    pub flags: u32,
}

// The program header at a place of the image.
fn header_of(image: &[u8], place: usize) -> Header
    requires { place + HEADER_SIZE ≤ length image.now }
    ensures { result ≡ header_from image.now place }
{
    Header {
        kind: u32_at(image, place),
        offset: u32_at(image, place + OFFSET_PLACE),
        vaddr: u32_at(image, place + VADDR_PLACE),
        filesz: u32_at(image, place + FILESZ_PLACE),
        memsz: u32_at(image, place + MEMSZ_PLACE),
        flags: u32_at(image, place + SEGMENT_FLAGS_PLACE),
    }
}

/// The program headers of an image whose header has no fault.
#[tactic(auto, using(crate::proofs::HeaderLemmas::header_steps), unfolding(crate::specs::Headers::headers))]
pub fn headers_of(image: &[u8]) -> ArrayVec<Header, HEADER_LIMIT>
    requires { first_of header_faults image.now ≡ None }
    ensures { result.items ≡ image_headers image.now }
{
    let mut found = ArrayVec::new();
    let count = u16_at(image, COUNT_PLACE);
    let table = u32_at(image, TABLE_PLACE) as usize;
    for k in 0..count {
        found.push(header_of(image, table + HEADER_SIZE * k as usize));
    }
    found
}

/// The headers of segments, in their order.
pub fn segments_of(headers: &[Header]) -> ArrayVec<Header, HEADER_LIMIT>
    requires { length headers.now ≤ HEADER_LIMIT }
    ensures { result.items ≡ filter is_segment headers.now }
{
    let mut found = ArrayVec::new();
    for h in headers {
        if h.kind == LOAD && h.memsz > 0 {
            found.push(*h);
        }
    }
    found
}
