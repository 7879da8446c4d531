// A small image that loads, and an edit of it for each fault.
use bitflags::Flags;
use elf_load::{LoadFault, load};
use guest_images::{SEGMENT, image_of};
use std::alloc::{AllocError as NoMemory, Global};
use std::test::Fail;

// Six words.
const WORDS: [u32; 6] = [
    0x00700513, 0xcd027057, 0x5e0540d7, 0x2e108157, 0x05d00893, 0x00000073,
];

// Bytes that are written into an image from a place on.
type Edit = (usize, &'static [u8]);

// A length to which the image is cut or filled with zeros, the edits that are then made, and the fault that it has.
#[derive(Clone, Copy)]
struct Row(usize, &'static [Edit], LoadFault);

const ROWS: [Row; 24] = [
    Row(33_554_433, &[], LoadFault::TooBig),
    Row(51, &[], LoadFault::TooShort),
    Row(0, &[], LoadFault::TooShort),
    Row(108, &[(0, &[0])], LoadFault::BadMagic),
    Row(108, &[(4, &[2])], LoadFault::NotElf32),
    Row(108, &[(5, &[2])], LoadFault::NotLittleEndian),
    Row(108, &[(20, &[0])], LoadFault::BadVersion),
    Row(108, &[(16, &[3])], LoadFault::NotExecutable),
    Row(108, &[(18, &[3])], LoadFault::NotRiscv),
    Row(108, &[(36, &[1])], LoadFault::Compressed),
    Row(108, &[(42, &[0x28])], LoadFault::BadPhentsize),
    Row(108, &[(44, &[0x41])], LoadFault::TooManyHeaders),
    Row(108, &[(44, &[2])], LoadFault::HeadersPastEnd),
    Row(52, &[], LoadFault::HeadersPastEnd),
    Row(108, &[(52, &[2])], LoadFault::Dynamic),
    Row(108, &[(68, &[0x6d])], LoadFault::FileszAboveMemsz),
    Row(
        108,
        &[(60, &[0xfe, 0xff, 0xff, 0xff]), (68, &[5, 0, 0, 0, 4])],
        LoadFault::FileszAboveMemsz,
    ),
    Row(
        108,
        &[(68, &[0x6d]), (72, &[0x6d])],
        LoadFault::SegmentPastFile,
    ),
    Row(
        108,
        &[(60, &[0x00, 0xf0, 0xff, 0xff])],
        LoadFault::SegmentWraps,
    ),
    Row(
        116,
        &[(44, &[2]), (84, &SEGMENT), (104, &[108])],
        LoadFault::Overlap,
    ),
    Row(
        108,
        &[(60, &[0x00, 0x00, 0xf0, 0x7f])],
        LoadFault::OverStack,
    ),
    Row(108, &[(72, &[0x00, 0x00, 0x00, 0x04])], LoadFault::TooLarge),
    Row(108, &[(52, &[4])], LoadFault::NoSegments),
    Row(108, &[(24, &[0x56])], LoadFault::BadEntry),
];

// A region of the image: its place among them, its start, its length, its permissions as bits (4 to read, 2 to write, 1
// to execute), and how many bytes of the image it begins with.
#[derive(Clone, Copy)]
struct Range {
    place: usize,
    start: u32,
    len: u32,
    perms: u8,
    bytes: usize,
}

const RANGES: [Range; 3] = [
    Range {
        place: 0,
        start: 0x0001_0000,
        len: 108,
        perms: 5,
        bytes: 108,
    },
    Range {
        place: 1,
        start: 0x7ff0_0000,
        len: 0x10_0000,
        perms: 6,
        bytes: 0,
    },
    Range {
        place: 2,
        start: 0x0001_1000,
        len: 0x100_0000,
        perms: 6,
        bytes: 0,
    },
];

// Writes bytes from a place on.
fn overwrite(image: &mut Vec<u8>, place: usize, bytes: &[u8]) {
    for (at, byte) in image.iter_mut().skip(place).zip(bytes) {
        *at = *byte;
    }
}

fn edited(alloc: Global, row: &Row) -> Result<Vec<u8>, NoMemory> {
    let mut image = image_of(alloc, WORDS.as_slice())?;
    image.resize(row.0, 0)?;
    for (place, bytes) in row.1 {
        overwrite(&mut image, *place, bytes);
    }
    Ok(image)
}

fn has_fault(alloc: Global, row: &Row) -> Result<bool, NoMemory> {
    let image = edited(alloc, row)?;
    Ok(load(alloc, &image).err() == Some(row.2))
}

// Whether the image loads, with its entry, its heap and as many regions as there are rows, among them this one.
fn lays_out(alloc: Global, range: &Range) -> Result<bool, NoMemory> {
    let image = image_of(alloc, WORDS.as_slice())?;
    let Ok(loaded) = load(alloc, &image) else {
        return Ok(false);
    };
    let regions = loaded.regions.as_slice();
    let Some(region) = regions.get(range.place) else {
        return Ok(false);
    };
    let bytes = region.bytes.as_slice();
    let is_opened = loaded.entry_pc == 0x0001_0054
        && loaded.heap == 0x0001_1000
        && loaded.heap_end == 0x0101_1000
        && regions.len() == RANGES.len();
    Ok(
        is_opened
            && region.start == range.start
            && region.len == range.len
            && region.perms.bits() == range.perms
            && bytes.len() == range.bytes
            && image.starts_with(bytes),
    )
}

#[test]
fn each_fault_is_found(rt: HostRuntime) -> Result<(), Fail> {
    for (i, row) in ROWS.iter().enumerate() {
        assert!(rt; has_fault(rt.alloc(), row)?, "row {i}");
    }
    Ok(())
}

#[test]
fn the_image_loads(rt: HostRuntime) -> Result<(), Fail> {
    for (i, range) in RANGES.iter().enumerate() {
        assert!(rt; lays_out(rt.alloc(), range)?, "region {i}");
    }
    Ok(())
}
