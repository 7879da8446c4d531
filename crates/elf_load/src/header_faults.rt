// The faults of the header of an image (System V ABI, chapter 4).
ghost use Rattle.std.specs.Prelude.{◌≡◌, ◌≤◌, length};
ghost use Rattle.elf_load.specs.Faults.{first_of, identity_faults, field_faults, header_faults};

use crate::faults::LoadFault;
use crate::fields::{
    COUNT_PLACE, ENTRY_SIZE_PLACE, FLAGS_PLACE, MACHINE_PLACE, TABLE_PLACE, TYPE_PLACE,
    VERSION_PLACE, u16_at, u32_at,
};
use crate::headers::{HEADER_LIMIT, HEADER_SIZE};

// The most bytes of an image, and the bytes of its header.
const IMAGE_LIMIT: usize = 33_554_432;

const IMAGE_HEADER_SIZE: usize = 52;

// The bytes that say what the file is, which stand at its start.
const MAGIC: [u8; 4] = [0x7f, 0x45, 0x4c, 0x46];

// The place of the class, and the class of 32 bits.
const CLASS_PLACE: usize = 4;

const CLASS_32: u8 = 1;

// The place of the order of the bytes, and the lowest byte first.
const ENCODING_PLACE: usize = 5;

const LITTLE_ENDIAN: u8 = 1;

// The place of the first of the two versions, and the only version.
const IDENTITY_VERSION_PLACE: usize = 6;

const VERSION: u32 = 1;

// The type of an executable file, and the machine RISC-V.
const EXECUTABLE: u16 = 2;

const RISCV: u16 = 243;

// The flag of compressed code (RISC-V ELF specification, file header).
const COMPRESSED: u32 = 1;

// The first fault of the size and of the bytes that say what the file is.
fn identity_fault(image: &[u8]) -> Option<LoadFault>
    ensures { result ≡ first_of identity_faults image.now }
{
    if image.len() > IMAGE_LIMIT {
        return Some(LoadFault::TooBig);
    }
    if image.len() < IMAGE_HEADER_SIZE {
        return Some(LoadFault::TooShort);
    }
    if !(image[0] == MAGIC[0]
        && image[1] == MAGIC[1]
        && image[2] == MAGIC[2]
        && image[3] == MAGIC[3])
    {
        return Some(LoadFault::BadMagic);
    }
    if image[CLASS_PLACE] != CLASS_32 {
        return Some(LoadFault::NotElf32);
    }
    if image[ENCODING_PLACE] != LITTLE_ENDIAN {
        return Some(LoadFault::NotLittleEndian);
    }
    None
}

// The first fault of the fields of the header.
fn field_fault(image: &[u8]) -> Option<LoadFault>
    requires { IMAGE_HEADER_SIZE ≤ length image.now }
    ensures { result ≡ first_of field_faults image.now }
{
    if u32::from(image[IDENTITY_VERSION_PLACE]) != VERSION
        || u32_at(image, VERSION_PLACE) != VERSION
    {
        return Some(LoadFault::BadVersion);
    }
    if u16_at(image, TYPE_PLACE) != EXECUTABLE {
        return Some(LoadFault::NotExecutable);
    }
    if u16_at(image, MACHINE_PLACE) != RISCV {
        return Some(LoadFault::NotRiscv);
    }
    if u32_at(image, FLAGS_PLACE) & COMPRESSED != 0 {
        return Some(LoadFault::Compressed);
    }
    let count = usize::from(u16_at(image, COUNT_PLACE));
    if count != 0 && usize::from(u16_at(image, ENTRY_SIZE_PLACE)) != HEADER_SIZE {
        return Some(LoadFault::BadPhentsize);
    }
    if count > HEADER_LIMIT {
        return Some(LoadFault::TooManyHeaders);
    }
    if count != 0 && u32_at(image, TABLE_PLACE) as usize + HEADER_SIZE * count > image.len() {
        return Some(LoadFault::HeadersPastEnd);
    }
    None
}

/// The first fault of an image's header.
pub fn header_fault(image: &[u8]) -> Option<LoadFault>
    ensures { result ≡ first_of header_faults image.now }
{
    if let Some(found) = identity_fault(image) {
        return Some(found);
    }
    field_fault(image)
}
