// The numbers that stand in an image, their lowest byte first.
ghost use Rattle.std.specs.Prelude.{◌≡◌, ◌+◌, ◌≤◌, length};
ghost use Rattle.elf_load.specs.Fields.{number_at};

use byteorder::{ByteOrder, LittleEndian};

// The places of the fields of an image's header that a loader reads.
pub const TYPE_PLACE: usize = 16;

pub const MACHINE_PLACE: usize = 18;

pub const VERSION_PLACE: usize = 20;

pub const ENTRY_PLACE: usize = 24;

pub const TABLE_PLACE: usize = 28;

pub const FLAGS_PLACE: usize = 36;

pub const ENTRY_SIZE_PLACE: usize = 42;

pub const COUNT_PLACE: usize = 44;

/// The number in the two bytes from a place of the image.
#[tactic(auto, unfolding(crate::specs::Fields::number_at))]
pub fn u16_at(image: &[u8], place: usize) -> u16
    requires { place + 2 ≤ length image.now }
    ensures { result ≡ number_at place 2 image.now }
{
    LittleEndian::read_u16(&image[place..])
}

/// The number in the four bytes from a place of the image.
#[tactic(auto, unfolding(crate::specs::Fields::number_at))]
pub fn u32_at(image: &[u8], place: usize) -> u32
    requires { place + 4 ≤ length image.now }
    ensures { result ≡ number_at place 4 image.now }
{
    LittleEndian::read_u32(&image[place..])
}
