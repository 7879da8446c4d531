// The image of a program.
ghost use Rattle.std.specs.Prelude.{◌≡◌, ◌≤◌, ◌++◌, IfOk, OnOk, length};
ghost use Rattle.std.specs.List.{flat_map};
ghost use Rattle.work_gen.specs.Images.{image_of as image, program_header, word};

use std::alloc::{AllocError as NoMemory, Global};

// The ELF header of an image with one program header. Its last six bytes tell of sections, of which there are none.
const HEADER: [u8; 52] = [
    0x7f, 0x45, 0x4c, 0x46, 1, 1, 1, 0, 0, 0, 0, 0, 0, 0, 0, 0, 2, 0, 243, 0, 1, 0, 0, 0, 0x54, 0,
    1, 0, 52, 0, 0, 0, 0, 0, 0, 0, 0, 0, 0, 0, 52, 0, 32, 0, 1, 0, 0, 0, 0, 0, 0, 0,
];

/// The program header of a segment that begins with the file, without its length.
pub const SEGMENT: [u8; 32] = [
    1, 0, 0, 0, 0, 0, 0, 0, 0, 0, 1, 0, 0, 0, 1, 0, 0, 0, 0, 0, 0, 0, 0, 0, 5, 0, 0, 0, 0, 0x10, 0,
    0,
];

/// The most words of an image, so that its length is a word.
pub const MOST_WORDS: usize = 1 << 24;

// The bytes of the headers, and of a word.
const HEADERS: u32 = 84;

const WORD: u32 = 4;

// The place in the program header of its two lengths: in the file, and in memory.
const LENGTHS: usize = 16;

// The place after them.
const AFTER_LENGTHS: usize = 24;

// Appends the program header of a segment of so many bytes.
fn push_segment(image: &mut Vec<u8>, size: u32) -> Result<(), NoMemory>
    ensures { OnOk result (image.new.items ≡ image.old.items ++ program_header size) }
{
    let length = size.to_le_bytes();
    image.extend_from_slice(&SEGMENT[..LENGTHS])?;
    image.extend_from_slice(length.as_slice())?;
    image.extend_from_slice(length.as_slice())?;
    image.extend_from_slice(&SEGMENT[AFTER_LENGTHS..])?;
    Ok(())
}

// Appends words.
fn push_words(image: &mut Vec<u8>, words: &[u32]) -> Result<(), NoMemory>
    ensures { OnOk result (image.new.items ≡ image.old.items ++ flat_map word words.now) }
{
    for w in words {
        image.extend_from_slice(w.to_le_bytes().as_slice())?;
    }
    Ok(())
}

/// The image of these words.
#[tactic(auto, unfolding(crate::specs::Images::image_of))]
pub fn image_of(alloc: Global, words: &[u32]) -> Result<Vec<u8>, NoMemory>
    requires few { length words.now ≤ MOST_WORDS }
    ensures { IfOk result (λ bytes. bytes.items ≡ image words.now) }
{
    let mut image = Vec::from_slice(alloc, HEADER.as_slice())?;
    push_segment(&mut image, HEADERS + WORD * words.len() as u32)?;
    push_words(&mut image, words)?;
    Ok(image)
}
