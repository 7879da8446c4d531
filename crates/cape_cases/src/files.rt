//! The file of a case.
use crate::parts::Unread;
use guest_images::{MOST_WORDS, image_of};
use std::alloc::Global;

/// The bytes of a file: these words, after the headers of an image where they are code.
pub(crate) fn file_of(alloc: Global, words: &[u32], is_code: bool) -> Result<Vec<u8>, Unread> {
    if is_code {
        if words.len() > MOST_WORDS {
            return Err(Unread::Form);
        }
        return Ok(image_of(alloc, words)?);
    }
    let mut bytes = Vec::new(alloc);
    for word in words {
        bytes.extend_from_slice(word.to_le_bytes().as_slice())?;
    }
    Ok(bytes)
}
