// The regions that a memory is made of.
ghost use Rattle.std.specs.Prelude.{◌≡◌};
ghost use Rattle.guest_mem.specs.Opening.{bytes_of};
ghost use Rattle.guest_mem.specs.Spans.{span_of};

use crate::permissions::Perms;
use crate::spans::Span;
use std::marker::Model;

// How many addresses there are.
const ADDRESSES: u64 = 1 << 32;

/// Bytes of a region; contracts see them as a list.
#[derive(Drop)]
pub struct ByteList {
    items: Vec<u8>,
}

impl Model for ByteList {
    ghost use Rattle.std.specs.Prelude.{ℕ, List};
    ghost use Rattle.std.specs.Coded.{coded_ℕ, coded_list};

    ghost Value = { List ℕ };

    ghost coded = { coded_list coded_ℕ };

    ghost view = { λ b. b.items.items };
}

impl ByteList {
    /// The bytes of a vector.
    pub fn new(items: Vec<u8>) -> ByteList
        ensures { result ≡ items.items }
    {
        ByteList { items }
    }

    /// The bytes.
    pub fn as_slice(&self) -> &[u8]
        ensures { result.now ≡ self.now }
    {
        &self.items
    }
}

/// A range of addresses with its permissions. Its bytes are those from `start` on, and no more than `len`; what lies
/// past them is zero.
#[derive(Drop)]
pub struct Region {
    pub start: u32,
    pub len: u32,
    pub perms: Perms,
    pub bytes: ByteList,
}

impl Region {
    /// Its range.
    pub fn span(&self) -> Span
        ensures { result ≡ span_of self.now }
    {
        Span {
            start: self.start,
            len: self.len,
            perms: self.perms,
        }
    }

    // Its bytes, no more than its length, and none past the last address.
    pub(crate) fn bytes_inside(&self) -> &[u8]
        ensures { result.now ≡ bytes_of self.now }
    {
        let bytes = self.bytes.as_slice();
        let most = u64::from(self.len).min(ADDRESSES - u64::from(self.start)) as usize;
        if bytes.len() <= most {
            return bytes;
        }
        &bytes[..most]
    }
}
