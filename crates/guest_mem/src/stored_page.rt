// A page as it is kept.
ghost use Rattle.std.specs.Prelude.{◌≡◌, ◌+◌, ◌<◌, ◌≤◌, None, Some, length, slice_index};
ghost use Rattle.std.specs.List.{slice_range};
ghost use Rattle.guest_mem.specs.Pages.{joined, page_size, splice};

use crate::addresses::PAGE_LEN;
use crate::permissions::Perms;
use bitflags::Flags;
use std::marker::Model;

// A page: its permissions and its bytes.
#[derive(Drop)]
pub(crate) struct StoredPage {
    perms: Perms,
    bytes: [u8; PAGE_LEN],
}

impl Model for StoredPage {
    ghost use Rattle.guest_mem.specs.Pages.{Page, page_code};

    ghost Value = { Page };

    ghost coded = { page_code };

    ghost view = { λ p. record { perms = p.perms.0; bytes = p.bytes } };
}

impl StoredPage {
    // A page of zeros.
    pub(crate) fn zero(perms: Perms) -> StoredPage
        ensures { result ≡ joined None perms.0 }
    {
        StoredPage {
            perms,
            bytes: [0; PAGE_LEN],
        }
    }

    // Its permissions.
    pub(crate) fn perms(&self) -> Perms
        ensures { result.0 ≡ self.now.perms }
    {
        self.perms
    }

    // The byte at a place.
    pub(crate) fn byte(&self, at: usize) -> u8
        requires { at < page_size }
        ensures { result ≡ slice_index self.now.bytes at }
    {
        self.bytes[at]
    }

    // The bytes from a place on.
    pub(crate) fn range(&self, from: usize, len: usize) -> &[u8]
        requires { from + len ≤ page_size }
        ensures bytes { result.now ≡ slice_range self.now.bytes from (from + len) }
        ensures all { length result.now ≡ len }
    {
        &self.bytes[from..from + len]
    }

    // Gives more permissions.
    pub(crate) fn grant(&mut self, perms: Perms)
        ensures { self.new ≡ joined (Some self.old) perms.0 }
    {
        self.perms = self.perms.union(perms);
    }

    // Puts bytes in the place of those from a place on.
    pub(crate) fn overwrite(&mut self, from: usize, bytes: &[u8])
        requires { from + length bytes.now ≤ page_size }
        ensures { self.new ≡ record self.old { bytes = splice self.old.bytes from bytes.now } }
    {
        self.bytes[from..from + bytes.len()].copy_from_slice(bytes);
    }
}
