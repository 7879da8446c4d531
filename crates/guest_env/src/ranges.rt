// Ranges of a guest's memory.
ghost use Rattle.std.specs.Prelude.{◌≡◌, is_none};
ghost use Rattle.guest_mem.specs.Pages.{first_bad};

use guest_mem::{Mem, Perms};

// Whether every byte of a range may be reached as it is needed. One of no bytes may.
pub(crate) fn is_allowed(mem: &Mem, address: u32, count: u32, need: Perms) -> bool
    ensures { result ≡ is_none (first_bad mem.now.pages need.0 address count) }
{
    mem.check(address, count, need).is_ok()
}
