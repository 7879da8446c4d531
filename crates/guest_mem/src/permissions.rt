// The permissions of a page.
ghost use Rattle.std.specs.Prelude.{⊤, [], ◌∷◌, codes};

use bitflags::{Flag, Flags, bitflag_items};

/// A set of the permissions to read, to write and to execute.
#[derive(Clone, Copy, PartialEq, Eq, Debug)]
pub struct Perms(u8);

bitflag_items! {
    impl Perms: u8 {
        const READ = 4;
        const WRITE = 2;
        const EXECUTE = 1;
    }
}

impl Flags for Perms {
    type Bits = u8;

    ghost exact = { ⊤ };

    ghost table = { (codes "READ", 4) ∷ (codes "WRITE", 2) ∷ (codes "EXECUTE", 1) ∷ [] };

    ghost set_of = { λ p. p.0 };

    fn flags<'a>() -> &'a [Flag<Perms>] {
        Perms::FLAGS
    }

    fn bits(&self) -> u8 {
        self.0
    }

    fn from_bits_retain(bits: u8) -> Perms {
        Perms(bits)
    }
}
