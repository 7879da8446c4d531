// The laws of the classes of vector instructions, by the operands that they read.
ghost use Rattle.frame_laws.specs.Classes.Plain.{PlainLaw, PlainBytesLaw, PlainClipLaw};
ghost use Rattle.frame_laws.specs.Classes.Compared.{ComparedBytesLaw};
ghost use Rattle.frame_laws.specs.Classes.Halved.{HalvedLaw, HalvedBytesLaw, HalvedClipLaw};

/// The program of an instruction on elements at the same place, as wide or narrower, leaves the registers of its meaning.
pub fn plain_law()
    ensures law { PlainLaw }
{}

/// The same on registers that are lists of bytes.
pub fn plain_bytes_law()
    ensures law { PlainBytesLaw }
{}

/// Its program sets the flag exactly where an active element is clipped.
pub fn plain_clip_law()
    ensures law { PlainClipLaw }
{}

/// The program of an instruction that makes a mask from two operands leaves the registers of its meaning.
pub fn compared_bytes_law()
    ensures law { ComparedBytesLaw }
{}

/// The program of an instruction whose elements are half as wide as those of its first operand leaves the registers of its
/// meaning.
pub fn halved_law()
    ensures law { HalvedLaw }
{}

/// The same on registers that are lists of bytes.
pub fn halved_bytes_law()
    ensures law { HalvedBytesLaw }
{}

/// Its program sets the flag exactly where an active element is clipped.
pub fn halved_clip_law()
    ensures law { HalvedClipLaw }
{}
