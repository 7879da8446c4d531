// The laws of the frame of the instructions that write a group of registers.
ghost use Rattle.frame_laws.specs.Bytes.{BytesLaw, BitsLaw, HeldLaw};
ghost use Rattle.frame_laws.specs.Clips.{ClipLaw};
ghost use Rattle.frame_laws.specs.Laws.{FrameLaw, GroupLaw};
ghost use Rattle.frame_laws.specs.Preparing.{PreparedLaw, AgreeingLaw};
ghost use Rattle.frame_laws.specs.Shapes.{UsualBoundsLaw};
ghost use Rattle.frame_laws.specs.Singles.{SingleLaw, SingleBytesLaw};
ghost use Rattle.frame_laws.specs.Spans.{BoundsLaw};
ghost use Rattle.frame_laws.specs.Costs.{TallyLaw, EvenTallyLaw, LengthLaw, RangeLaw};

/// The program of an instruction leaves the registers of its meaning.
pub fn frame_law()
    ensures law { FrameLaw }
{}

/// The operations on the first registers of a group write these, and nothing else that later ones read.
pub fn group_law()
    ensures law { GroupLaw }
{}

/// The program of an instruction whose elements are whole bytes leaves the lists of bytes of its
/// meaning.
pub fn bytes_law()
    ensures law { BytesLaw }
{}

/// Slices that hold the registers of an instruction's meaning hold the lists of bytes of its
/// meaning.
pub fn held_law()
    ensures law { HeldLaw }
{}

/// The same as the law of bytes where the destination is a mask.
pub fn bits_law()
    ensures law { BitsLaw }
{}

/// A list that makes a register's values in a work row realises the register, with a commit of the
/// row after it.
pub fn prepared_law()
    ensures law { PreparedLaw }
{}

/// An element of a group of registers depends on those alone that it lies in.
pub fn agreeing_law()
    ensures law { AgreeingLaw }
{}

/// The bounds of most programs fit the places of the elements.
pub fn usual_bounds_law()
    ensures law { UsualBoundsLaw }
{}

/// The program of a group with a scalar in one element after it leaves the registers of the whole
/// instruction.
pub fn single_law()
    ensures law { SingleLaw }
{}

/// The same on registers that are lists of bytes.
pub fn single_bytes_law()
    ensures law { SingleBytesLaw }
{}

/// The bounds of windows and fills fit the places of the elements, for any first element and any
/// length.
pub fn bounds_law()
    ensures law { BoundsLaw }
{}

/// The searches, updates and passes of a program.
pub fn tally_law()
    ensures law { TallyLaw }
{}

/// The same, where the lists of all registers count alike.
pub fn even_tally_law()
    ensures law { EvenTallyLaw }
{}

/// The length of a program whose lists are equally long.
pub fn length_law()
    ensures law { LengthLaw }
{}

/// A chain can run a program whose lists it can run.
pub fn range_law()
    ensures law { RangeLaw }
{}

/// The program of an instruction whose lists tell which results they clip sets the flag exactly where an active element is
/// clipped.
pub fn clip_law()
    ensures law { ClipLaw }
{}
