// The laws of the frame of the instructions that make a mask from groups of elements, as compares and carries do.
ghost use Rattle.frame_laws.specs.Masks.Laws.{MaskFrameLaw, MaskLaw};
ghost use Rattle.frame_laws.specs.Masks.Costs.{MaskTallyLaw, MaskLengthLaw, MaskRangeLaw};

/// The program of an instruction that makes a mask leaves the registers of its meaning.
pub fn mask_frame_law()
    ensures law { MaskFrameLaw }
{}

/// It leaves the lists of bytes of its meaning.
pub fn mask_law()
    ensures law { MaskLaw }
{}

/// The searches, updates and passes of a program, where the lists of all registers count alike.
pub fn mask_tally_law()
    ensures law { MaskTallyLaw }
{}

/// The length of a program whose lists are equally long.
pub fn mask_length_law()
    ensures law { MaskLengthLaw }
{}

/// A chain can run a program whose lists it can run.
pub fn mask_range_law()
    ensures law { MaskRangeLaw }
{}
