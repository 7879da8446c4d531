//! What legality says of the registers of a vector instruction: for every class by the widths of
//! its operands, and for some classes in words of their own. It holds no code that runs; each
//! function here is a law.
#![tactic(auto)]

ghost use Rattle.legal_groups.specs.Facts.{LegalGroupLaw, LegalMaskLaw, LegalPlainLaw, LegalMoveLaw, LegalCompareLaw, LegalAccessLaw};
ghost use Rattle.legal_groups.specs.Rules.{LegalLaw};

/// Each operand of a legal instruction of any class lies as it must; where its class forbids it, the
/// destination and the sources share no register; and the mask, the setting and the first element are
/// as the class asks.
pub fn legal_law()
    ensures law { LegalLaw }
{}

/// The groups of a legal instruction that writes a group, whatever the widths of its elements, lie
/// within the registers, and written in their order none is overwritten before it has been read.
pub fn legal_group_law()
    ensures law { LegalGroupLaw }
{}

/// The same of a legal instruction that writes a mask, where only a group's lowest register may be
/// the mask.
pub fn legal_mask_law()
    ensures law { LegalMaskLaw }
{}

/// The groups of a legal plain instruction are the same or apart, and the mask is spared.
pub fn legal_plain_law()
    ensures law { LegalPlainLaw }
{}

/// The same of a legal move.
pub fn legal_move_law()
    ensures law { LegalMoveLaw }
{}

/// The mask that a legal comparison writes is the lowest register of a source or apart from it.
pub fn legal_compare_law()
    ensures law { LegalCompareLaw }
{}

/// The registers that a legal load or store moves, and those of its indices, lie within the registers.
/// A load spares the mask that it reads, and reads each index before it writes over it.
pub fn legal_access_law()
    ensures law { LegalAccessLaw }
{}
