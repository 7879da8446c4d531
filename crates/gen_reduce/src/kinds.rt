// The kinds of reduction that count the bits of elements.
ghost use Rattle.std.specs.Prelude.{◌≡◌, true, ◌-◌, ◌^◌, ◌<◌, ◌≤◌};
ghost use Rattle.gen_reduce.specs.Kinds.{counting_of, first_counting_of, start_of, is_wide, width_of};

use bit_laws::Width;
use reduce_tree::How;
use row_counts::Counting;

/// What is made of the active elements of a group, and of element 0 of a register.
#[derive(Clone, Copy, Debug, PartialEq, Eq)]
pub enum Reduction {
    /// Their sum.
    Redsum,
    /// The bits that are 1 in all.
    Redand,
    /// The bits that are 1 in one.
    Redor,
    /// The bits that are 1 in an odd number of them.
    Redxor,
    /// Their sum in twice as many bits, which element 0 has already; the others are extended by zeros.
    Wredsumu,
    /// Their sum in twice as many bits, which element 0 has already; the others are extended by their
    /// sign.
    Wredsum,
}

// How the bits of the group are counted.
pub(crate) fn counting_of(kind: Reduction) -> Counting
    ensures { result ≡ counting_of kind }
{
    let (how, top) = match kind {
        Reduction::Redsum | Reduction::Wredsumu => (How::Sum, How::Sum),
        Reduction::Wredsum => (How::Sum, How::Less),
        Reduction::Redand => (How::Clear, How::Clear),
        Reduction::Redor => (How::Or, How::Or),
        Reduction::Redxor => (How::Xor, How::Xor),
    };
    Counting {
        wanted: !matches!(kind, Reduction::Redand),
        how,
        top,
    }
}

// How the bits of element 0 are: its highest bit has the sign of the sum.
pub(crate) fn first_counting_of(kind: Reduction) -> Counting
    ensures { result ≡ first_counting_of kind }
{
    let counting = counting_of(kind);
    Counting {
        top: counting.how,
        ..counting
    }
}

// Whether the result has twice the bits of an element of the group.
pub(crate) fn is_wide(kind: Reduction) -> bool
    ensures { result ≡ is_wide kind }
{
    matches!(kind, Reduction::Wredsumu | Reduction::Wredsum)
}

// The bits of the result.
pub(crate) fn width_of<W: Width>(kind: Reduction) -> u8
    ensures { result ≡ width_of kind W.BITS }
{
    let width = W::BITS as u8;
    if is_wide(kind) { 2 * width } else { width }
}

// The control number before the first count: what leaves an element as it is.
pub(crate) fn start_of<W: Width>(kind: Reduction) -> u64
    ensures { result ≡ start_of kind W.BITS }
{
    if matches!(kind, Reduction::Redand) {
        (1 << W::BITS) - 1
    } else {
        0
    }
}
