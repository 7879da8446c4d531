ghost use Rattle.std.specs.Prelude.{◌≡◌, ◌<◌};
ghost use Rattle.reduce_tree.specs.Weights.{num_after};

/// What a count of tags does to the control number, where each tag stands for one bit of it.
#[derive(Clone, Copy, Debug, PartialEq, Eq)]
pub enum How {
    /// Each tag adds the bit's value.
    Sum,
    /// Each tag takes the bit's value away.
    Less,
    /// A tag sets the bit.
    Or,
    /// A tag clears the bit.
    Clear,
    /// An odd number of tags flips the bit.
    Xor,
    /// The number stays; a tag sets the clip flag, which stands beside it.
    Clip,
}

/// The control number after `count` tags of bit `bit` were taken into it, modulo 2^64.
pub fn weighted(num: u64, count: u32, bit: u8, how: How) -> u64
    requires { bit < 32 }
    ensures { result ≡ num_after how num count bit }
{
    let unit = 1u64 << bit;
    let some = count > 0;
    let odd = count % 2 == 1;
    match how {
        How::Sum => num.wrapping_add(u64::from(count) << bit),
        How::Less => num.wrapping_sub(u64::from(count) << bit),
        How::Or => if some { num | unit } else { num },
        How::Clear => if some { num & !unit } else { num },
        How::Xor => if odd { num ^ unit } else { num },
        How::Clip => num,
    }
}
