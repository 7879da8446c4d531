// Sets of subarrays: bit s of a word says that subarray s is in the set.
ghost use Rattle.std.specs.Prelude.{◌≡◌, ℕ, ◌<◌, ◌≤◌, true, false, cond, eqb};
ghost use Rattle.cam_chain.specs.Slices.{selected};

// The lowest subarray of a set that has some.
pub(crate) fn lowest_of(subs: u32) -> u32
    requires { 1 ≤ subs }
    ensures within { result < 32 }
    ensures chosen { selected subs result ≡ true }
{
    subs.trailing_zeros()
}

// The set without one of its subarrays.
pub(crate) fn without(subs: u32, sub: u32) -> u32
    requires within { sub < 32 }
    requires chosen { selected subs sub ≡ true }
    ensures others { (s : ℕ) → s < 32 → selected result s ≡ cond (eqb s sub) false (selected subs s) }
    ensures fewer { result < subs }
{
    subs & !(1 << sub)
}
