//! Readers of the elements of vector registers (version 1.0 of the vector extension, chapter 4 and section 4.5).
ghost use Rattle.std.specs.Prelude.{◌≡◌, ◌+◌, ◌*◌, ◌/◌, ◌<◌, ◌≤◌, ◌⊎◌, length};
ghost use Rattle.element_ops.specs.Elements.{element_at, mask_bit_at};

// How many bits a byte has.
const BYTE: u8 = 8;

/// Element `i` of `bytes`, whose elements have `w` bits: 8, 16 or 32. Its lowest byte stands first.
pub fn el(bytes: &[u8], w: u8, i: u32) -> u32
    requires width { (w ≡ 8) ⊎ ((w ≡ 16) ⊎ (w ≡ 32)) }
    requires place { (i + 1) * (w / 8) ≤ length bytes.now }
    ensures { result ≡ element_at bytes.now w i }
{
    let size = usize::from(w / BYTE);
    let first = i as usize * size;
    let mut number = 0;
    for k in 0..size {
        number |= u32::from(bytes[first + k]) << (usize::from(BYTE) * k);
    }
    number
}

/// Bit `i` of a mask: bit `i mod 8` of byte `i div 8`, counted from the lowest bit on.
pub fn mask_bit(bytes: &[u8], i: u32) -> bool
    requires { i / 8 < length bytes.now }
    ensures { result ≡ mask_bit_at bytes.now i }
{
    let bits = u32::from(BYTE);
    bytes[(i / bits) as usize] >> (i % bits) & 1 == 1
}
