// The values of arithmetic that take more than one operation of Rust, under the names of their instructions.
ghost use Rattle.std.specs.Prelude.{◌≡◌};
ghost use Rattle.rvv_meaning.specs.Scalar.Arithmetic as value;

// The bits of half a product.
const HALF: u32 = 32;

#[tactic(auto, unfolding(rvv_meaning::specs::Scalar::Arithmetic::sub))]
pub fn sub(a: u32, b: u32) -> u32
    ensures { result ≡ value.sub a b }
{
    a.wrapping_sub(b)
}

#[tactic(auto, unfolding(rvv_meaning::specs::Scalar::Arithmetic::slt))]
pub fn slt(a: u32, b: u32) -> u32
    ensures { result ≡ value.slt a b }
{
    u32::from(a.cast_signed() < b.cast_signed())
}

#[tactic(auto, unfolding(rvv_meaning::specs::Scalar::Arithmetic::sltu))]
pub fn sltu(a: u32, b: u32) -> u32
    ensures { result ≡ value.sltu a b }
{
    u32::from(a < b)
}

#[tactic(auto, unfolding(rvv_meaning::specs::Scalar::Arithmetic::sra))]
pub fn sra(a: u32, b: u32) -> u32
    ensures { result ≡ value.sra a b }
{
    a.cast_signed().wrapping_shr(b).cast_unsigned()
}

// The higher half of a product with a sign.
fn high_half(product: i64) -> u32
    ensures { result ≡ value.high_half product }
{
    ((product >> HALF) as i32).cast_unsigned()
}

#[tactic(auto, unfolding(rvv_meaning::specs::Scalar::Arithmetic::mulh))]
pub fn mulh(a: u32, b: u32) -> u32
    ensures { result ≡ value.mulh a b }
{
    high_half(i64::from(a.cast_signed()) * i64::from(b.cast_signed()))
}

#[tactic(auto, unfolding(rvv_meaning::specs::Scalar::Arithmetic::mulhsu))]
pub fn mulhsu(a: u32, b: u32) -> u32
    ensures { result ≡ value.mulhsu a b }
{
    high_half(i64::from(a.cast_signed()) * i64::from(b))
}

#[tactic(auto, unfolding(rvv_meaning::specs::Scalar::Arithmetic::mulhu))]
pub fn mulhu(a: u32, b: u32) -> u32
    ensures { result ≡ value.mulhu a b }
{
    let product = u64::from(a) * u64::from(b);
    (product >> HALF) as u32
}

// The quotient by zero has 1 in each bit.
#[tactic(auto, unfolding(rvv_meaning::specs::Scalar::Arithmetic::div))]
pub fn div(a: u32, b: u32) -> u32
    ensures { result ≡ value.div a b }
{
    if b == 0 {
        return u32::MAX;
    }
    a.cast_signed()
        .wrapping_div(b.cast_signed())
        .cast_unsigned()
}

#[tactic(auto, unfolding(rvv_meaning::specs::Scalar::Arithmetic::divu))]
pub fn divu(a: u32, b: u32) -> u32
    ensures { result ≡ value.divu a b }
{
    if b == 0 { u32::MAX } else { a / b }
}

// The remainder by zero is the dividend.
#[tactic(auto, unfolding(rvv_meaning::specs::Scalar::Arithmetic::rem))]
pub fn rem(a: u32, b: u32) -> u32
    ensures { result ≡ value.rem a b }
{
    if b == 0 {
        return a;
    }
    a.cast_signed()
        .wrapping_rem(b.cast_signed())
        .cast_unsigned()
}

#[tactic(auto, unfolding(rvv_meaning::specs::Scalar::Arithmetic::remu))]
pub fn remu(a: u32, b: u32) -> u32
    ensures { result ≡ value.remu a b }
{
    if b == 0 { a } else { a % b }
}
