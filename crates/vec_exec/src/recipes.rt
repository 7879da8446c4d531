// The recipe of each operation: the lists of micro-operations by which it is computed. A kind of instruction is a row of the
// tables in `opi_recipe` and `opm_recipe`, and one of `recipe_for` in specs/Recipes; a generator is an arm of `emit_list`.
ghost use Rattle.std.specs.Prelude.{◌≡◌, ℕ, ◌<◌, ◌≤◌, ◌+◌, ◌++◌, true, false};
ghost use Rattle.micro_ir.specs.Measures.{Measured};
ghost use Rattle.micro_ir.specs.WorkRows.{IsOperandRow};
ghost use Rattle.gen_shift.specs.Lists.{goes_up};
ghost use Rattle.vec_exec.specs.declared.recipes.Listed.{Listed};
ghost use Rattle.rvv_decode.specs.declared.instruction.VOp.TheVariants.{Opi, Opm};
ghost use Rattle.vec_exec.specs.Recipes as lists;
ghost use Rattle.vec_exec.specs.Recipes.{recipe_for, list_at, counts_of, length_of, Computes, TellsClips, FitsRows};

use bit_laws::Width;
use frame_meaning::{Order, Signs};
use gen_arith::{Choice, Sum, Truth, arith_length_law, emit_choice, emit_sum, emit_truth};
use gen_div::{Division, division_length_law, emit_division};
use gen_fixed::{Average, Clipping, Saturating, emit_average, emit_saturating, fixed_length_law};
use gen_logic::{Logic, emit_logic, logic_length_law};
use gen_mul::{Product, emit_product, emit_smul, product_length_law};
use gen_shift::{Shift, emit_rounded, emit_shift, shift_length_law};
use micro_ir::{MicroBuf, Place, emit_commit};
use rvv_decode::{OpiOp, OpmOp, VOp};

/// What comes in at the highest bits of a number that is moved to the right: zeros, or its sign.
#[derive(Clone, Copy, PartialEq, Eq)]
pub(crate) enum Right {
    Zeros,
    Sign,
}

/// A list: a generator's table, and a kind of it, of averages with whether they are of a difference; a product of fractions;
/// a shift to the right that rounds; a copy of what is laid out; or, at twice the width of the elements, a shift, or one that
/// rounds and what clips its results, which compute one half of a register at a time.
#[derive(Clone, Copy, PartialEq, Eq)]
pub(crate) enum Listed {
    Bits(Logic),
    Sums(Sum),
    Truths(Truth),
    Choices(Choice),
    Shifts(Shift),
    Products(Product),
    Fractions,
    Averages(Average, bool),
    Saturations(Saturating),
    Roundings(Right),
    Divisions(Division),
    Copies,
    Halves(Shift),
    Clips(Clipping),
}

/// How an operation is computed: the list where the mask is no operand, and the one where it is; whether the mask is one
/// where the word names it; how the list takes the operands; and which of these have a sign.
#[derive(Clone, Copy, PartialEq, Eq)]
pub(crate) struct Recipe {
    pub(crate) plain: Listed,
    pub(crate) masked: Listed,
    pub(crate) takes_mask: bool,
    pub(crate) order: Order,
    pub(crate) signs: Signs,
}

// An immediate alone has a sign; nothing has one; and all operands have one.
const SIGNED_IMMEDIATE: Signs = Signs {
    a: false,
    b: false,
    immediate: true,
};

const UNSIGNED: Signs = Signs {
    a: false,
    b: false,
    immediate: false,
};

const SIGNED: Signs = Signs {
    a: true,
    b: true,
    immediate: true,
};

// A recipe of one list, on operands that are as wide, or that are extended by zeros, and a signed immediate.
const fn of_two(list: Listed) -> Recipe
    ensures { result ≡ lists.of_two list }
{
    ordered(list, Order::Straight)
}

// The same where an immediate has no sign.
const fn of_unsigned(list: Listed) -> Recipe
    ensures { result ≡ lists.of_unsigned list }
{
    Recipe {
        plain: list,
        masked: list,
        takes_mask: false,
        order: Order::Straight,
        signs: UNSIGNED,
    }
}

// A recipe of two lists, of which the second takes the mask as an operand.
const fn with_mask(plain: Listed, masked: Listed) -> Recipe
    ensures { result ≡ lists.with_mask plain masked }
{
    Recipe {
        plain,
        masked,
        takes_mask: true,
        order: Order::Straight,
        signs: SIGNED_IMMEDIATE,
    }
}

// A recipe whose list takes the operands in another order, or at other widths.
const fn ordered(list: Listed, order: Order) -> Recipe
    ensures { result ≡ lists.ordered list order }
{
    Recipe {
        plain: list,
        masked: list,
        takes_mask: false,
        order,
        signs: SIGNED_IMMEDIATE,
    }
}

// The same, where narrower operands are extended by their sign.
const fn on_signed(list: Listed, order: Order) -> Recipe
    ensures { result ≡ lists.on_signed list order }
{
    Recipe {
        plain: list,
        masked: list,
        takes_mask: false,
        order,
        signs: SIGNED,
    }
}

// A recipe of wide results, where narrower operands are extended by their sign as is said of each.
const fn widened(list: Listed, a: bool, b: bool) -> Recipe
    ensures { result ≡ lists.widened list a b }
{
    Recipe {
        plain: list,
        masked: list,
        takes_mask: false,
        order: Order::Widening,
        signs: Signs {
            a,
            b,
            immediate: true,
        },
    }
}

/// The recipe of an operation, or `None` where its elements are not computed each from those at its place.
#[tactic(auto, unfolding(crate::specs::Recipes::recipe_for))]
pub(crate) fn recipe_of(op: VOp) -> Option<Recipe>
    ensures { result ≡ recipe_for op }
{
    match op {
        VOp::Opi(op) => opi_recipe(op),
        VOp::Opm(op) => opm_recipe(op),
        VOp::Config(_) | VOp::Memory(_) => None,
    }
}

// The recipes of OPIVV, OPIVX and OPIVI.
#[tactic(auto, unfolding(crate::specs::Recipes::recipe_for))]
fn opi_recipe(op: OpiOp) -> Option<Recipe>
    ensures { result ≡ recipe_for (Opi op) }
{
    let recipe = match op {
        OpiOp::Vadd => of_two(Listed::Sums(Sum::Add)),
        OpiOp::Vsub => of_two(Listed::Sums(Sum::Sub)),
        OpiOp::Vrsub => ordered(Listed::Sums(Sum::Sub), Order::Reversed),
        OpiOp::Vadc => with_mask(Listed::Sums(Sum::Add), Listed::Sums(Sum::Adc)),
        OpiOp::Vsbc => with_mask(Listed::Sums(Sum::Sub), Listed::Sums(Sum::Sbc)),
        OpiOp::Vmadc => with_mask(Listed::Truths(Truth::Madc), Listed::Truths(Truth::MadcIn)),
        OpiOp::Vmsbc => with_mask(Listed::Truths(Truth::Msbc), Listed::Truths(Truth::MsbcIn)),
        OpiOp::Vand => of_two(Listed::Bits(Logic::And)),
        OpiOp::Vor => of_two(Listed::Bits(Logic::Or)),
        OpiOp::Vxor => of_two(Listed::Bits(Logic::Xor)),
        OpiOp::Vsll => of_unsigned(Listed::Shifts(Shift::Sll)),
        OpiOp::Vsrl => of_unsigned(Listed::Shifts(Shift::Srl)),
        OpiOp::Vsra => of_unsigned(Listed::Shifts(Shift::Sra)),
        OpiOp::Vmseq => of_two(Listed::Truths(Truth::Eq)),
        OpiOp::Vmsne => of_two(Listed::Truths(Truth::Ne)),
        OpiOp::Vmsltu => of_two(Listed::Truths(Truth::Ltu)),
        OpiOp::Vmslt => of_two(Listed::Truths(Truth::Lt)),
        OpiOp::Vmsleu => of_two(Listed::Truths(Truth::Leu)),
        OpiOp::Vmsle => of_two(Listed::Truths(Truth::Le)),
        OpiOp::Vmsgtu => of_two(Listed::Truths(Truth::Gtu)),
        OpiOp::Vmsgt => of_two(Listed::Truths(Truth::Gt)),
        OpiOp::Vminu => of_two(Listed::Choices(Choice::Minu)),
        OpiOp::Vmin => of_two(Listed::Choices(Choice::Min)),
        OpiOp::Vmaxu => of_two(Listed::Choices(Choice::Maxu)),
        OpiOp::Vmax => of_two(Listed::Choices(Choice::Max)),
        OpiOp::Vmerge => with_mask(Listed::Bits(Logic::First), Listed::Bits(Logic::Merge)),
        OpiOp::VmvV => ordered(Listed::Bits(Logic::Second), Order::Second),
        OpiOp::Vnsrl => of_unsigned(Listed::Halves(Shift::Srl)),
        OpiOp::Vnsra => of_unsigned(Listed::Halves(Shift::Sra)),
        OpiOp::Vnclipu => of_unsigned(Listed::Clips(Clipping::Clipu)),
        OpiOp::Vnclip => of_unsigned(Listed::Clips(Clipping::Clip)),
        OpiOp::Vsaddu => of_two(Listed::Saturations(Saturating::Saddu)),
        OpiOp::Vsadd => of_two(Listed::Saturations(Saturating::Sadd)),
        OpiOp::Vssubu => of_two(Listed::Saturations(Saturating::Ssubu)),
        OpiOp::Vssub => of_two(Listed::Saturations(Saturating::Ssub)),
        OpiOp::Vsmul => of_two(Listed::Fractions),
        OpiOp::Vssrl => of_unsigned(Listed::Roundings(Right::Zeros)),
        OpiOp::Vssra => of_unsigned(Listed::Roundings(Right::Sign)),
        _ => return None,
    };
    Some(recipe)
}

// Those of OPMVV and OPMVX.
#[tactic(auto, unfolding(crate::specs::Recipes::recipe_for))]
fn opm_recipe(op: OpmOp) -> Option<Recipe>
    ensures { result ≡ recipe_for (Opm op) }
{
    let recipe = match op {
        OpmOp::Vmul => of_two(Listed::Products(Product::Mul)),
        OpmOp::Vmulh => of_two(Listed::Products(Product::Mulh)),
        OpmOp::Vmulhu => of_two(Listed::Products(Product::Mulhu)),
        OpmOp::Vmulhsu => of_two(Listed::Products(Product::Mulhsu)),
        OpmOp::Vdivu => of_two(Listed::Divisions(Division::Divu)),
        OpmOp::Vdiv => of_two(Listed::Divisions(Division::Div)),
        OpmOp::Vremu => of_two(Listed::Divisions(Division::Remu)),
        OpmOp::Vrem => of_two(Listed::Divisions(Division::Rem)),
        OpmOp::Vmacc => of_two(Listed::Products(Product::Macc)),
        OpmOp::Vnmsac => of_two(Listed::Products(Product::Nmsac)),
        OpmOp::Vmadd => ordered(Listed::Products(Product::Macc), Order::Exchanged),
        OpmOp::Vnmsub => ordered(Listed::Products(Product::Nmsac), Order::Exchanged),
        OpmOp::Vaaddu => of_two(Listed::Averages(Average::Avgu, false)),
        OpmOp::Vaadd => of_two(Listed::Averages(Average::Avg, false)),
        OpmOp::Vasubu => of_two(Listed::Averages(Average::Avgu, true)),
        OpmOp::Vasub => of_two(Listed::Averages(Average::Avg, true)),
        OpmOp::VzextVf2 => ordered(Listed::Copies, Order::Half),
        OpmOp::VzextVf4 => ordered(Listed::Copies, Order::Quarter),
        OpmOp::VsextVf2 => on_signed(Listed::Copies, Order::Half),
        OpmOp::VsextVf4 => on_signed(Listed::Copies, Order::Quarter),
        OpmOp::Vwaddu => ordered(Listed::Sums(Sum::Add), Order::Widening),
        OpmOp::Vwadd => on_signed(Listed::Sums(Sum::Add), Order::Widening),
        OpmOp::Vwsubu => ordered(Listed::Sums(Sum::Sub), Order::Widening),
        OpmOp::Vwsub => on_signed(Listed::Sums(Sum::Sub), Order::Widening),
        OpmOp::Vwmulu => ordered(Listed::Products(Product::Mul), Order::Widening),
        OpmOp::Vwmulsu => widened(Listed::Products(Product::Mul), true, false),
        OpmOp::Vwmul => on_signed(Listed::Products(Product::Mul), Order::Widening),
        OpmOp::Vwmaccu => ordered(Listed::Products(Product::Macc), Order::Widening),
        OpmOp::Vwmacc => on_signed(Listed::Products(Product::Macc), Order::Widening),
        OpmOp::Vwmaccus => widened(Listed::Products(Product::Macc), true, false),
        OpmOp::Vwmaccsu => widened(Listed::Products(Product::Macc), false, true),
        OpmOp::VwadduW => ordered(Listed::Sums(Sum::Add), Order::WideSource),
        OpmOp::VwaddW => on_signed(Listed::Sums(Sum::Add), Order::WideSource),
        OpmOp::VwsubuW => ordered(Listed::Sums(Sum::Sub), Order::WideSource),
        OpmOp::VwsubW => on_signed(Listed::Sums(Sum::Sub), Order::WideSource),
        _ => return None,
    };
    Some(recipe)
}

/// Whether the list tells a truth of each element, and so makes the bits of a mask.
pub(crate) fn makes_bits(list: Listed) -> bool
    ensures { result ≡ lists.makes_bits list }
{
    matches!(list, Listed::Truths(_))
}

/// Whether the list computes the elements of one half of a register at a time.
pub(crate) fn makes_halves(list: Listed) -> bool
    ensures { result ≡ lists.makes_halves list }
{
    matches!(list, Listed::Halves(_) | Listed::Clips(_))
}

/// Whether the list tells which of its results are clipped.
pub(crate) fn tells_clips(list: Listed) -> bool
    ensures { result ≡ lists.tells_clips list }
{
    matches!(
        list,
        Listed::Fractions | Listed::Saturations(_) | Listed::Clips(_)
    )
}

/// What comes in where a number is moved that is then clipped.
pub(crate) const fn moved_in(kind: Clipping) -> Right
    ensures { result ≡ lists.moved_in kind }
{
    match kind {
        Clipping::Clipu => Right::Zeros,
        Clipping::Clip => Right::Sign,
    }
}

/// What moves a number to the right.
pub(crate) fn shift_of(right: Right) -> Shift
    ensures value { result ≡ lists.shift_of right }
    ensures right { goes_up result ≡ false }
{
    match right {
        Right::Zeros => Shift::Srl,
        Right::Sign => Shift::Sra,
    }
}

// Does nothing. It shows that no list is longer at the widths of elements.
pub(crate) fn list_length_law()
    ensures { (list : Listed) (w mode : ℕ) → w ≤ 32 → length_of list w mode ≤ 30000 }
{
    logic_length_law();
    arith_length_law();
    shift_length_law();
    product_length_law();
    division_length_law();
    fixed_length_law();
}

// The same rows, for a list of a difference or of a sum.
fn with_difference(at: &Place, sub: bool) -> Place
    ensures { result ≡ record at.now { sub = sub } }
{
    let mut with = *at;
    with.sub = sub;
    with
}

/// Appends a list.
#[tactic(auto, unfolding(crate::specs::Recipes::list_of, crate::specs::Recipes::counts_of, crate::specs::Recipes::length_of, crate::specs::Recipes::Computes, crate::specs::Recipes::TellsClips))]
pub(crate) fn emit_list<W: Width>(list: Listed, at: &Place, buf: &mut MicroBuf)
    requires whole { lists.makes_halves list ≡ false }
    requires rows { FitsRows list at.now.a at.now.b }
    requires addend { IsOperandRow at.now.addend }
    requires to { at.now.to < 32 }
    requires mode { at.now.mode ≤ 3 }
    requires room { length_of list W.BITS at.now.mode ≤ buf.old.spare }
    ensures ops { buf.new.ops ≡ buf.old.ops ++ list_at list W.BITS at.now }
    ensures spare { buf.new.spare + length_of list W.BITS at.now.mode ≡ buf.old.spare }
    ensures computes { Computes list W.BITS at.now.mode at.now.a at.now.b at.now.addend at.now.to }
    ensures tells { TellsClips list W.BITS at.now.mode at.now.a at.now.b at.now.addend at.now.to }
    ensures cost { Measured (counts_of list W.BITS at.now.mode) (length_of list W.BITS at.now.mode) (list_at list W.BITS at.now) }
{
    match list {
        Listed::Bits(kind) => emit_logic::<W>(buf, at, kind),
        Listed::Sums(kind) => emit_sum::<W>(buf, at, kind),
        Listed::Truths(kind) => emit_truth::<W>(buf, at, kind),
        Listed::Choices(kind) => emit_choice::<W>(buf, at, kind),
        Listed::Shifts(kind) => emit_shift::<W>(buf, at, kind),
        Listed::Roundings(right) => emit_rounded::<W>(buf, at, shift_of(right)),
        Listed::Averages(kind, sub) => {
            let with = with_difference(at, sub);
            emit_average::<W>(buf, &with, kind);
        }
        Listed::Saturations(kind) => emit_saturating::<W>(buf, at, kind),
        Listed::Fractions => emit_smul::<W>(buf, at),
        Listed::Products(kind) => emit_product::<W>(buf, at, kind),
        Listed::Divisions(kind) => emit_division::<W>(buf, at, kind),
        Listed::Copies => emit_commit(buf, at.a, at.to),
        Listed::Halves(_) | Listed::Clips(_) => unreachable!(),
    }
}
