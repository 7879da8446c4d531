// The lists of the frame: the scalar in every element, and ones in the agnostic elements.
ghost use Rattle.std.specs.Prelude.{◌≡◌, ℕ, ◌+◌, ◌<◌, ◌≤◌, cond, ◌&&◌, true, false, eqb, [], ◌∷◌, ◌++◌};
ghost use lib.Dec.{ltb};
ghost use Rattle.bit_laws.specs.Numbers.{bit_of};
ghost use Rattle.micro_ir.specs.declared.op.MicroOp.TheVariants.{Search, Update};
ghost use Rattle.micro_ir.specs.Steps.{micros};
ghost use Rattle.micro_ir.specs.Subs.{subs_of};
ghost use Rattle.micro_ir.specs.WorkRows.{scalar_row, free_row};
ghost use Rattle.micro_ir.specs.Effects.{Makes};
ghost use Rattle.micro_ir.specs.Pieces.{splat, fill_step};
ghost use Rattle.micro_ir.specs.Measures.{counts, Measured};

use bit_laws::Width;
use cam_chain::Keys;
use micro_ir::{FREE_ROW, MicroBuf, MicroOp, Place, SCALAR_ROW, emit_clear, emit_everywhere};

// The value of one row whose bit is 1.
const ONES_ON: [u8; 1] = [1];

// How many subarrays there are.
const SUBARRAYS: u32 = bit_rows::SUBARRAYS as u32;

// The subarrays that hold the places of an element where a scalar has ones.
fn ones_of<W: Width>(scalar: u32) -> u32
    ensures { result ≡ subs_of W.BITS (λ j. ltb j W.BITS && bit_of scalar j) }
{
    let mut subs: u32 = 0;
    for sub in 0..SUBARRAYS {
        let place = sub % W::BITS as u32;
        if scalar >> place & 1 == 1 {
            subs += 1 << sub;
        }
    }
    subs
}

// Appends what puts ones into the scalar row in the subarrays.
fn push_ones(buf: &mut MicroBuf, subs: u32)
    requires { 2 ≤ buf.old.spare }
    ensures ops { buf.new.ops
        ≡ buf.old.ops ++ (Search subs [] false ∷ Update subs scalar_row true ∷ []) }
    ensures spare { buf.new.spare + 2 ≡ buf.old.spare }
{
    let Some(keys) = Keys::new(&[]) else {
        unreachable!();
    };
    buf.push(MicroOp::Search {
        subs,
        keys,
        join: false,
    });
    buf.push(MicroOp::Update {
        subs,
        row: SCALAR_ROW,
        bit: true,
    });
}

/// Appends what puts the scalar into every element of the scalar row: its low bits, as many as an
/// element has (vector extension 1.0, section 11.1). No register changes. There are no errors.
pub fn emit_splat<W: Width>(buf: &mut MicroBuf, at: &Place, scalar: u32)
    requires room { 4 ≤ buf.old.spare }
    ensures ops { buf.new.ops ≡ buf.old.ops ++ micros W.BITS (splat W.BITS scalar) }
    ensures spare { buf.new.spare + 4 ≡ buf.old.spare }
    ensures makes { Makes W.BITS
        (λ e r i. cond (eqb r scalar_row && ltb i W.BITS) (bit_of scalar i) (e r i))
        (micros W.BITS (splat W.BITS scalar)) }
    ensures measured { Measured (counts 2 2 0) 4 (micros W.BITS (splat W.BITS scalar)) }
{
    emit_clear(buf, SCALAR_ROW);
    push_ones(buf, ones_of::<W>(scalar));
}

/// Appends what puts ones into the elements of register `at.to` that are free: of the tail, or
/// masked off, where they need not stay (vector extension 1.0, section 3.4.3). The agnostic elements
/// stand in their row. No other row changes. There are no errors.
pub fn emit_fill<W: Width>(buf: &mut MicroBuf, at: &Place)
    requires to { at.now.to < 32 }
    requires room { 2 ≤ buf.old.spare }
    ensures ops { (w : ℕ) → 0 < w
        → buf.new.ops ≡ buf.old.ops ++ micros w (fill_step w at.now.to ∷ []) }
    ensures spare { buf.new.spare + 2 ≡ buf.old.spare }
    ensures makes { (w : ℕ) → Makes w
        (λ e r i. cond (eqb r at.now.to && e free_row i) true (e r i))
        (micros w (fill_step w at.now.to ∷ [])) }
    ensures measured { (w : ℕ) → Measured (counts 1 1 0) 2 (micros w (fill_step w at.now.to ∷ [])) }
{
    emit_everywhere(buf, &[FREE_ROW], &ONES_ON, at.to);
}
