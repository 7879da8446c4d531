// The kinds whose bits are a table of the bits of rows.
ghost use Rattle.std.specs.Prelude.{◌≡◌, ℕ, ◌+◌, ◌<◌, ◌≤◌, ◌++◌, length, take, true};
ghost use Rattle.micro_ir.specs.Steps.{micro};
ghost use Rattle.micro_ir.specs.WorkRows.{IsOperandRow, result_row};
ghost use Rattle.micro_ir.specs.Pieces.{everywhere};
ghost use Rattle.micro_ir.specs.Measures.{Measured};
ghost use Rattle.gen_logic.specs.declared.kinds.Logic.{Logic};
ghost use Rattle.gen_logic.specs.Recipes.{inputs_of, on_of, logic_ops, logic_length, logic_counts};
ghost use Rattle.gen_logic.specs.Laws.{RealisesLogic, RealisesLogicBits};

use bit_laws::Width;
use micro_ir::{MASK_ROW, MicroBuf, Place, RESULT_ROW, emit_clear, emit_commit, emit_everywhere};

// A table reads at most so many rows.
const MAX_ROWS: usize = 3;

/// A kind that makes each bit of its result of the bits of rows at that place.
#[derive(Clone, Copy, Debug, PartialEq, Eq)]
pub enum Logic {
    And,
    Or,
    Xor,
    Nand,
    Nor,
    Xnor,
    /// Row a, and the complement of row b.
    Andn,
    /// Row a, or the complement of row b.
    Orn,
    /// Row a.
    First,
    /// Row b.
    Second,
    /// Row b where the mask bit is 1, and else row a.
    Merge,
}

// The rows that a kind reads, and how many they are.
fn inputs(kind: Logic, a: u8, b: u8) -> ([u8; MAX_ROWS], usize)
    ensures rows { take result.1 result.0 ≡ inputs_of kind a b }
    ensures few { result.1 ≤ 3 }
{
    match kind {
        Logic::First => ([a, 0, 0], 1),
        Logic::Second => ([b, 0, 0], 1),
        Logic::Merge => ([MASK_ROW, a, b], 3),
        Logic::And
        | Logic::Or
        | Logic::Xor
        | Logic::Nand
        | Logic::Nor
        | Logic::Xnor
        | Logic::Andn
        | Logic::Orn => ([a, b, 0], 2),
    }
}

// The values of those rows' bits, the first row lowest, that give 1.
fn on(kind: Logic) -> &'static [u8]
    ensures { result.now ≡ on_of kind }
{
    match kind {
        Logic::And => &[3],
        Logic::Or => &[1, 2, 3],
        Logic::Xor => &[1, 2],
        Logic::Nand => &[0, 1, 2],
        Logic::Nor => &[0],
        Logic::Xnor => &[0, 3],
        Logic::Andn | Logic::First | Logic::Second => &[1],
        Logic::Orn => &[0, 1, 3],
        Logic::Merge => &[2, 5, 6, 7],
    }
}

// Appends the step that makes a kind's bits in the result row, which is clear.
fn emit_made(buf: &mut MicroBuf, kind: Logic, a: u8, b: u8)
    requires a { IsOperandRow a }
    requires b { IsOperandRow b }
    requires room { length (on_of kind) + 1 ≤ buf.old.spare }
    ensures ops { (w : ℕ) → 0 < w → buf.new.ops
        ≡ buf.old.ops ++ micro w (everywhere w (inputs_of kind a b) (on_of kind) result_row true) }
    ensures spare { buf.new.spare + (length (on_of kind) + 1) ≡ buf.old.spare }
{
    let (rows, count) = inputs(kind, a, b);
    emit_everywhere(buf, &rows[..count], on(kind), RESULT_ROW);
}

/// Appends what puts a kind of rows `at.a` and `at.b` into the active elements of register `at.to`
/// (vector extension 1.0, sections 11.5, 11.15, 11.16 and 15.1). An operand row is a register or the
/// row of the mask bits, of the scalar or of a wide operand. It uses the result row. There are no
/// errors.
pub fn emit_logic<W: Width>(buf: &mut MicroBuf, at: &Place, kind: Logic)
    requires a { IsOperandRow at.now.a }
    requires b { IsOperandRow at.now.b }
    requires to { at.now.to < 32 }
    requires room { logic_length kind ≤ buf.old.spare }
    ensures ops { (w : ℕ) → 0 < w → buf.new.ops ≡ buf.old.ops ++ logic_ops kind w at.now }
    ensures spare { buf.new.spare + logic_length kind ≡ buf.old.spare }
    ensures realises { RealisesLogic kind W.BITS at.now }
    ensures bits { (w : ℕ) → RealisesLogicBits kind w at.now }
    ensures cost { (w : ℕ) → Measured (logic_counts kind) (logic_length kind) (logic_ops kind w at.now) }
{
    emit_clear(buf, RESULT_ROW);
    emit_made(buf, kind, at.a, at.b);
    emit_commit(buf, RESULT_ROW, at.to);
}

/// Does nothing. It shows that no list of a kind is longer.
pub fn logic_length_law()
    ensures { (kind : Logic) → logic_length kind ≤ 11 }
{}
