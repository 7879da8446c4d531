// The rounding modes: what each adds to a quotient that is rounded down (vector extension 1.0, section
// 3.8).
ghost use Rattle.std.specs.Prelude.{◌≡◌, ◌≢◌, ◌+◌, ◌^◌, ◌<◌, ◌≤◌, ◌++◌};
ghost use Rattle.micro_ir.specs.Increments.{step_inputs, lowest_subs};
ghost use Rattle.micro_ir.specs.Steps.{micros};
ghost use Rattle.micro_ir.specs.Tables.{values_of};
ghost use Rattle.gen_shift.specs.Kinds.{adding_length};
ghost use Rattle.gen_shift.specs.Lists.{mode_on, mode_rows, mode_steps};
ghost use Rattle.gen_shift.specs.Laws.{AddsMode, AreModeRows};

use bit_laws::Width;
use micro_ir::{CARRY_ROW, MicroBuf, TableStep, emit_increment, lanes};

/// The mode that rounds down: it adds nothing.
pub const DOWN: u8 = 2;

// The mode that rounds to the nearest, a tie up; and the one that rounds a tie to the even one.
const NEAREST_UP: u8 = 0;

const NEAREST_EVEN: u8 = 1;

// The step that makes the bit that a mode adds: its rows, and the values of their bits, the first row
// lowest, where that bit is 1.
fn mode_step<W: Width>(mode: u8, quotient: u8, last: u8, more: u8) -> TableStep
    requires mode { mode ≤ 3 }
    requires adds { mode ≢ 2 }
    ensures inputs { step_inputs result ≡ mode_rows mode quotient last more }
    ensures values { values_of result.on ≡ mode_on mode }
    ensures few { result.n ≤ 4 }
    ensures small { result.on < 2 ^ 2 ^ result.n }
    ensures out { result.out ≡ 35 }
    ensures lowest { result.subs ≡ lowest_subs W.BITS }
    ensures still { result.times ≡ 0 }
{
    let all = [quotient, last, more, 0];
    let (inputs, n, on) = match mode {
        NEAREST_UP => ([last, 0, 0, 0], 1, 1 << 1),
        NEAREST_EVEN => (all, 3, 1 << 3 | 1 << 6 | 1 << 7),
        _ => (all, 3, 1 << 2 | 1 << 4 | 1 << 6),
    };
    TableStep {
        inputs,
        n,
        on,
        out: CARRY_ROW,
        subs: lanes::<W>(0, 1),
        up: true,
        times: 0,
    }
}

/// Appends what adds to each element of the row `quotient`, which is rounded down, what a rounding mode
/// adds: the result row gets the sum. The lowest bit of each element of the row `last` is the highest
/// bit below the quotient, and that of the row `more` tells whether a lower one is 1 (vector extension
/// 1.0, section 3.8). There are no errors.
pub fn emit_mode<W: Width>(buf: &mut MicroBuf, mode: u8, quotient: u8, last: u8, more: u8)
    requires mode { mode ≤ 3 }
    requires adds { mode ≢ 2 }
    requires rows { AreModeRows quotient last more }
    requires room { adding_length mode W.BITS ≤ buf.old.spare }
    ensures ops { buf.new.ops
        ≡ buf.old.ops ++ micros W.BITS (mode_steps W.BITS mode quotient last more) }
    ensures spare { buf.new.spare + adding_length mode W.BITS ≡ buf.old.spare }
    ensures adds { AddsMode W.BITS mode quotient last more
        (micros W.BITS (mode_steps W.BITS mode quotient last more)) }
{
    let step = mode_step::<W>(mode, quotient, last, more);
    emit_increment::<W>(buf, quotient, &step);
}
