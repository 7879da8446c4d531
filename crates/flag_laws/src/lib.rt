//! Lists that leave the flag of clipped results. It holds no code that runs; each function here is a law.
#![tactic(auto)]

ghost use Rattle.std.specs.Prelude.{◌≡◌, ℕ, Bool, false, List};
ghost use Rattle.bit_rows.specs.Slices.{Slices};
ghost use Rattle.micro_ir.specs.Replay.{clips};
ghost use Rattle.micro_ir.specs.Steps.{Step, micro, micros};
ghost use Rattle.micro_ir.specs.Tables.{rows_list, step_list};
ghost use Rattle.micro_ir.specs.declared.tables.TableStep.{TableStep};

/// A step, and a list of steps, leave the flag, whatever the slices hold. The pieces that clear, commit,
/// broadcast and increment are such lists, and so are the lists of logic, sums, comparisons, shifts,
/// products, quotients and averages.
pub fn steps_flag_law()
    ensures step { (w : ℕ) (step : Step) (s : Slices) → clips (micro w step) s ≡ false }
    ensures steps { (w : ℕ) (steps : List Step) (s : Slices) → clips (micros w steps) s ≡ false }
{}

/// So do the operations of a table step: of rows that are apart, and of any rows.
pub fn tables_flag_law()
    ensures apart { (step : TableStep) (s : Slices) → clips (step_list step) s ≡ false }
    ensures any { (subs : ℕ) (inputs on : List ℕ) (out : ℕ) (up : Bool) (times : ℕ) (s : Slices)
        → clips (rows_list subs inputs on out up times) s ≡ false }
{}
