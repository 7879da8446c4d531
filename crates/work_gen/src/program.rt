// The program of a workload.
ghost use Rattle.std.specs.Prelude.{◌≡◌, ◌++◌, IfOk, OnOk};
ghost use Rattle.work_gen.specs.Draws.{state_after};
ghost use Rattle.work_gen.specs.Words.{blocks, fillings, filled_registers, program as program_of};

use crate::draws::Draws;
use crate::words::{ENDING, WORD_SETTING, block, filling};
use std::alloc::{AllocError as NoMemory, Global};

// The vector registers.
const REGISTERS: u32 = 32;

// Appends what gives the vector registers their content, but the first.
#[tactic(auto, using(crate::proofs::Programs::filling_steps))]
fn push_fillings(words: &mut Vec<u32>, draws: &mut Draws) -> Result<(), NoMemory>
    ensures words { OnOk result (words.new.items ≡ words.old.items ++ fillings filled_registers 1 draws.old.state) }
    ensures draws { OnOk result (draws.new.state ≡ state_after filled_registers draws.old.state) }
{
    for r in 1..REGISTERS {
        words.extend_from_slice(filling(draws.draw(), r).as_slice())?;
    }
    Ok(())
}

// Appends some blocks.
#[tactic(auto, using(crate::proofs::Programs::block_steps))]
fn push_blocks(words: &mut Vec<u32>, draws: &mut Draws, size: u32) -> Result<(), NoMemory>
    ensures { OnOk result (words.new.items ≡ words.old.items ++ blocks size draws.old.state) }
{
    for _ in 0..size {
        words.extend_from_slice(block(draws).as_slice())?;
    }
    Ok(())
}

/// The words of the workload of a seed with so many blocks.
#[tactic(auto, unfolding(crate::specs::Words::program))]
pub fn program(alloc: Global, seed: u64, size: u32) -> Result<Vec<u32>, NoMemory>
    ensures { IfOk result (λ words. words.items ≡ program_of seed size) }
{
    let mut draws = Draws { state: seed };
    let mut words = Vec::new(alloc);
    words.push(WORD_SETTING)?;
    push_fillings(&mut words, &mut draws)?;
    push_blocks(&mut words, &mut draws, size)?;
    words.extend_from_slice(ENDING.as_slice())?;
    Ok(words)
}
