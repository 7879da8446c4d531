//! Chains made of words, and lists that are carried out on them.
use cam_chain::{Chain, Counts};
use micro_ir::{Control, MicroBuf, MicroOp, replay};
use op_texts::{ROWS, are_in_range};
use reduce_tree::How;
use std::alloc::Global;
use std::test::Fail;

// The most columns of a chain.
const MOST_COLUMNS: u32 = 2048;

// The control number, which lists leave that do not compute it.
const NUMBER: u64 = 7;

/// Numbers of searches, updates and passes.
pub(crate) type Cost = (u128, u128, u128);

/// A row, a column, and the word that stands there.
#[derive(Clone, Copy)]
pub(crate) struct Word(pub(crate) u8, pub(crate) u32, pub(crate) u32);

/// A chain before a list and after it: the number of its columns, words that it holds, and whether the flag of clipped
/// results is set.
#[derive(Clone, Copy)]
pub(crate) struct Trial {
    pub(crate) columns: u32,
    pub(crate) before: &'static [Word],
    pub(crate) after: &'static [Word],
    pub(crate) clips: bool,
}

/// A chain that holds the words.
pub(crate) fn chain_of(alloc: Global, columns: u32, words: &[Word]) -> Result<Chain, Fail> {
    if columns == 0 || columns > MOST_COLUMNS {
        return Err("a number of columns".into());
    }
    let mut chain = Chain::new(alloc, columns)?;
    for Word(row, column, word) in words {
        if *row >= ROWS || *column >= chain.columns() {
            return Err("a place of the chain".into());
        }
        chain.write_word(*row, *column, *word);
    }
    Ok(chain)
}

/// Whether the chain holds the words.
pub(crate) fn holds(chain: &Chain, words: &[Word]) -> bool {
    for Word(row, column, word) in words {
        if *row >= ROWS || *column >= chain.columns() || chain.read_word(*row, *column) != *word {
            return false;
        }
    }
    true
}

// Whether an operation leaves the control number.
const fn leaves_number(op: &MicroOp) -> bool {
    match op {
        MicroOp::SetNum { .. } | MicroOp::First => false,
        MicroOp::Count { how, .. } => matches!(how, How::Clip),
        _ => true,
    }
}

/// Carries out the first operations of a list on a chain that nothing was counted on, and tells whether it could, left the
/// control number where no operation computes it, and set the flag of clipped results where `clips` says so.
fn is_carried_out(chain: &mut Chain, buf: &MicroBuf, first: usize, clips: bool) -> bool {
    let counts = chain.counts();
    let counted = counts.searches > 0 || counts.updates > 0 || counts.passes > 0;
    let ops = buf.ops();
    if counted || first > ops.len() || !are_in_range(chain.columns(), &ops[..first]) {
        return false;
    }
    let mut control = Control {
        num: NUMBER,
        clip: false,
    };
    replay(chain, &mut control, buf, first as u32);
    let left = control.num == NUMBER || !ops[..first].iter().all(leaves_number);
    left && control.clip == clips
}

/// What the first operations of a list cost, in searches, updates and passes, or `None` where they leave other words than
/// those of the trial, or another flag.
pub(crate) fn cost_of(
    alloc: Global,
    trial: &Trial,
    buf: &MicroBuf,
    first: usize,
) -> Result<Option<Cost>, Fail> {
    let mut chain = chain_of(alloc, trial.columns, trial.before)?;
    let ends = is_carried_out(&mut chain, buf, first, trial.clips) && holds(&chain, trial.after);
    Ok(ends.then_some(cost_in(chain.counts())))
}

/// The searches, updates and passes of counts.
pub(crate) fn cost_in(counts: Counts) -> Cost {
    (counts.searches, counts.updates, counts.passes)
}
