//! A case: the slices that a list starts from, and the list.
use crate::slices::{push_slices, set_row};
use cam_chain::Chain;
use micro_ir::{Control, MicroBuf, replay};
use op_texts::{are_in_range, op_of};
use std::alloc::{AllocError, Global};
use std::fmt::Write;

// The most operations of a list.
const ROOM: u32 = 4096;

// The most columns of a chain.
const MOST_COLUMNS: u32 = bit_rows::MAX_COLUMNS as u32;

const DECIMAL: u32 = 10;

/// A chain, the operations that are carried out on it, and whether each line so far had its form.
#[derive(Drop)]
pub(crate) struct Case {
    chain: Chain,
    buf: MicroBuf,
    is_sound: bool,
}

impl Case {
    /// A case of one column and no operations.
    pub(crate) fn new(alloc: Global) -> Result<Case, AllocError> {
        Ok(Case {
            chain: Chain::new(alloc, 1)?,
            buf: MicroBuf::new(alloc, ROOM)?,
            is_sound: true,
        })
    }

    /// Takes the words of a line.
    pub(crate) fn take_line(&mut self, alloc: Global, words: &[&str]) -> Result<(), AllocError> {
        let is_read = match words {
            [first, rest @ ..] if *first == "columns" => self.begin(alloc, rest)?,
            [first, rest @ ..] if *first == "row" => set_row(&mut self.chain, rest).is_some(),
            _ => self.push(words),
        };
        self.is_sound = self.is_sound && is_read;
        Ok(())
    }

    // Begins a case, and tells whether it may have so many columns.
    fn begin(&mut self, alloc: Global, words: &[&str]) -> Result<bool, AllocError> {
        self.is_sound = true;
        self.buf.clear();
        let [columns] = words else {
            return Ok(false);
        };
        match u32::from_str_radix(columns, DECIMAL) {
            Ok(columns) if 1 <= columns && columns <= MOST_COLUMNS => {
                self.chain = Chain::new(alloc, columns)?;
                Ok(true)
            }
            _ => Ok(false),
        }
    }

    // Appends the operation of a line, and tells whether it is one and there is room for it.
    fn push(&mut self, words: &[&str]) -> bool {
        match op_of(words) {
            Some(op) if self.buf.spare() > 0 => {
                self.buf.push(op);
                true
            }
            _ => false,
        }
    }

    // Carries out the operations, and tells whether the chain can.
    fn is_carried_out(&mut self, control: &mut Control) -> bool {
        let counts = self.chain.counts();
        let is_counted = counts.searches > 0 || counts.updates > 0 || counts.passes > 0;
        if is_counted || !self.is_sound || !are_in_range(self.chain.columns(), self.buf.ops()) {
            return false;
        }
        let count = self.buf.ops().len() as u32;
        replay(&mut self.chain, control, &self.buf, count);
        true
    }

    /// Carries out the operations, and tells what they leave.
    pub(crate) fn report(&mut self, alloc: Global) -> Result<String, AllocError> {
        let mut text = String::new(alloc);
        let mut control = Control {
            num: 0,
            clip: false,
        };
        if self.is_carried_out(&mut control) {
            push_slices(&mut text, &self.chain)?;
            let clip = u8::from(control.clip);
            writeln!(text, "control {} {clip}", control.num)?;
        } else {
            text.push_str("form\n")?;
        }
        Ok(text)
    }
}
