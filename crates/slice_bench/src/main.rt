//! Times the operations of a chain, its networks and its tree. A line of the input names an operation, the columns of the
//! chain (1 to 2,048) and how often it is made in a batch, as in `search 2048 1000`. It gets the operation, the columns, the
//! bytes that the operation reads and writes at least, and the least processor time of five batches in nanoseconds for one
//! operation, as `search 2048 bytes 16384 nanoseconds 500`. No time is given where an operation is not made at all. A line
//! of another form gets `form`.
//!
//! `search` has one key, `keys` three, `join` one key whose match joins the tags; `pass` goes up and down in turn; `window`
//! and `bytes` mark elements of 32 and 8 bits, `masked` those of 8 bits under a mask, `mask` bits under a mask, `free` the
//! free elements of 8 bits under a mask; `pack` packs a mask of elements of 8 bits; `count`, `any` and `first` ask the tree.
#![tactic(auto)]

mod acts;
mod operations;

use acts::act;
use cam_chain::Chain;
use operations::{Asked, asked_in, bytes_of};
use std::alloc::{AllocError as NoMemory, Global};
use std::io;
use std::io::{BufRead, BufReader};
use std::time::CpuClock;

// Batches, of which the least time is given.
const BATCHES: u32 = 5;

fn main(rt: HostRuntime) -> io::Result<()> {
    let alloc = rt.alloc();
    for line in BufReader::new(alloc, rt.stdin())?.lines(alloc) {
        let line = line?;
        match asked_in(line.as_str()) {
            Some(asked) => {
                let bytes = bytes_of(&asked);
                match least_time(&rt, alloc, &asked)? {
                    Some(time) => println!(rt;
                        "{} {} bytes {bytes} nanoseconds {time}",
                        asked.name, asked.columns
                    )?,
                    None => println!(rt; "{} {} bytes {bytes}", asked.name, asked.columns)?,
                }
            }
            None => println!(rt; "form")?,
        }
    }
    Ok(())
}

// The least time of some batches, for one operation of a batch; `None` where a batch has none.
fn least_time(
    clock: &impl CpuClock,
    alloc: Global,
    asked: &Asked<'_>,
) -> Result<Option<u128>, NoMemory> {
    if asked.columns == 0 || asked.columns > 2048 || asked.times == 0 {
        return Ok(None);
    }
    let mut chain = Chain::new(alloc, asked.columns)?;
    let mut least = u128::MAX;
    for _ in 0..BATCHES {
        let start = now(clock);
        for turn in 0..asked.times {
            act(&mut chain, asked.operation, turn);
        }
        least = least.min(now(clock).saturating_sub(start));
    }
    Ok(Some(least / u128::from(asked.times)))
}

// The processor time of this program in nanoseconds, 0 where it is not known.
fn now(clock: &impl CpuClock) -> u128 {
    match clock.process_cpu_time() {
        Ok(time) => time.as_nanos(),
        Err(_) => 0,
    }
}
