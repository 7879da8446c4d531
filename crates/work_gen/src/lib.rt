//! Workloads: programs that are made from a seed and a size, and the image of any program.
#![tactic(auto)]

ghost use Rattle.std.specs.Prelude.{◌≡◌, ◌≤◌, ◌+◌, ◌*◌, None, IfOk, length};
ghost use Rattle.elf_load.specs.Faults.{fault};
ghost use Rattle.work_gen.specs.Images.{image_size, workload};

mod draws;
mod image;
mod program;
mod words;

use guest_mem::ByteList;
pub use image::{MOST_WORDS, SEGMENT, image_of};
use program::program;
use std::alloc::{AllocError as NoMemory, Global};

/// The image of the workload of a seed, with so many blocks of a setting and a vector instruction.
pub fn make(alloc: Global, seed: u64, size: u32) -> Result<ByteList, NoMemory>
    requires least { 1 ≤ size }
    requires most { size ≤ 4096 }
    ensures bytes { IfOk result (λ image. image ≡ workload seed size) }
    ensures size { IfOk result (λ image. length image ≡ image_size (99 + 2 * size)) }
    // A loader takes it.
    ensures loads { IfOk result (λ image. fault image ≡ None) }
{
    Ok(ByteList::new(image_of(alloc, &program(alloc, seed, size)?)?))
}
