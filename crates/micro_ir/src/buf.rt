ghost use Rattle.std.specs.Prelude.{◌≡◌, ◌+◌, ◌^◌, ◌<◌, ◌≤◌, [], ◌∷◌, ◌++◌, length, IfOk};
ghost use Rattle.micro_ir.specs.Replay.{counts_in, counts_and, tally};

use crate::op::MicroOp;
use cam_chain::Counts;
use std::alloc::{AllocError as NoMemory, Global};
use std::marker::Model;

/// A list of micro-operations, and how many more it has room for.
#[derive(Drop)]
pub struct MicroBuf {
    ops: Vec<MicroOp>,
    spare: u32,
}

impl Model for MicroBuf {
    ghost use Rattle.std.specs.Prelude.{◌+◌, ◌≤◌, vec_len, vec_capacity};
    ghost use Rattle.micro_ir.specs.BufValue.{BufValue};

    ghost Value = { BufValue };

    ghost view = { λ b. record { ops = b.ops.items; spare = b.spare } };

    ghost invariant = { λ b. record {
      has_room : vec_len b.ops + b.spare ≤ vec_capacity b.ops;
      small : vec_len b.ops + b.spare ≤ 262144;
    } };
}

impl MicroBuf {
    /// A list of no operations with room for `cap`.
    pub fn new(alloc: Global, cap: u32) -> Result<MicroBuf, NoMemory>
        requires { cap ≤ 262144 }
        ensures ops { IfOk result (λ b. b.ops ≡ []) }
        ensures spare { IfOk result (λ b. b.spare ≡ cap) }
    {
        Ok(MicroBuf {
            ops: Vec::with_capacity(alloc, cap as usize)?,
            spare: cap,
        })
    }

    /// Appends an operation. This takes no memory.
    pub fn push(&mut self, op: MicroOp)
        requires { 0 < self.old.spare }
        ensures ops { self.new.ops ≡ self.old.ops ++ op ∷ [] }
        ensures spare { self.new.spare + 1 ≡ self.old.spare }
    {
        match self.ops.push(op) {
            Ok(()) => self.spare -= 1,
            Err(_) => unreachable!(),
        }
    }

    /// The operations in their order.
    pub fn ops(&self) -> &[MicroOp]
        ensures value { result.now ≡ self.now.ops }
        ensures few { length result.now + self.now.spare ≤ 262144 }
    {
        self.ops.as_slice()
    }

    /// The searches, updates and passes of the operations.
    pub fn tally(&self) -> Counts
        ensures { result ≡ tally self.now.ops }
    {
        let mut counts = Counts {
            searches: 0,
            updates: 0,
            passes: 0,
        };
        for op in self.ops() {
            add(&mut counts, op);
        }
        counts
    }

    /// How many more operations there is room for.
    pub fn spare(&self) -> u32
        ensures { result ≡ self.now.spare }
    {
        self.spare
    }

    /// Drops the operations, and the room that they took is spare again. This neither takes nor
    /// gives back memory.
    pub fn clear(&mut self)
        ensures ops { self.new.ops ≡ [] }
        ensures spare { self.new.spare ≡ length self.old.ops + self.old.spare }
    {
        self.spare += self.ops.len() as u32;
        self.ops.clear();
    }
}

/// Counts one operation more.
fn add(counts: &mut Counts, op: &MicroOp)
    requires searches { counts.old.searches < 2 ^ 100 }
    requires updates { counts.old.updates < 2 ^ 100 }
    requires passes { counts.old.passes < 2 ^ 100 }
    ensures value { counts.new ≡ counts_and counts.old (counts_in op.now) }
    ensures searches { counts.new.searches ≤ counts.old.searches + 255 }
    ensures updates { counts.new.updates ≤ counts.old.updates + 255 }
    ensures passes { counts.new.passes ≤ counts.old.passes + 255 }
{
    match op {
        MicroOp::Search { .. } => counts.searches += 1,
        MicroOp::Update { .. } | MicroOp::UpdateBy { .. } => counts.updates += 1,
        MicroOp::Pass { times, .. } => counts.passes += u128::from(*times),
        _ => {}
    }
}
