// Vector loads and stores.
ghost use Rattle.std.specs.Prelude.{◌≡◌, ◌+◌, ◌<◌, ◌≤◌, ◌^◌, [], true};
ghost use Rattle.cape_io.specs.Views.{DeviceViews};
ghost use Rattle.rvv_decode.specs.declared.instruction.VOp.TheVariants.{Memory};
ghost use Rattle.rvv_meaning.specs.declared.Meaning.TheVariants.{Vector};
ghost use Rattle.rvv_meaning.specs.declared.Next.TheVariants.{Perform};
ghost use Rattle.rvv_meaning.specs.States.{next, vtype_at};
ghost use Rattle.rvv_meaning.specs.VectorAccesses.{is_store, reads_memory, writes_memory};
ghost use Rattle.vtype_cfg.specs.Settings.{vlmax};
ghost use Rattle.machine.specs.Accessing.{core_ended};
ghost use Rattle.machine.specs.Carrying.{CarriesTaking};
ghost use Rattle.machine.specs.Fields.{VectorFits};

use crate::parts::Machine;
use rvv_decode::{MemoryOp, VInstr};
use vec_mem::{VecFault, load, store};
use vtype_cfg::Cfg;

// Whether an instruction writes memory.
#[tactic(auto, unfolding(rvv_meaning::specs::VectorAccesses::is_store))]
fn is_store(op: MemoryOp) -> bool
    ensures { result ≡ is_store op }
{
    matches!(
        op,
        MemoryOp::StoreUnitStride
            | MemoryOp::StoreWholeRegister
            | MemoryOp::StoreMask
            | MemoryOp::StoreIndexedUnordered
            | MemoryOp::StoreStrided
            | MemoryOp::StoreIndexedOrdered
    )
}

impl Machine {
    // Ends a load or a store that left this configuration: it retires, or it traps.
    fn end_access(&mut self, cfg: &Cfg, end: Result<(), VecFault>)
        requires most { cfg.now.vl ≤ vlmax (vtype_at self.old.core) self.old.core.csrs.vlen }
        requires starts { cfg.now.vstart < self.old.core.csrs.vlen }
        requires count { self.old.core.csrs.retired < 2 ^ 63 }
        ensures { self.new ≡ record self.old { core = core_ended end cfg.now self.old.core } }
    {
        self.csrs.vl = cfg.vl;
        self.csrs.vstart = cfg.vstart;
        match end {
            Ok(()) => self.retire_to(self.next_pc()),
            Err(fault) => self.stop(self.trap(fault.cause, fault.address)),
        }
    }

    // A load, whose base and stride scalar registers hold.
    fn load(&mut self, i: &VInstr)
        requires fits { VectorFits self.old.core i.now }
        requires load { reads_memory i.now.op ≡ true }
        requires there { next self.old.core ≡ Perform (Vector i.now) }
        requires empty { self.old.last ≡ [] }
        requires count { self.old.core.csrs.retired < 2 ^ 63 }
        ensures carries { (v : DeviceViews) → CarriesTaking self.old self.new [] (record { old = v; new = v }) }
        ensures count { self.new.core.csrs.retired ≤ self.old.core.csrs.retired + 1 }
        ensures length { self.new.core.csrs.vlen ≡ self.old.core.csrs.vlen }
    {
        let mut cfg = self.cfg();
        let base = self.regs.get(i.vs1);
        let stride = self.regs.get(i.vs2);
        let end = load(i, &mut cfg, base, stride, &mut self.chain, &self.mem);
        self.end_access(&cfg, end);
    }

    // A store, whose base and stride scalar registers hold.
    fn store(&mut self, i: &VInstr)
        requires fits { VectorFits self.old.core i.now }
        requires store { writes_memory i.now.op ≡ true }
        requires there { next self.old.core ≡ Perform (Vector i.now) }
        requires empty { self.old.last ≡ [] }
        requires count { self.old.core.csrs.retired < 2 ^ 63 }
        ensures carries { (v : DeviceViews) → CarriesTaking self.old self.new [] (record { old = v; new = v }) }
        ensures count { self.new.core.csrs.retired ≤ self.old.core.csrs.retired + 1 }
        ensures length { self.new.core.csrs.vlen ≡ self.old.core.csrs.vlen }
    {
        let mut cfg = self.cfg();
        let base = self.regs.get(i.vs1);
        let stride = self.regs.get(i.vs2);
        let end = store(i, &mut cfg, base, stride, &self.chain, &mut self.mem);
        self.end_access(&cfg, end);
    }

    // A load or a store.
    pub(crate) fn access(&mut self, op: MemoryOp, i: &VInstr)
        requires named { i.now.op ≡ Memory op }
        requires fits { VectorFits self.old.core i.now }
        requires there { next self.old.core ≡ Perform (Vector i.now) }
        requires empty { self.old.last ≡ [] }
        requires count { self.old.core.csrs.retired < 2 ^ 63 }
        ensures carries { (v : DeviceViews) → CarriesTaking self.old self.new [] (record { old = v; new = v }) }
        ensures count { self.new.core.csrs.retired ≤ self.old.core.csrs.retired + 1 }
        ensures length { self.new.core.csrs.vlen ≡ self.old.core.csrs.vlen }
    {
        if is_store(op) {
            self.store(i);
        } else {
            self.load(i);
        }
    }
}
