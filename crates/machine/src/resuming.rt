// A machine that trapped goes on, with more of the guest's memory mapped.
ghost use Rattle.std.specs.Prelude.{◌≡◌, IfOk, OnOk, OnErr, is_none};
ghost use Rattle.std.specs.FinMap as finite;
ghost use Rattle.guest_mem.specs.Pages.{page_of};
ghost use Rattle.machine.specs.Resuming.{resumed, mapped, ResumeLaw};

use crate::parts::Machine;
use rvv_meaning::Mode;
use std::alloc::{AllocError as NoMemory, Global};

impl Machine {
    /// A machine that trapped runs again, at the same pc and the same first element. Any other stays as it is.
    pub fn resume(&mut self)
        ensures { self.new ≡ record self.old { core = resumed self.old.core } }
    {
        if let Mode::Trapped(_) = self.mode {
            self.mode = Mode::Running;
        }
    }

    /// Adds the page of an address to the guest's memory, zero, readable and writable. False where it was there already.
    /// Where memory is wanting nothing changes.
    pub fn map(&mut self, alloc: Global, address: u32) -> Result<bool, NoMemory>
        ensures added { IfOk result (λ added. added ≡ is_none (finite.get self.old.core.mem.pages (page_of address))) }
        ensures page { OnOk result (self.new ≡ record self.old { core = mapped address self.old.core }) }
        ensures kept { OnErr result (self.new ≡ self.old) }
    {
        self.mem.map(alloc, address)
    }
}

/// A machine that trapped at a load or a store goes on: once a page was mapped and it runs again, its next step comes to where
/// one step comes that has the page mapped before.
pub fn resume_law()
    ensures law { ResumeLaw }
{}
