// The counts of calls and of faults.
ghost use Rattle.std.specs.Prelude.{◌≡◌, ◌↔◌, IsErr, OnOk, OnErr, IsTrue, Contains};
ghost use Rattle.cape_io.specs.Devices.{Rose, one_fault_more};
ghost use Rattle.cape_io.specs.States.{next_call};

use crate::Failed;

// Counts a fault, up to the last number of the type.
pub(crate) fn count_fault(faults: &mut u64) -> Failed
    ensures { Rose faults.old faults.new }
{
    *faults = faults.saturating_add(1);
    Failed
}

// Whether the call of this number is listed.
fn is_listed(fails: &[u64], call: u128) -> bool
    ensures { IsTrue result ↔ Contains fails.now call }
{
    fails.iter().any(|listed| u128::from(*listed) == call)
}

/// The number of the next call, from 0, and the faults so far.
#[derive(Clone, Copy)]
pub(crate) struct Counts {
    // Wider than the numbers of a list, so that no call is listed where this stops.
    pub(crate) calls: u128,
    pub(crate) faults: u64,
}

impl Counts {
    pub(crate) fn new() -> Counts
        ensures calls { result.calls ≡ 0 }
        ensures faults { result.faults ≡ 0 }
    {
        Counts {
            calls: 0,
            faults: 0,
        }
    }

    // Counts a call, and answers its number.
    pub(crate) fn begin(&mut self) -> u128
        ensures number { result ≡ self.old.calls }
        ensures after { self.new ≡ record self.old { calls = next_call self.old.calls } }
    {
        let call = self.calls;
        self.calls = call.saturating_add(1);
        call
    }

    // Counts a fault.
    pub(crate) fn fault(&mut self) -> Failed
        ensures after { self.new ≡ record self.old { faults = one_fault_more self.old.faults } }
        ensures rose { Rose self.old.faults self.new.faults }
    {
        count_fault(&mut self.faults)
    }

    // Counts a call, which fails where its number is listed.
    pub(crate) fn call(&mut self, fails: &[u64]) -> Result<(), Failed>
        ensures listed { IsErr result ↔ Contains fails.now self.old.calls }
        ensures calls { self.new.calls ≡ next_call self.old.calls }
        ensures quiet { OnOk result (self.new.faults ≡ self.old.faults) }
        ensures rose { OnErr result (Rose self.old.faults self.new.faults) }
    {
        let call = self.begin();
        if is_listed(fails, call) {
            return Err(self.fault());
        }
        Ok(())
    }
}
