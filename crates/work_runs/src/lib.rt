//! The runs of workloads: each one ends by itself. It holds no code that runs; its one function is
//! a law.
#![tactic(auto)]

ghost use Rattle.work_runs.specs.Runs.{WorkloadLaw};

/// The guest of every workload exits with the last of its words, and does so under every length of
/// the vector registers.
pub fn workload_law()
    ensures law { WorkloadLaw }
{}
