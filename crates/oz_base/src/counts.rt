// The counts that a source and a sink keep: of their calls, and of their faults.
ghost use Rattle.std.specs.Prelude.{◌≡◌, ◌↔◌, IsTrue};
ghost use Rattle.oz_base.specs.Streams.{HasRisen};
ghost use Rattle.oz_base.specs.Counts.{NextIsListed, one_more};

use crate::Failed;

// Counts a call, and says whether it is one of those that fail. Past the last number none fails.
pub(crate) fn count_call(calls: &mut u64, failing: &[u64]) -> bool
    ensures calls { calls.new ≡ one_more calls.old }
    ensures fails { IsTrue result ↔ NextIsListed failing.now calls.old }
{
    if *calls == u64::MAX {
        return false;
    }
    *calls += 1;
    failing.contains(calls)
}

// Counts a fault, up to the last value of the count, and gives the error to answer.
pub(crate) fn count_fault(faults: &mut u64) -> Failed
    ensures rose { HasRisen faults.old faults.new }
    ensures faults { faults.new ≡ one_more faults.old }
{
    *faults = faults.saturating_add(1);
    Failed
}
