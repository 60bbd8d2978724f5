// The one error of the outside.
ghost use Rattle.std.specs.Prelude.{◌≤◌};
ghost use Rattle.edge.specs.Risen.{HasRisen};

use thiserror::Error;

/// A call on the outside failed, and its object's count of faults rose.
#[derive(Clone, Copy, Debug, PartialEq, Eq, Error)]
#[error("the device failed")]
pub struct Failed;

/// One more fault. The count stays at its last value.
pub(crate) fn raise(faults: &mut u64) -> Failed
    ensures risen { HasRisen faults.old faults.new }
    ensures never_falls { faults.old ≤ faults.new }
{
    *faults = faults.saturating_add(1);
    Failed
}
