//! Laws of the first fault.

ghost use Rattle.kern_view.specs.Laws.{FaultLaw};

/// There is at most one first fault of the kernel's pages, and none where no rule fails, so that
/// `first_fault` answers exactly that.
pub fn fault_law()
    ensures { FaultLaw }
{}
