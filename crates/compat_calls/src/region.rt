//! The region that calls translate in.

ghost use Rattle.std.specs.Prelude.{◌≡◌, []};

use kernel_values::OutOfMemory;
use scratch_region::{Mark, Scratch};
use std::alloc::Global;
use std::marker::Model;

/// How many bytes of the region one call may take.
pub const REGION_SIZE: usize = 1_310_720;

/// The region that calls translate in. Nothing of it is taken between calls. A contract sees the most bytes that a call has taken.
#[derive(Debug, Drop)]
pub struct CallRegion {
    pub(crate) scratch: Scratch,
}

impl Model for CallRegion {
    ghost use Rattle.std.specs.Prelude.{ℕ};
    ghost use Rattle.compat_calls.specs.Ready.{IsReady};

    ghost Value = { ℕ };

    ghost view = { λ r. r.scratch.peak };

    ghost invariant = { λ r. IsReady r.scratch };
}

impl CallRegion {
    ghost use Rattle.std.specs.Prelude.{◌≡◌, IfOk};

    /// A region of which no call took anything yet.
    pub fn new(alloc: Global) -> Result<CallRegion, OutOfMemory>
        ensures { IfOk result (λ r. r ≡ 0) }
    {
        Ok(CallRegion {
            scratch: Scratch::new(alloc, REGION_SIZE)?,
        })
    }

    /// The most bytes that a call has taken.
    pub fn peak(&self) -> usize
        ensures { result ≡ self.now }
    {
        self.scratch.peak()
    }
}

/// Gives back all that is taken, also what a call left that ran out of memory.
pub(crate) fn release_all(scratch: &mut Scratch)
    ensures { scratch.new ≡ record scratch.old { taken = [] } }
{
    scratch.release_to(Mark { at: 0 });
}
