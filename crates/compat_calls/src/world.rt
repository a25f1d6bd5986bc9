//! A process with its memory, and the kernel behind it.

use crate::region::CallRegion;
use kernel_values::OutOfMemory;
use native_kernel::{Identity, Kernel};
use std::alloc::Global;
use user_memory::UserMemory;

/// A process and the kernel behind it.
#[derive(Drop)]
pub struct World {
    pub memory: UserMemory,
    pub kernel: Kernel,
    /// What calls translate in.
    pub region: CallRegion,
    /// The return address of signal handlers whose action gives none.
    pub restorer: u32,
}

impl World {
    ghost use Rattle.std.specs.Prelude.{◌≡◌, ◌<◌, ◌^◌, IfOk};
    ghost use Rattle.compat_calls.specs.World.{started_world};

    /// A process without a page of memory, at the start.
    pub fn new(alloc: Global, identity: &Identity, restorer: u32) -> Result<World, OutOfMemory>
        requires real_in_range { identity.now.real < 2 ^ 62 }
        requires monotonic_in_range { identity.now.monotonic < 2 ^ 62 }
        ensures { IfOk result (λ w. w ≡ started_world identity.now restorer) }
    {
        Ok(World {
            memory: UserMemory::new(alloc)?,
            kernel: Kernel::new(alloc, identity)?,
            region: CallRegion::new(alloc)?,
            restorer,
        })
    }
}
