//! Whose process it is, what it has used, and how it ended.

ghost use Rattle.std.specs.Prelude.{◌≡◌};
ghost use Rattle.kernel_values.specs.Outcome.{Tells};
ghost use Rattle.native_kernel.specs.Operations.{credentials, end_of, finish, usage};

use crate::state::Kernel;
use kernel_values::{Credentials, End, Errno, Usage};

impl Kernel {
    /// The numbers of the process, its user and its group.
    #[tactic(auto, unfolding(crate::specs::Operations::credentials))]
    pub fn credentials(&self) -> Credentials
        ensures { result ≡ credentials self.now }
    {
        let process = &self.process;
        Credentials {
            pid: process.pid,
            uid: process.uid,
            gid: process.gid,
        }
    }

    /// What the process (0), its thread (1) or its children (-1), of which there are none, have used.
    /// EINVAL for any other number.
    #[tactic(auto, unfolding(crate::specs::Operations::usage))]
    pub fn usage(&self, who: i64) -> Result<Usage, Errno>
        ensures { Tells result (usage self.now who) }
    {
        match who {
            0 | 1 => Ok(self.process.usage),
            -1 => Ok(Usage { words: [0; 18] }),
            _ => Err(Errno::InvalidArgument),
        }
    }

    /// How the process ended. None where it hasn't.
    pub fn ended(&self) -> Option<End>
        ensures { result ≡ end_of self.now }
    {
        self.ended
    }

    /// Ends the process: its descriptors are closed in ascending order, and its timer stops. It takes no memory.
    #[tactic(auto, unfolding(crate::specs::Operations::finish))]
    pub fn finish(&mut self, end: End)
        ensures { self.new ≡ finish self.old end }
    {
        self.clocks.stop_timer();
        self.files.close_all();
        self.ended = Some(end);
    }
}
