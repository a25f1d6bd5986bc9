//! The call of the kernel that sends bytes of a file.

ghost use Rattle.std.specs.Prelude.{◌≤◌, IfOk};
ghost use Rattle.kernel_values.specs.Outcome.{Gives};
ghost use Rattle.file_store.specs.Sending.{EndsInFile};
ghost use Rattle.native_kernel.specs.Operations.{send_file};

use crate::state::Kernel;
use file_store::Place;
use kernel_values::{Answer, TimeSpec};
use std::alloc::Global;

impl Kernel {
    /// Writes bytes of the file that `source` has open, from its position or from an offset on, to what `target` has open, at most `count`;
    /// with a `narrow` offset none from byte 2^31 - 1 on. It gives how many. From its position on the source's position moves by as
    /// many; an offset is the caller's.
    ///
    /// EBADF where the target isn't open for writing, and then where the source isn't open for reading; EINVAL for an offset below 0,
    /// for a source that is no file, and for a target that is a directory or appends; EOVERFLOW for a narrow offset of 2^31 - 1 and
    /// above; what refuses the write, of no byte too. EPIPE comes with SIGPIPE, but for datagrams.
    #[tactic(auto, unfolding(crate::specs::Operations::send_file))]
    pub fn send_file(
        &mut self,
        alloc: Global,
        target: i64,
        source: i64,
        place: Place,
        count: u64,
        narrow: bool,
    ) -> Answer<u64>
        ensures gives { Gives (λ n. n) result self.new (send_file self.old target source place count narrow) }
        ensures count { IfOk result (λ n. n ≤ count) }
        ensures end { IfOk result (λ n. EndsInFile place n) }
    {
        let now = TimeSpec::of_nanoseconds(self.clocks.real());
        let own = self.credentials();
        let answer = self
            .files
            .send_file(alloc, now, own, target, source, place, count, narrow);
        self.signal_broken_pipe(target, &answer);
        answer
    }
}
