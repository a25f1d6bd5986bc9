//! How a command ends before its script does.

ghost use Rattle.replay_command.specs.Wrote.{EndsAt};

use crate::status::Status;
use kernel_values::OutOfMemory;
use report_text::put_bad;
use script_reader::ScriptFault;
use std::alloc::Global;

/// Why a command comes to no end of its own.
#[derive(Clone, Copy, Debug, PartialEq, Eq)]
pub enum Stop {
    /// A read of the source failed.
    Fault,
    /// Memory ran out.
    Memory,
}

impl From<OutOfMemory> for Stop {
    ghost use Rattle.std.specs.Prelude.{◌≡◌};
    ghost use Rattle.replay_command.specs.declared.stop.Stop.{Stop};

    ghost from_gives = { λ _ e. e ≡ Stop.Memory };

    fn from(_error: OutOfMemory) -> Stop {
        Stop::Memory
    }
}

/// Ends the text at a fault of the script.
pub fn end_at(alloc: Global, out: &mut Vec<u8>, fault: ScriptFault) -> Result<Status, Stop>
    ensures { EndsAt fault result out.old.items out.new.items }
{
    match fault {
        ScriptFault::BadLine { line, cause } => {
            put_bad(alloc, out, line, cause.word().as_bytes())?;
            Ok(Status::BadLine)
        }
        ScriptFault::TooLarge => Ok(Status::TooLarge),
        ScriptFault::ReadFault => Err(Stop::Fault),
        ScriptFault::OutOfMemory => Err(Stop::Memory),
    }
}
