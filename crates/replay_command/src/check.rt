//! The command `check`.

ghost use Rattle.replay_command.specs.Run.{checked_of};
ghost use Rattle.replay_command.specs.Wrote.{Ran};

use crate::status::Status;
use crate::stop::{Stop, end_at};
use io_edge::Source;
use report_text::put_ok;
use script_reader::Script;
use std::alloc::Global;

/// Counts the records of a script, its header among them.
pub fn check<S: Source>(alloc: Global, source: &mut S, out: &mut Vec<u8>) -> Result<Status, Stop>
    ensures { Ran checked_of result (S.left source.old) (S.left source.new) (S.faults source.old) (S.faults source.new) out.old.items out.new.items }
{
    let mut script = Script::new(alloc)?;
    let mut records: u64 = 0;
    loop {
        match script.next_record(source) {
            Ok(Some(record)) => {
                drop(record);
                records += 1;
            }
            Ok(None) => {
                put_ok(alloc, out, records)?;
                return Ok(Status::Done);
            }
            Err(fault) => return end_at(alloc, out, fault),
        }
    }
}
