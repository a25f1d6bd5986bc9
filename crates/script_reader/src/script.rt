//! The reader of a script.

ghost use Rattle.std.specs.Prelude.{◌≡◌, ℕ, ◌+◌, ◌^◌, ◌<◌, ◌≤◌, List, [], ◌++◌, length, true, Some, IfOk, OnSome};
ghost use Rattle.io_edge.specs.Told.{put_back};
ghost use Rattle.script_reader.specs.Ahead.{bytes_of, IsSound};
ghost use Rattle.script_reader.specs.Script.{next_from};
ghost use Rattle.script_reader.specs.Grammar.{Line};
ghost use Rattle.script_reader.specs.Reads.{HasGiven, GivesBehind, new_script, next_in, script_left, next_ahead, read_count, Answers, TakesFew, Counts, IsFound, IsNextOf, state_after, IsEndOf};

use crate::ahead::{Ahead, Stop, line_end};
use crate::fault::{LineCause, ScriptFault};
use crate::record::Record;
use crate::seen::{Seen, Told};
use io_edge::Source;
use kernel_values::OutOfMemory;
use std::alloc::Global;
use std::marker::Model;

/// Reads a script record by record. Contracts see it as a `ScriptState` of `specs/Reads.antt`.
#[derive(Drop)]
pub struct Script {
    alloc: Global,
    seen: Seen,
    ahead: Ahead,
    alive: bool,
}

impl Model for Script {
    ghost use Rattle.std.specs.Prelude.{◌≤◌};
    ghost use Rattle.script_reader.specs.Ahead.{bytes_of, IsSound};
    ghost use Rattle.script_reader.specs.Reads.{ScriptState};

    ghost Value = { ScriptState };

    ghost view = { λ s. record {
      seen = s.seen;
      count = s.ahead.count;
      ahead = bytes_of s.ahead;
      alive = s.alive;
    } };

    ghost invariant = { λ s. IsSound s.ahead × (s.seen.lines ≤ s.ahead.count) };
}

/// The answer at the end of the stream, behind `bytes` of a line.
fn at_end(seen: &Seen, bytes: &[u8]) -> Result<Option<Record>, ScriptFault>
    requires { seen.now.lines < 2 ^ 63 }
    ensures { IsEndOf seen.now bytes.now result }
{
    let line = seen.lines + 1;
    if !bytes.is_empty() {
        let cause = LineCause::Unended;
        return Err(ScriptFault::BadLine { line, cause });
    }
    if seen.abi.is_none() {
        let cause = LineCause::Header;
        return Err(ScriptFault::BadLine { line, cause });
    }
    Ok(None)
}

/// The next record. Each turn is done with a line, or takes at least one byte of the source.
fn read_record<S: Source>(
    alloc: Global,
    seen: &mut Seen,
    ahead: &mut Ahead,
    source: &mut S,
) -> Result<Option<Record>, ScriptFault>
    requires sound { IsSound ahead.old }
    requires lines { seen.old.lines ≤ ahead.old.count }
    ensures sound { IsSound ahead.new }
    ensures lines { seen.new.lines ≤ ahead.new.count }
    ensures goes_on { IfOk result (λ found. OnSome found (ahead.old.count < ahead.new.count)) }
    ensures took { (piece : List ℕ) × (S.left source.old ≡ put_back piece (S.left source.new))
        × Answers (next_from seen.old [] ahead.old.count (bytes_of ahead.old ++ piece)) (S.left source.new) result (state_after result seen.new ahead.new)
        × TakesFew (ahead.old.count + length (bytes_of ahead.old)) (length piece) result (ahead.new.count + length (bytes_of ahead.new)) }
    ensures unread { IsFound (next_from seen.old [] ahead.old.count (bytes_of ahead.old)) → source.new ≡ source.old }
    ensures counts { Counts result (S.faults source.old) (S.faults source.new) }
{
    let mut from: usize = 0;
    loop {
        let line = seen.lines + 1;
        match line_end(ahead.bytes(), from, ahead.count) {
            Stop::LineFeed(i) => {
                let told = seen.tell(alloc, &ahead.bytes()[..i]);
                ahead.pass(i + 1);
                from = 0;
                match told {
                    Ok(Told::Passed) => {}
                    Ok(Told::Record(record)) => return Ok(Some(record)),
                    Ok(Told::Bad(cause)) => return Err(ScriptFault::BadLine { line, cause }),
                    Err(_) => return Err(ScriptFault::OutOfMemory),
                }
            }
            Stop::TooLarge => return Err(ScriptFault::TooLarge),
            Stop::Long => {
                let cause = LineCause::Long;
                return Err(ScriptFault::BadLine { line, cause });
            }
            Stop::End => {
                from = ahead.bytes().len();
                match ahead.read(source) {
                    Ok(0) => return at_end(seen, ahead.bytes()),
                    Ok(_) => {}
                    Err(fault) => return Err(fault),
                }
            }
        }
    }
}

impl Script {
    /// A reader at the beginning of a script. `OutOfMemory` where there is no memory for it.
    pub fn new(alloc: Global) -> Result<Script, OutOfMemory>
        ensures fresh { IfOk result (λ s. s ≡ new_script) }
        ensures given { IfOk result (λ s. HasGiven s []) }
    {
        Ok(Script {
            alloc,
            seen: Seen::new(alloc)?,
            ahead: Ahead::new(alloc),
            alive: true,
        })
    }

    /// Whether it may be asked for a record: until its first fault.
    pub fn alive(&self) -> bool
        ensures { result ≡ self.now.alive }
    {
        self.alive
    }

    /// The next record, or `None` at the end of a script of the grammar. After `None` a call with a source that has
    /// bytes left goes on. It reads 512 bytes at a time.
    ///
    /// A fault ends the script. `BadLine` comes in the place of the first bad line and `TooLarge` in that of byte
    /// 2^28 + 1. `ReadFault` comes where a read of the source failed, `OutOfMemory` where memory ran out.
    pub fn next_record<S: Source>(&mut self, source: &mut S) -> Result<Option<Record>, ScriptFault>
        requires { self.old.alive ≡ true }

        // The bytes that the call took follow those read ahead, and the answer is what comes first in both. All calls
        // together take at most 2^28 + 1.
        ensures took { (piece : List ℕ) × (S.left source.old ≡ put_back piece (S.left source.new))
            × Answers (next_in self.old piece) (S.left source.new) result self.new
            × TakesFew (read_count self.old) (length piece) result (read_count self.new) }
        ensures counts { Counts result (S.faults source.old) (S.faults source.new) }

        // The source is read only where the bytes read ahead hold neither a whole record nor a fault.
        ensures unread { IsFound (next_ahead self.old) → source.new ≡ source.old }

        // Each record takes bytes of its own, and no more than a script has go by.
        ensures goes_on { IfOk result (λ found. OnSome found (self.old.count < self.new.count)) }
        ensures few { self.new.count ≤ 2 ^ 28 }

        // Where the source tells its bytes, the answer is the next of what was left of the script.
        ensures told { (bytes : List ℕ) → S.left source.old ≡ Some bytes →
            IsNextOf (script_left self.old bytes) (S.left source.new) result self.new }

        // Whatever the source tells, all records so far are those of a script, with the ending that the last call tells.
        ensures given { (lines : List Line) → HasGiven self.old lines → GivesBehind lines result self.new }
    {
        let answer = read_record(self.alloc, &mut self.seen, &mut self.ahead, source);
        self.alive = answer.is_ok();
        answer
    }
}
