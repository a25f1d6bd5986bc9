//! The top call: the words of a command line, a source and a sink.

ghost use Rattle.std.specs.Prelude.{◌≡◌, ◌⊎◌, ◌↔◌, ℕ, List, take, Option, Some, None, is_some, true};
ghost use Rattle.io_edge.specs.Told.{Rose, IsAtEnd, appended};
ghost use Rattle.replay_command.specs.Answers.{command_of, answer_by, answer_to, IsEnd, IsInput, IsRead, Answers};
ghost use Rattle.replay_command.specs.Wrote.{Ran};

use crate::check::check;
use crate::command::{Command, command_in};
use crate::run::run;
use crate::status::Status;
use crate::stop::Stop;
use crate::stream::write_all;
use io_edge::{Sink, Source, Words};
use std::alloc::Global;

/// Makes the text of a command.
fn answer<S: Source>(
    alloc: Global,
    command: Command,
    source: &mut S,
    out: &mut Vec<u8>,
) -> Result<Status, Stop>
    ensures { Ran (answer_by (Some command)) result (S.left source.old) (S.left source.new) (S.faults source.old) (S.faults source.new) out.old.items out.new.items }
{
    match command {
        Command::Run => run(alloc, source, out),
        Command::Check => check(alloc, source, out),
    }
}

/// Writes the text of a command that ended so.
fn tell<O: Sink>(sink: &mut O, text: &[u8], status: Status) -> Status
    requires { IsEnd status }
    ensures { Answers (record { text = text.now; status = status }) result (O.taken sink.old) (O.taken sink.new) (O.faults sink.old) (O.faults sink.new) }
{
    match write_all(sink, text) {
        Ok(()) => status,
        Err(_) => Status::WriteFault,
    }
}

/// The whole program: does what the words of the command line ask for, with the bytes of the source, writes to the sink,
/// and answers how it ended. `run` reads a script, runs each record and writes the report. `check` reads one and writes
/// whether it is good. The text is written once the script has ended.
///
/// `BadWords` is answered before anything is read, written or allocated. `Done`, `BadLine` and `TooLarge` are answered only
/// once all text was taken; after any other status the sink took a front of it.
pub fn replay<S: Source, O: Sink>(
    alloc: Global,
    words: &Words,
    source: &mut S,
    sink: &mut O,
) -> Status
    // Words of no command are told before anything is read or written.
    ensures words { (result ≡ Status.BadWords) ↔ (command_of words.now ≡ None) }
    ensures untouched { command_of words.now ≡ None → (S.left source.new ≡ S.left source.old) × (S.faults source.new ≡ S.faults source.old)
        × (O.taken sink.new ≡ O.taken sink.old) × (O.faults sink.new ≡ O.faults sink.old) }

    // Where the command came to its own end, the sink took exactly what it writes for the bytes, and no read or write failed.
    ensures output { IsEnd result → (bytes : List ℕ) × IsInput (S.left source.old) bytes
        × (result ≡ (answer_to words.now bytes).status) × (O.taken sink.new ≡ appended (O.taken sink.old) (answer_to words.now bytes).text) }
    ensures counts { IsEnd result → (S.faults source.new ≡ S.faults source.old) × (O.faults sink.new ≡ O.faults sink.old) }

    // What was read is a front of the stream, at most 2^28 + 1 bytes. Where it is done, nothing is left.
    ensures read { IsRead (S.left source.old) (S.left source.new) }
    ensures read_to_end { result ≡ Status.Done → IsAtEnd (S.left source.new) }

    // A fault is told only where its count rose.
    ensures read_fault { result ≡ Status.ReadFault → Rose (S.faults source.old) (S.faults source.new) }
    ensures write_fault { result ≡ Status.WriteFault → Rose (O.faults sink.old) (O.faults sink.new) }

    // Whatever the status, the sink took a front of what the command writes for the bytes: for some where the source tells none.
    ensures prefix { (bytes : List ℕ) × IsInput (S.left source.old) bytes
        × ((n : ℕ) × (O.taken sink.new ≡ appended (O.taken sink.old) (take n (answer_to words.now bytes).text))) }

    // Without a fault a command comes to its own end, or memory is wanting.
    ensures complete { is_some (command_of words.now) ≡ true → (Rose (S.faults source.old) (S.faults source.new) → ⊥)
        → (Rose (O.faults sink.old) (O.faults sink.new) → ⊥) → IsEnd result ⊎ (result ≡ Status.OutOfMemory) }
{
    let Some(command) = command_in(words) else {
        return Status::BadWords;
    };
    let mut text = Vec::new(alloc);
    match answer(alloc, command, source, &mut text) {
        Ok(status) => tell(sink, &text, status),
        Err(Stop::Fault) => Status::ReadFault,
        Err(Stop::Memory) => Status::OutOfMemory,
    }
}
