//! Standard input as a source and standard output as a sink. They tell no bytes: that the bytes given are those of the
//! input, and that the bytes taken reach the output, is trusted.

ghost use Rattle.std.specs.Prelude.{◌≡◌, ◌^◌, ◌<◌, ◌≤◌, length, take, IfSome, IfOk, OnOk, OnErr};
ghost use Rattle.std.specs.Io.KnownBytes.{ReadConsumes, Appends};
ghost use Rattle.io_edge.specs.Told.{Rose, IsAtEnd, untold, put_back, appended};

use crate::traits::{Failed, Sink, Source};
use std::io::{Read, Write};

/// A reader as a source. Every error of the reader is a failed read, that of an interrupted call too, and none is tried
/// again.
#[derive(Drop)]
pub struct StdinSource<R> {
    reader: R,
    faults: u64,
    ghost counted: { faults < 2 ^ 64 },
}

impl<R: Read> StdinSource<R> {
    ghost use Rattle.io_edge.specs.Standard.{reader_of, failed_reads};

    /// A source over this reader, no read of which has failed.
    pub fn new(reader: R) -> StdinSource<R>
        ensures reader { reader_of result ≡ reader }
        ensures faults { failed_reads result ≡ 0 }
    {
        StdinSource { reader, faults: 0 }
    }
}

impl<R: Read> Source for StdinSource<R> {
    ghost use Rattle.io_edge.specs.Standard.{reader_of, failed_reads};

    ghost left = { λ _. untold };

    ghost faults = { λ s. s.faults };

    /// One call of the reader. Where the reader itself tells its bytes, they lose those that were given, and none at a
    /// failure.
    fn read(&mut self, into: &mut [u8]) -> Result<usize, Failed>
        ensures within { IfOk result (λ n. n ≤ length into.new) }
        ensures given { IfOk result (λ n. untold ≡ put_back (take n into.new) untold) }
        ensures end { IfOk result (λ n. n ≡ 0 → 0 < length into.new → IsAtEnd untold) }
        ensures kept { OnErr result (untold ≡ untold) }
        ensures same_count { OnOk result (failed_reads self.new ≡ failed_reads self.old) }
        ensures rose { OnErr result (Rose (failed_reads self.old) (failed_reads self.new)) }
        ensures never_falls { failed_reads self.old ≤ failed_reads self.new }
        ensures bounded { failed_reads self.new < 2 ^ 64 }

        ensures reads { ReadConsumes (R.remaining (reader_of self.old)) (R.remaining (reader_of self.new)) result into.new }
    {
        match self.reader.read(into) {
            Ok(n) => Ok(n),
            Err(_) => {
                self.faults = self.faults.saturating_add(1);
                Err(Failed)
            }
        }
    }
}

/// A writer as a sink. It flushes in each write, so that no failure comes after the last one. Every error of the writer
/// is a failed write, that of an interrupted call too, and so is a write that takes nothing of a piece that isn't empty.
/// None is tried again.
#[derive(Drop)]
pub struct StdoutSink<W> {
    writer: W,
    faults: u64,
    ghost counted: { faults < 2 ^ 64 },
}

impl<W: Write> StdoutSink<W> {
    ghost use Rattle.io_edge.specs.Standard.{writer_of, failed_writes};

    /// A sink over this writer, no write of which has failed.
    pub fn new(writer: W) -> StdoutSink<W>
        ensures writer { writer_of result ≡ writer }
        ensures faults { failed_writes result ≡ 0 }
    {
        StdoutSink { writer, faults: 0 }
    }
}

/// How many bytes the writer took and flushed, or none where one of the two failed.
fn write_and_flush<W: Write>(writer: &mut W, piece: &[u8]) -> Option<usize>
    ensures count { IfSome result (λ n. (n ≤ length piece.now) × (0 < length piece.now → 0 < n)) }
    ensures wrote { IfSome result (λ n.
        Appends (W.contents writer.old) (W.contents writer.new) (take n piece.now)) }
{
    let Ok(n) = writer.write(piece) else {
        return None;
    };
    if n == 0 && !piece.is_empty() {
        return None;
    }
    match writer.flush() {
        Ok(()) => Some(n),
        Err(_) => None,
    }
}

impl<W: Write> Sink for StdoutSink<W> {
    ghost use Rattle.io_edge.specs.Standard.{writer_of, failed_writes};

    ghost taken = { λ _. untold };

    ghost faults = { λ s. s.faults };

    /// One call of the writer, and a flush. Where the writer itself tells its bytes, they gain those that were taken; at
    /// a failure they may have gained a front of the piece, which no clause tells.
    fn write(&mut self, piece: &[u8]) -> Result<usize, Failed>
        ensures within { IfOk result (λ n. n ≤ length piece.now) }
        ensures some { IfOk result (λ n. 0 < length piece.now → 0 < n) }
        ensures taken { IfOk result (λ n. untold ≡ appended untold (take n piece.now)) }
        ensures kept { OnErr result (untold ≡ untold) }
        ensures same_count { OnOk result (failed_writes self.new ≡ failed_writes self.old) }
        ensures rose { OnErr result (Rose (failed_writes self.old) (failed_writes self.new)) }
        ensures never_falls { failed_writes self.old ≤ failed_writes self.new }
        ensures bounded { failed_writes self.new < 2 ^ 64 }

        ensures wrote { IfOk result (λ n.
            Appends (W.contents (writer_of self.old)) (W.contents (writer_of self.new)) (take n piece.now)) }
    {
        match write_and_flush(&mut self.writer, piece) {
            Some(n) => Ok(n),
            None => {
                self.faults = self.faults.saturating_add(1);
                Err(Failed)
            }
        }
    }
}

#[cfg(test)]
mod tests;
