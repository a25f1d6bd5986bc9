use super::*;
use std::io;
use std::test::Fail;

/// Fails its first read as one that a signal interrupted, and gives no byte after it.
#[derive(Drop)]
struct Interrupted {
    was_read: bool,
}

impl Read for Interrupted {
    fn read(&mut self, _into: &mut [u8]) -> io::Result<usize> {
        if self.was_read {
            return Ok(0);
        }
        self.was_read = true;
        Err(io::Error::from(io::ErrorKind::Interrupted))
    }
}

#[derive(Clone, Copy, PartialEq, Eq)]
enum Fault {
    None,
    TakesNothing,
    Write,
    Flush,
}

/// Takes one byte a call, and holds it back until it is flushed.
#[derive(Drop)]
struct Slow {
    fault: Fault,
    held: usize,
    out: usize,
}

impl Write for Slow {
    fn write(&mut self, piece: &[u8]) -> io::Result<usize> {
        match self.fault {
            Fault::Write => Err(io::Error::from(io::ErrorKind::Interrupted)),
            Fault::TakesNothing => Ok(0),
            _ => {
                let n = piece.len().min(1);
                self.held = self.held.saturating_add(n);
                Ok(n)
            }
        }
    }

    fn flush(&mut self) -> io::Result<()> {
        if self.fault == Fault::Flush {
            return Err(io::Error::from(io::ErrorKind::BrokenPipe));
        }
        self.out = self.out.saturating_add(self.held);
        self.held = 0;
        Ok(())
    }
}

#[test]
fn a_reader_is_a_source(rt: HostRuntime) {
    let mut source = StdinSource::new(b"abc".as_slice());
    let mut into = *b"..";
    assert_eq!(rt; source.read(&mut into), Ok(2));
    assert_eq!(rt; into, *b"ab");
    assert_eq!(rt; source.read(&mut into), Ok(1));
    assert_eq!(rt; into, *b"cb");
    assert_eq!(rt; source.read(&mut into), Ok(0));
    assert_eq!(rt; source.faults, 0);
}

#[test]
fn an_interrupted_read_has_failed(rt: HostRuntime) {
    let mut source = StdinSource::new(Interrupted { was_read: false });
    assert_eq!(rt; source.read(&mut [0; 2]), Err(Failed));
    assert_eq!(rt; source.faults, 1);
    assert_eq!(rt; source.read(&mut [0; 2]), Ok(0));
    assert_eq!(rt; source.faults, 1);
}

#[test]
fn a_writer_is_a_sink(rt: HostRuntime) {
    let mut sink = StdoutSink::new(Vec::new(rt.alloc()));
    assert_eq!(rt; sink.write(b"abc"), Ok(3));
    assert_eq!(rt; sink.write(b""), Ok(0));
    assert_eq!(rt; sink.writer.as_slice(), b"abc".as_slice());
    assert_eq!(rt; sink.faults, 0);
}

#[test]
fn each_write_is_flushed_or_has_failed(rt: HostRuntime) {
    for (fault, piece, answer, faults, out) in [
        (Fault::None, b"abc".as_slice(), Ok(1), 0, 1),
        (Fault::None, b"", Ok(0), 0, 0),
        (Fault::TakesNothing, b"abc", Err(Failed), 1, 0),
        (Fault::TakesNothing, b"", Ok(0), 0, 0),
        (Fault::Write, b"abc", Err(Failed), 1, 0),
        (Fault::Flush, b"abc", Err(Failed), 1, 0),
        (Fault::Flush, b"", Err(Failed), 1, 0),
    ] {
        let mut sink = StdoutSink::new(Slow {
            fault,
            held: 0,
            out: 0,
        });
        assert_eq!(rt; sink.write(piece), answer);
        assert_eq!(rt; sink.faults, faults);
        assert_eq!(rt; sink.writer.out, out);
    }
}
