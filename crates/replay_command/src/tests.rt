//! What the commands write for scripts, and how they end. A helper says nothing of what it gives: so the proof of a test
//! knows nothing of the machine's state, however large that is.

use super::*;
use io_edge::{MemorySink, MemorySource, Words};
use std::alloc::Global;
use std::process::Abort;
use std::test::Fail;

/// How a command ends, and what it writes to a sink whose writes with these numbers fail.
fn answer(
    alloc: Global,
    command: &[&[u8]],
    mut source: MemorySource,
    failing: Vec<u64>,
) -> Result<(Status, Vec<u8>), Fail> {
    let mut words = Words::new(alloc);
    for word in command {
        words.push(word)?;
    }
    let mut sink = MemorySink::new(alloc, 4096, failing)?;
    let status = replay(alloc, &words, &mut source, &mut sink);
    Ok((status, Vec::from_slice(alloc, sink.taken())?))
}

/// A script that comes in pieces of so many bytes.
fn in_pieces(alloc: Global, script: &[u8], piece: usize) -> Result<MemorySource, Fail> {
    let pieces = vec![in alloc; piece; script.len()]?;
    let script = Vec::from_slice(alloc, script)?;
    Ok(MemorySource::new(script, pieces, Vec::new(alloc)))
}

/// A command over a script in pieces of so many bytes ends so, and writes this.
fn ends(
    rt: &impl Abort,
    alloc: Global,
    command: &[u8],
    script: &[u8],
    piece: usize,
    report: (Status, &[u8]),
) -> Result<(), Fail> {
    let source = in_pieces(alloc, script, piece)?;
    let (status, text) = answer(alloc, &[command], source, Vec::new(alloc))?;
    assert_eq!(rt; (status, text.as_slice()), report);
    Ok(())
}

/// A command that ends so before it has written anything.
fn writes_nothing(
    rt: &impl Abort,
    alloc: Global,
    command: &[&[u8]],
    source: MemorySource,
    failing: Vec<u64>,
    ended: Status,
) -> Result<(), Fail> {
    let (status, text) = answer(alloc, command, source, failing)?;
    assert_eq!(rt; (status, text.as_slice()), (ended, b"".as_slice()));
    Ok(())
}

/// The script in pieces of 20 bytes, whose second read fails.
fn second_read_fails(alloc: Global) -> Result<MemorySource, Fail> {
    let failing = vec![in alloc; 2]?;
    let pieces = vec![in alloc; 20]?;
    let script = Vec::from_slice(alloc, SCRIPT)?;
    Ok(MemorySource::new(script, pieces, failing))
}

const SCRIPT: &[u8] = b"abi ia32 1\npage fffff000 rw -\ncall 109 0 fffffffc 0 0 0 0 0 0 0\n";

const REPORT: &[u8] =
    b"call 1 clock_gettime fffffff2 00000000 fffffffc 00000000 00000000 00000000 00000000 00000000 00000000 00000000\nstate\nclock 0 0\npeak 0\nnode 2 d 0 41ed 0 0 0.0 0.0 0.0\nend\n";

/// A timespec at the end of the address space isn't stored, however the script comes.
#[test]
fn pieces_of_a_script_change_nothing(rt: HostRuntime) -> Result<(), Fail> {
    for piece in [1, 2, 3, 7] {
        ends(
            &rt,
            rt.alloc(),
            b"run",
            SCRIPT,
            piece,
            (Status::Done, REPORT),
        )?;
    }
    Ok(())
}

#[test]
fn a_failed_read_is_told(rt: HostRuntime) -> Result<(), Fail> {
    let alloc = rt.alloc();
    for command in [b"run".as_slice(), b"check"] {
        let source = second_read_fails(alloc)?;
        writes_nothing(
            &rt,
            alloc,
            &[command],
            source,
            Vec::new(alloc),
            Status::ReadFault,
        )?;
    }
    Ok(())
}

#[test]
fn a_failed_write_is_told(rt: HostRuntime) -> Result<(), Fail> {
    let alloc = rt.alloc();
    for command in [b"run".as_slice(), b"check"] {
        let source = in_pieces(alloc, SCRIPT, 4096)?;
        let failing = vec![in alloc; 1]?;
        writes_nothing(&rt, alloc, &[command], source, failing, Status::WriteFault)?;
    }
    Ok(())
}

#[test]
fn other_words_are_no_command(rt: HostRuntime) -> Result<(), Fail> {
    let alloc = rt.alloc();
    let others: [&[&[u8]]; 6] = [
        &[],
        &[b""],
        &[b"--help"],
        &[b"Run"],
        &[b"checks"],
        &[b"check", b"run"],
    ];
    for other in others {
        let source = in_pieces(alloc, SCRIPT, 4096)?;
        writes_nothing(&rt, alloc, other, source, Vec::new(alloc), Status::BadWords)?;
    }
    Ok(())
}

/// The header counts, and lines that are passed over don't.
#[test]
fn a_good_script_is_counted(rt: HostRuntime) -> Result<(), Fail> {
    let script = b"\nabi ia32 1\n# x\npage 1000 rw -\nadvance 1\n\nshow\n";
    for piece in [1, 4096] {
        ends(
            &rt,
            rt.alloc(),
            b"check",
            script,
            piece,
            (Status::Done, b"ok 4\n"),
        )?;
    }
    Ok(())
}
