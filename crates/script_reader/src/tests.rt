use super::*;
use abi_registers::Registers;
use io_edge::MemorySource;
use kernel_values::Credentials;
use std::alloc::Global;
use std::test::Fail;

/// A source that gives pieces of so many bytes.
fn source_of(alloc: Global, script: &[u8], piece: usize) -> Option<MemorySource> {
    let pieces = vec![in alloc; piece; script.len()].ok()?;
    let script = Vec::from_slice(alloc, script).ok()?;
    Some(MemorySource::new(script, pieces, Vec::new(alloc)))
}

#[test]
fn a_failed_read_ends_it(rt: HostRuntime) -> Result<(), Fail> {
    let alloc = rt.alloc();
    let bytes = Vec::from_slice(alloc, b"abi arm 1\nshow\n")?;
    let mut source = MemorySource::new(bytes, vec![in alloc; 12]?, vec![in alloc; 2]?);
    let mut script = Script::new(alloc).ok().ok_or("memory")?;
    assert!(rt; script.next_record(&mut source).is_ok());
    assert!(rt; script.alive());
    assert!(rt; matches!(script.next_record(&mut source), Err(ScriptFault::ReadFault)));
    assert!(rt; !script.alive());
    Ok(())
}

#[test]
fn a_bad_line_is_told_in_words(rt: HostRuntime) -> Result<(), Fail> {
    let cause = LineCause::Header;
    let fault = ScriptFault::BadLine { line: 2, cause };
    let text = format!(in rt.alloc(); "{fault}")?;
    assert_eq!(rt; text.as_str(), "line 2 is bad: header");
    Ok(())
}

/// Behind an end a script goes on with another source.
#[test]
fn another_source_goes_on(rt: HostRuntime) -> Result<(), Fail> {
    let alloc = rt.alloc();
    let mut first = source_of(alloc, b"abi arm 1\n", 4).ok_or("memory")?;
    let mut second = source_of(alloc, b"advance 1F\n", 4).ok_or("memory")?;
    let mut script = Script::new(alloc).ok().ok_or("memory")?;
    assert!(rt; script.next_record(&mut first).is_ok());
    assert!(rt; script.alive());
    assert!(rt; matches!(script.next_record(&mut first), Ok(None)));
    assert!(rt; script.alive());
    let found = script.next_record(&mut second);
    assert!(rt; matches!(found, Ok(Some(Record::Advance { nanos: 31 }))));
    Ok(())
}

/// The record of the one line behind the header.
fn record_of(alloc: Global, script: &[u8]) -> Option<Record> {
    let mut source = source_of(alloc, script, 1000)?;
    let mut script = Script::new(alloc).ok()?;
    let _header = script.next_record(&mut source).ok()?;
    if !script.alive() {
        return None;
    }
    script.next_record(&mut source).ok()?
}

#[test]
fn records_say_what_their_lines_say(rt: HostRuntime) -> Result<(), Fail> {
    let alloc = rt.alloc();
    let who = record_of(alloc, b"abi arm 1\nwho 3e8 A 1f 1\n").ok_or("who")?;
    assert!(rt;
        matches!(
            who,
            Record::Who {
                owner: Credentials {
                    pid: 1000,
                    uid: 10,
                    gid: 31
                },
                privileged: true
            }
        )
    );
    let page = record_of(alloc, b"abi arm 1\npage 3000 rw 0aFF00\n").ok_or("page")?;
    let Record::Page {
        at,
        writable,
        bytes,
    } = page
    else {
        return Err("page")?;
    };
    assert_eq!(rt; (at, writable), (0x3000, true));
    assert_eq!(rt; bytes.as_slice(), [0x0a, 0xff, 0].as_slice());
    let call = record_of(alloc, b"abi ia32 1\ncall 1 2 3 4 5 6 7 8 9 ffffffff\n").ok_or("call")?;
    let Record::Call { registers } = call else {
        return Err("call")?;
    };
    assert_eq!(rt;
        registers,
        Registers::Ia32([1, 2, 3, 4, 5, 6, 7, 8, 9, u32::MAX])
    );
    Ok(())
}
