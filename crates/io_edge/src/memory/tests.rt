use super::*;
use std::test::Fail;

#[test]
fn a_source_gives_pieces(rt: HostRuntime) -> Result<(), Fail> {
    let alloc = rt.alloc();
    let bytes = Vec::from_slice(alloc, b"abcdef")?;
    let mut source = MemorySource::new(bytes, vec![in alloc; 2, 0]?, Vec::new(alloc));
    let mut into = *b"....";
    assert_eq!(rt; source.read(&mut into), Ok(2));
    assert_eq!(rt; into, *b"ab..");
    assert_eq!(rt; source.read(&mut into), Ok(1));
    assert_eq!(rt; into, *b"cb..");
    assert_eq!(rt; source.read(&mut into), Ok(3));
    assert_eq!(rt; into, *b"def.");
    assert_eq!(rt; source.read(&mut into), Ok(0));
    assert_eq!(rt; source.faults, 0);
    Ok(())
}

#[test]
fn every_read_counts(rt: HostRuntime) -> Result<(), Fail> {
    let alloc = rt.alloc();
    let bytes = Vec::from_slice(alloc, b"abcdef")?;
    let pieces = vec![in alloc; 1, 1, 1, 2, 3]?;
    let mut source = MemorySource::new(bytes, pieces, vec![in alloc; 1, 3]?);
    let mut into = *b"....";
    assert_eq!(rt; source.read(&mut into), Err(Failed));
    assert_eq!(rt; into, *b"....");
    assert_eq!(rt; source.read(&mut []), Ok(0));
    assert_eq!(rt; source.read(&mut []), Err(Failed));
    assert_eq!(rt; source.faults, 2);
    assert_eq!(rt; source.read(&mut into), Ok(2));
    assert_eq!(rt; into, *b"ab..");
    assert_eq!(rt; source.read(&mut into), Ok(3));
    assert_eq!(rt; into, *b"cde.");
    Ok(())
}

#[test]
fn a_sink_has_room_and_fails(rt: HostRuntime) -> Result<(), Fail> {
    let alloc = rt.alloc();
    let failing = vec![in alloc; 2, 5]?;
    let mut sink = MemorySink::new(alloc, 5, failing).ok().ok_or("room")?;
    assert_eq!(rt; sink.write(b"abc"), Ok(3));
    assert_eq!(rt; sink.write(b""), Err(Failed));
    assert_eq!(rt; sink.write(b"def"), Ok(2));
    assert_eq!(rt; sink.write(b"f"), Err(Failed));
    assert_eq!(rt; sink.faults, 2);
    // Full, and a failing call: one failure.
    assert_eq!(rt; sink.write(b"f"), Err(Failed));
    assert_eq!(rt; sink.faults, 3);
    assert_eq!(rt; sink.write(b""), Ok(0));
    assert_eq!(rt; sink.taken(), b"abcde".as_slice());
    Ok(())
}
