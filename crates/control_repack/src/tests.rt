//! Control messages of 32-bit processes, in both directions.

use crate::{controls_in, controls_out};
use kernel_values::{ByteList, Credentials, Errno, FdList, Name, Received};
use scratch_region::{Scratch, Span};
use std::alloc::Global;
use std::test::Fail;
use user_memory::{Rights, UserMemory};

/// Page 1, where a message with one descriptor and three bytes of a tail stands.
fn mapped(alloc: Global) -> Option<UserMemory> {
    let mut memory = UserMemory::new(alloc).ok()?;
    memory.map_page(1, Rights::ReadWrite).ok()?;
    let message = [
        16, 0, 0, 0, 1, 0, 0, 0, 1, 0, 0, 0, 5, 0, 0, 0, 0xee, 0xee, 0xee,
    ];
    memory.copy_out(0x1100, &message).ok()?;
    Some(memory)
}

#[test]
fn a_message_becomes_that_of_a_64_bit_kernel(rt: HostRuntime) -> Result<(), Fail> {
    let memory = mapped(rt.alloc()).ok_or("memory")?;
    let mut region = Scratch::new(rt.alloc(), 61_440)?;
    let span = controls_in(&memory, 0x1100, 19, &mut region)
        .ok()
        .ok_or("refused")?;
    assert_eq!(rt;
        span,
        Span {
            start: 19,
            length: 24
        }
    );
    let native = [
        20, 0, 0, 0, 0, 0, 0, 0, 1, 0, 0, 0, 1, 0, 0, 0, 5, 0, 0, 0, 0, 0, 0, 0,
    ];
    assert_eq!(rt; region.bytes(&span), native.as_slice());
    assert_eq!(rt; (region.used(), region.peak()), (43, 43));
    Ok(())
}

#[test]
fn refusals_in_their_order(rt: HostRuntime) -> Result<(), Fail> {
    let memory = mapped(rt.alloc()).ok_or("memory")?;
    let mut region = Scratch::new(rt.alloc(), 61_440)?;
    let many = controls_in(&memory, 0x9000, 20_481, &mut region);
    assert_eq!(rt; many, Err(Errno::NoBufferSpace));
    assert_eq!(rt; (region.used(), region.peak()), (0, 0));
    let unreadable = controls_in(&memory, 0x9000, 20_480, &mut region);
    assert_eq!(rt; unreadable, Err(Errno::BadAddress));
    assert_eq!(rt; (region.used(), region.peak()), (0, 20_480));
    let short = controls_in(&memory, 0x1100, 11, &mut region);
    assert_eq!(rt; short, Err(Errno::InvalidArgument));
    assert_eq!(rt; region.used(), 0);
    Ok(())
}

/// Credentials and two descriptors.
fn received(alloc: Global) -> Option<Received> {
    let mut rights = FdList::new(alloc);
    rights.push(3).ok()?;
    rights.push(4).ok()?;
    Some(Received {
        bytes: ByteList::new(alloc),
        from: Name::new(b""),
        credentials: Some(Credentials {
            pid: 7,
            uid: 8,
            gid: 9,
        }),
        rights,
        dropped: false,
        cut: false,
    })
}

#[test]
fn credentials_come_before_descriptors(rt: HostRuntime) -> Result<(), Fail> {
    let taken = received(rt.alloc()).ok_or("received")?;
    if taken.rights.len() > 253 {
        return Ok(());
    }
    let mut region = Scratch::new(rt.alloc(), 1_048)?;
    let told = controls_out(&taken, 44, &mut region);
    assert!(rt; !told.cut);
    let all = [
        24, 0, 0, 0, 1, 0, 0, 0, 2, 0, 0, 0, 7, 0, 0, 0, 8, 0, 0, 0, 9, 0, 0, 0, 20, 0, 0, 0, 1, 0,
        0, 0, 1, 0, 0, 0, 3, 0, 0, 0, 4, 0, 0, 0,
    ];
    assert_eq!(rt; region.bytes(&told.bytes), all.as_slice());
    assert_eq!(rt; region.peak(), 44);
    Ok(())
}

#[test]
fn less_room_cuts(rt: HostRuntime) -> Result<(), Fail> {
    let taken = received(rt.alloc()).ok_or("received")?;
    if taken.rights.len() > 253 {
        return Ok(());
    }
    let mut region = Scratch::new(rt.alloc(), 1_048)?;
    let told = controls_out(&taken, 17, &mut region);
    assert!(rt; told.cut);
    let part = [17, 0, 0, 0, 1, 0, 0, 0, 2, 0, 0, 0, 7, 0, 0, 0, 8];
    assert_eq!(rt; region.bytes(&told.bytes), part.as_slice());
    let mut other = Scratch::new(rt.alloc(), 1_048)?;
    let one = controls_out(&taken, 43, &mut other);
    assert!(rt; one.cut);
    assert_eq!(rt; one.bytes.length, 40);
    Ok(())
}
