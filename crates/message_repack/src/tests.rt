//! Vectors of 32-bit processes, put into the region.

use crate::{piece_at, vector_in};
use file_layouts::IoVec32;
use kernel_values::Errno;
use layout_laws::{ArmEabi, Ia32};
use scratch_region::Scratch;
use std::alloc::Global;
use std::test::Fail;
use user_memory::{Rights, UserMemory};

/// Pages 1 to 3, where the vectors stand.
fn mapped(alloc: Global) -> Option<UserMemory> {
    let mut memory = UserMemory::new(alloc).ok()?;
    memory.map_page(1, Rights::ReadWrite).ok()?;
    memory.map_page(2, Rights::ReadWrite).ok()?;
    memory.map_page(3, Rights::Read).ok()?;
    Some(memory)
}

#[test]
fn entries_become_those_of_a_64_bit_kernel(rt: HostRuntime) -> Result<(), Fail> {
    let mut memory = mapped(rt.alloc()).ok_or("memory")?;
    let array = [
        0x78, 0x56, 0x34, 0x12, 5, 0, 0, 0, 0, 0x10, 0, 0, 0xff, 0xff, 0xff, 0x7f,
    ];
    memory.copy_out(0x1100, &array)?;
    let mut region = Scratch::new(rt.alloc(), 64)?;
    let span = vector_in::<Ia32>(&memory, 0x1100, 2, &mut region)
        .ok()
        .ok_or("refused")?;
    let native = [
        0x78, 0x56, 0x34, 0x12, 0, 0, 0, 0, 5, 0, 0, 0, 0, 0, 0, 0, 0, 0x10, 0, 0, 0, 0, 0, 0,
        0xff, 0xff, 0xff, 0x7f, 0, 0, 0, 0,
    ];
    assert_eq!(rt; region.bytes(&span), native.as_slice());
    assert_eq!(rt; (region.used(), region.peak()), (32, 32));
    Ok(())
}

#[test]
fn pieces_are_told_by_their_place(rt: HostRuntime) -> Result<(), Fail> {
    let native = [
        1, 0, 0, 0, 0, 0, 0, 0, 2, 0, 0, 0, 0, 0, 0, 0, 3, 0, 0, 0, 0, 0, 0, 0, 4, 0, 0, 0, 0, 0,
        0, 0,
    ];
    assert_eq!(rt; piece_at(&native, 0), IoVec32 { base: 1, count: 2 });
    assert_eq!(rt; piece_at(&native, 1), IoVec32 { base: 3, count: 4 });
    Ok(())
}

#[test]
fn an_array_that_cannot_be_read_comes_before_a_long_piece(rt: HostRuntime) -> Result<(), Fail> {
    let mut memory = mapped(rt.alloc()).ok_or("memory")?;
    memory.copy_out(0x1100, &[0, 0, 0, 0, 0, 0, 0, 0x80])?;
    let mut region = Scratch::new(rt.alloc(), 16_384)?;
    assert_eq!(rt;
        vector_in::<ArmEabi>(&memory, 0x1100, 1, &mut region),
        Err(Errno::InvalidArgument)
    );
    assert_eq!(rt; (region.used(), region.peak()), (0, 16));
    assert_eq!(rt;
        vector_in::<ArmEabi>(&memory, 0x3ffc, 1, &mut region),
        Err(Errno::BadAddress)
    );
    assert_eq!(rt;
        vector_in::<ArmEabi>(&memory, 0x1100, 1_024, &mut region),
        Err(Errno::InvalidArgument)
    );
    assert_eq!(rt; (region.used(), region.peak()), (0, 16_384));
    Ok(())
}

#[test]
fn vectors_of_none_and_of_the_most_entries(rt: HostRuntime) -> Result<(), Fail> {
    let memory = mapped(rt.alloc()).ok_or("memory")?;
    let mut region = Scratch::new(rt.alloc(), 16_384)?;
    assert!(rt; vector_in::<Ia32>(&memory, 0x9000, 0, &mut region).is_ok());
    assert_eq!(rt; (region.used(), region.peak()), (0, 0));
    assert!(rt; vector_in::<Ia32>(&memory, 0x2000, 1_024, &mut region).is_ok());
    assert_eq!(rt; (region.used(), region.peak()), (16_384, 16_384));
    Ok(())
}
