//! Pieces of vectors: how many bytes they have, their room, their data, and stores into them.

use crate::{fetch_pieces, pieces_room, pieces_total, store_pieces};
use kernel_values::Errno;
use std::alloc::Global;
use std::test::Fail;
use user_memory::{Rights, UserMemory};

/// Page 1 may be stored to, and page 2, which begins with `xyz`, may be read.
fn mapped(alloc: Global) -> Option<UserMemory> {
    let mut memory = UserMemory::new(alloc).ok()?;
    memory.map_page(1, Rights::ReadWrite).ok()?;
    memory.map_page(2, Rights::Read).ok()?;
    memory.poke(0x2000, b"xyz").ok()?;
    Some(memory)
}

/// Two entries: four bytes at 0x1ffe, and three at 0x2000.
const ACROSS: [u8; 32] = [
    0xfe, 0x1f, 0, 0, 0, 0, 0, 0, 4, 0, 0, 0, 0, 0, 0, 0, 0, 0x20, 0, 0, 0, 0, 0, 0, 3, 0, 0, 0, 0,
    0, 0, 0,
];

/// Two entries: two bytes at 0x1000, and so many as no transfer moves at 0x1100.
const LONG: [u8; 32] = [
    0, 0x10, 0, 0, 0, 0, 0, 0, 2, 0, 0, 0, 0, 0, 0, 0, 0, 0x11, 0, 0, 0, 0, 0, 0, 0xff, 0xff, 0xff,
    0x7f, 0, 0, 0, 0,
];

#[test]
fn a_transfer_has_its_limit(rt: HostRuntime) -> Result<(), Fail> {
    assert_eq!(rt; pieces_total(&ACROSS, 2), 7);
    assert_eq!(rt; pieces_total(&ACROSS, 0), 0);
    assert_eq!(rt; pieces_total(&LONG, 2), 0x7fff_f000);
    Ok(())
}

#[test]
fn room_ends_at_the_first_byte_without_the_right(rt: HostRuntime) -> Result<(), Fail> {
    let memory = mapped(rt.alloc()).ok_or("memory")?;
    assert_eq!(rt; pieces_room(&memory, &ACROSS, 2), 2);
    assert_eq!(rt; pieces_room(&memory, &LONG, 2), 2 + 0xf00);
    Ok(())
}

#[test]
fn bytes_are_fetched_as_one_row(rt: HostRuntime) -> Result<(), Fail> {
    let mut memory = mapped(rt.alloc()).ok_or("memory")?;
    memory.copy_out(0x1ffe, b"ab")?;
    let bytes = fetch_pieces(rt.alloc(), &memory, &ACROSS, 2)?;
    assert_eq!(rt; bytes.as_slice(), b"abxyxyz".as_slice());
    Ok(())
}

#[test]
fn bytes_are_stored_to_one_piece_after_another(rt: HostRuntime) -> Result<(), Fail> {
    let mut memory = mapped(rt.alloc()).ok_or("memory")?;
    store_pieces(&mut memory, &LONG, 2, b"abcd")?;
    let mut first = [0; 3];
    memory.copy_in(0x1000, &mut first)?;
    assert_eq!(rt; first, [b'a', b'b', 0]);
    memory.copy_in(0x1100, &mut first)?;
    assert_eq!(rt; first, [b'c', b'd', 0]);
    assert_eq!(rt;
        store_pieces(&mut memory, &ACROSS, 2, b"abcd"),
        Err(Errno::BadAddress)
    );
    Ok(())
}
