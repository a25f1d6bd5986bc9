use super::*;
use kernel_values::Errno;
use std::test::Fail;
use user_memory::{Rights, UserMemory};

// Pages 1 and 2 may be stored to, and page 3 may be read.
fn mapped(rt: &HostRuntime) -> Option<UserMemory> {
    let mut memory = UserMemory::new(rt.alloc()).ok()?;
    memory.map_page(1, Rights::ReadWrite).ok()?;
    memory.map_page(2, Rights::ReadWrite).ok()?;
    memory.map_page(3, Rights::Read).ok()?;
    Some(memory)
}

// The same with a byte other than zero at each of 4,096 addresses from 0x1800 on.
fn filled(rt: &HostRuntime) -> Option<UserMemory> {
    let mut memory = mapped(rt)?;
    memory.copy_out(0x1800, &[47u8; 4096]).ok()?;
    Some(memory)
}

#[test]
fn a_path_ends_at_its_zero(rt: HostRuntime) -> Result<(), Fail> {
    let mut memory = mapped(&rt).ok_or("memory")?;
    assert_eq!(rt; store_bytes(&mut memory, 0x1fff, b"/f"), Ok(()));
    let mut room = [1u8; PATH_MAX];
    let path = fetch_path(&memory, 0x1fff, &mut room).ok().ok_or("path")?;
    assert_eq!(rt; path, b"/f".as_slice());
    Ok(())
}

#[test]
fn no_path_is_read_at_address_0(rt: HostRuntime) -> Result<(), Fail> {
    let memory = mapped(&rt).ok_or("memory")?;
    let mut room = [1u8; PATH_MAX];
    let path = fetch_optional_path(&memory, 0, &mut room)
        .ok()
        .ok_or("path")?;
    assert!(rt; path.is_none());
    let path = fetch_optional_path(&memory, 0x1000, &mut room)
        .ok()
        .ok_or("path")?;
    assert_eq!(rt; path.map(|path| path.len()), Some(0));
    assert_eq!(rt;
        fetch_optional_path(&memory, 0x4000, &mut room).err(),
        Some(Errno::BadAddress)
    );
    Ok(())
}

#[test]
fn a_path_has_at_most_4095_bytes_and_its_zero(rt: HostRuntime) -> Result<(), Fail> {
    let memory = filled(&rt).ok_or("memory")?;
    let mut room = [1u8; PATH_MAX];
    let path = fetch_path(&memory, 0x1801, &mut room).ok().ok_or("path")?;
    assert_eq!(rt; path.len(), 4095);
    assert_eq!(rt;
        fetch_path(&memory, 0x1800, &mut room).err(),
        Some(Errno::NameTooLong)
    );
    assert_eq!(rt;
        fetch_path(&memory, 0x4000, &mut room).err(),
        Some(Errno::BadAddress)
    );
    Ok(())
}

#[test]
fn a_count_is_cut_at_the_last_page_below_2_31(rt: HostRuntime) -> Result<(), Fail> {
    assert_eq!(rt; transfer_count(0x7fff_efff), 0x7fff_efff);
    assert_eq!(rt; transfer_count(0x7fff_f000), 0x7fff_f000);
    assert_eq!(rt; transfer_count(0x7fff_f001), 0x7fff_f000);
    assert_eq!(rt; transfer_count(u32::MAX), 0x7fff_f000);
    Ok(())
}

#[test]
fn data_ends_before_a_fault(rt: HostRuntime) -> Result<(), Fail> {
    let mut memory = mapped(&rt).ok_or("memory")?;
    assert_eq!(rt; memory.poke(0x3ffe, b"ab"), Ok(()));
    let data = fetch_data(rt.alloc(), &memory, 0x3ffd, 9)
        .ok()
        .ok_or("data")?;
    assert_eq!(rt; data.as_slice(), [0, 97, 98].as_slice());
    assert_eq!(rt; room(&memory, 0x2ffe, 9), 2);
    Ok(())
}

#[test]
fn bytes_are_stored_whole_or_not_at_all(rt: HostRuntime) -> Result<(), Fail> {
    let mut memory = mapped(&rt).ok_or("memory")?;
    assert_eq!(rt;
        store_bytes(&mut memory, 0x2fff, b"ab"),
        Err(Errno::BadAddress)
    );
    assert_eq!(rt; memory.next_change(0), None);
    assert_eq!(rt; store_bytes(&mut memory, 0x8000, b""), Ok(()));
    Ok(())
}
