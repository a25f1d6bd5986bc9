use super::*;
use std::test::Fail;

// Pages 1 and 2 may be stored to, page 3 may be read, and page fffff is the last of all.
fn mapped(rt: &HostRuntime) -> Option<UserMemory> {
    let mut memory = UserMemory::new(rt.alloc()).ok()?;
    memory.map_page(2, Rights::ReadWrite).ok()?;
    memory.map_page(1, Rights::ReadWrite).ok()?;
    memory.map_page(0xfffff, Rights::ReadWrite).ok()?;
    memory.map_page(3, Rights::Read).ok()?;
    Some(memory)
}

fn change(at: u32, length: u32) -> Option<Change> {
    Some(Change { at, length })
}

#[test]
fn rights_go_by_page(rt: HostRuntime) -> Result<(), Fail> {
    let mut memory = mapped(&rt).ok_or("memory")?;
    assert_eq!(rt; memory.mapped_pages(), 4);
    let mut into = [1u8; 4];
    assert_eq!(rt; memory.copy_in(0x3ffc, &mut into), Ok(()));
    assert_eq!(rt; into, [0, 0, 0, 0]);
    assert_eq!(rt; memory.copy_in(0x3ffd, &mut into), Err(Fault));
    assert_eq!(rt; memory.copy_in(0xffe, &mut into), Err(Fault));
    assert_eq!(rt; memory.copy_out(0x3000, b"a"), Err(Fault));
    assert_eq!(rt; memory.copy_out(0x2ffe, b"abcd"), Err(Fault));
    assert_eq!(rt; memory.copy_in(0x2ffe, &mut into), Ok(()));
    assert_eq!(rt; into, [0, 0, 0, 0]);
    Ok(())
}

#[test]
fn a_store_goes_over_two_pages(rt: HostRuntime) -> Result<(), Fail> {
    let mut memory = mapped(&rt).ok_or("memory")?;
    assert_eq!(rt; memory.copy_out(0x1ffe, b"abcd"), Ok(()));
    let mut into = [1u8; 6];
    assert_eq!(rt; memory.copy_in(0x1ffd, &mut into), Ok(()));
    assert_eq!(rt; into, [0, 97, 98, 99, 100, 0]);
    Ok(())
}

#[test]
fn a_range_of_no_bytes_is_good_at_each_address(rt: HostRuntime) -> Result<(), Fail> {
    let mut memory = mapped(&rt).ok_or("memory")?;
    assert_eq!(rt; memory.copy_in(0, &mut []), Ok(()));
    assert_eq!(rt; memory.copy_out(0x8000, &[]), Ok(()));
    assert_eq!(rt; memory.copy_out(0x3000, &[]), Ok(()));
    assert_eq!(rt; memory.poke(0xffff_ffff, &[]), Ok(()));
    assert_eq!(rt; memory.next_change(0), None);
    Ok(())
}

#[test]
fn a_range_may_end_at_the_end_of_all_addresses(rt: HostRuntime) -> Result<(), Fail> {
    let mut memory = mapped(&rt).ok_or("memory")?;
    assert_eq!(rt; memory.map_page(0, Rights::ReadWrite), Ok(()));
    assert_eq!(rt; memory.copy_out(0xffff_ffff, b"z"), Ok(()));
    assert_eq!(rt; memory.copy_out(0xffff_ffff, b"zy"), Err(Fault));
    assert_eq!(rt; memory.poke(0xffff_ffff, b"zy"), Err(Fault));
    let mut into = [0u8; 2];
    assert_eq!(rt; memory.copy_in(0xffff_fffe, &mut into), Ok(()));
    assert_eq!(rt; into, [0, 122]);
    assert_eq!(rt; memory.copy_in(0xffff_ffff, &mut into), Err(Fault));
    assert_eq!(rt; memory.next_change(0), change(0xffff_ffff, 1));
    assert_eq!(rt; memory.next_change(0x1_0000_0000), None);
    assert_eq!(rt; memory.next_change(u64::MAX), None);
    Ok(())
}

#[test]
fn a_prefix_ends_where_a_right_does(rt: HostRuntime) -> Result<(), Fail> {
    let memory = mapped(&rt).ok_or("memory")?;
    assert_eq!(rt; memory.readable_prefix(0x1ff0, 0x4000), 0x2010);
    assert_eq!(rt; memory.writable_prefix(0x1ff0, 0x4000), 0x1010);
    assert_eq!(rt; memory.writable_prefix(0x1ff0, 0x1010), 0x1010);
    assert_eq!(rt; memory.writable_prefix(0x3000, 1), 0);
    assert_eq!(rt; memory.readable_prefix(0x3000, 0), 0);
    assert_eq!(rt; memory.readable_prefix(0xfff, 2), 0);
    Ok(())
}

#[test]
fn a_prefix_ends_at_the_end_of_all_addresses(rt: HostRuntime) -> Result<(), Fail> {
    let memory = mapped(&rt).ok_or("memory")?;
    assert_eq!(rt; memory.readable_prefix(0xffff_fff0, 16), 16);
    assert_eq!(rt; memory.readable_prefix(0xffff_fff0, 17), 16);
    assert_eq!(rt; memory.writable_prefix(0xffff_f000, u32::MAX), 4096);
    Ok(())
}

#[test]
fn a_text_ends_at_its_zero(rt: HostRuntime) -> Result<(), Fail> {
    let mut memory = mapped(&rt).ok_or("memory")?;
    assert_eq!(rt; memory.copy_out(0x1ffe, b"abc"), Ok(()));
    let mut into = [7u8; 6];
    assert_eq!(rt; memory.text_in(0x1ffe, &mut into), Ok(3));
    assert_eq!(rt; into, [97, 98, 99, 7, 7, 7]);
    assert_eq!(rt; memory.text_in(0x1000, &mut into), Ok(0));
    assert_eq!(rt; into, [97, 98, 99, 7, 7, 7]);
    Ok(())
}

#[test]
fn a_text_has_room_for_its_zero(rt: HostRuntime) -> Result<(), Fail> {
    let mut memory = mapped(&rt).ok_or("memory")?;
    assert_eq!(rt; memory.copy_out(0x1ffe, b"abc"), Ok(()));
    let mut three = [7u8; 3];
    assert_eq!(rt; memory.text_in(0x1ffe, &mut three), Err(TextFault::TooLong));
    assert_eq!(rt; three, [7, 7, 7]);
    let mut four = [7u8; 4];
    assert_eq!(rt; memory.text_in(0x1ffe, &mut four), Ok(3));
    assert_eq!(rt; four, [97, 98, 99, 7]);
    assert_eq!(rt; memory.text_in(0x8000, &mut []), Err(TextFault::TooLong));
    Ok(())
}

#[test]
fn a_fault_behind_the_zero_does_not_matter(rt: HostRuntime) -> Result<(), Fail> {
    let mut memory = mapped(&rt).ok_or("memory")?;
    assert_eq!(rt; memory.poke(0x3ffc, b"abc"), Ok(()));
    let mut into = [7u8; 6];
    assert_eq!(rt; memory.text_in(0x3ffc, &mut into), Ok(3));
    assert_eq!(rt; memory.poke(0x3fff, b"d"), Ok(()));
    assert_eq!(rt; memory.text_in(0x3ffc, &mut into), Err(TextFault::Fault));
    assert_eq!(rt; memory.copy_out(0xffff_ffff, b"z"), Ok(()));
    assert_eq!(rt;
        memory.text_in(0xffff_ffff, &mut into),
        Err(TextFault::Fault)
    );
    assert_eq!(rt; into, [97, 98, 99, 7, 7, 7]);
    Ok(())
}

#[test]
fn a_poke_ignores_rights(rt: HostRuntime) -> Result<(), Fail> {
    let mut memory = mapped(&rt).ok_or("memory")?;
    assert_eq!(rt; memory.poke(0x2ffe, b"wxyz"), Ok(()));
    let mut into = [0u8; 4];
    assert_eq!(rt; memory.copy_in(0x2ffe, &mut into), Ok(()));
    assert_eq!(rt; into, [119, 120, 121, 122]);
    assert_eq!(rt; memory.next_change(0x3000), change(0x3000, 2));
    assert_eq!(rt; memory.poke(0x3fff, b"no"), Err(Fault));
    Ok(())
}

#[test]
fn changes_end_at_page_ends(rt: HostRuntime) -> Result<(), Fail> {
    let mut memory = mapped(&rt).ok_or("memory")?;
    assert_eq!(rt; memory.copy_out(0x1ffd, b"abcdef"), Ok(()));
    assert_eq!(rt; memory.next_change(0), change(0x1ffd, 3));
    assert_eq!(rt; memory.next_change(0x1ffe), change(0x1ffe, 2));
    assert_eq!(rt; memory.next_change(0x2000), change(0x2000, 3));
    assert_eq!(rt; memory.next_change(0x2003), None);
    memory.clear_changes();
    assert_eq!(rt; memory.next_change(0), None);
    assert_eq!(rt; memory.copy_out(0x1ffe, b"B"), Ok(()));
    assert_eq!(rt; memory.next_change(0), change(0x1ffe, 1));
    Ok(())
}

#[test]
fn bytes_that_are_as_before_are_no_change(rt: HostRuntime) -> Result<(), Fail> {
    let mut memory = mapped(&rt).ok_or("memory")?;
    assert_eq!(rt; memory.copy_out(0x1000, &[0, 0]), Ok(()));
    assert_eq!(rt; memory.next_change(0), None);
    assert_eq!(rt; memory.copy_out(0x1000, &[1, 0, 1]), Ok(()));
    assert_eq!(rt; memory.next_change(0), change(0x1000, 1));
    assert_eq!(rt; memory.copy_out(0x1000, &[0]), Ok(()));
    assert_eq!(rt; memory.next_change(0), change(0x1002, 1));
    assert_eq!(rt; memory.copy_out(0x1002, &[0]), Ok(()));
    assert_eq!(rt; memory.next_change(0), None);
    Ok(())
}

#[test]
fn at_most_16384_pages_are_mapped(rt: HostRuntime) -> Result<(), Fail> {
    let mut memory = UserMemory::new(rt.alloc()).ok().ok_or("memory")?;
    for page in 0..16_384 {
        assert_eq!(rt; memory.map_page(page, Rights::Read), Ok(()));
    }
    assert_eq!(rt;
        memory.map_page(16_384, Rights::Read),
        Err(MapFault::TooMany)
    );
    assert_eq!(rt;
        memory.map_page(16_383, Rights::ReadWrite),
        Err(MapFault::Mapped)
    );
    Ok(())
}
