//! A map gone through, and one that is empty.

use super::*;
use std::alloc::Global;
use std::test::Fail;

// A value at 7, and another at 3.
fn two_values(alloc: Global) -> Option<BTreeMap<u64, char>> {
    let mut map = BTreeMap::new(alloc);
    map.insert(7, 'b').ok()?;
    map.insert(3, 'a').ok()?;
    Some(map)
}

#[test]
fn entries_ascend(rt: HostRuntime) -> Result<(), Fail> {
    let map = two_values(rt.alloc()).ok_or("memory")?;
    assert!(rt; entry_after(&map, None) == Some((3, &'a')));
    assert!(rt; entry_after(&map, Some(3)) == Some((7, &'b')));
    assert!(rt; entry_after(&map, Some(5)) == Some((7, &'b')));
    assert!(rt; entry_after(&map, Some(7)).is_none());
    Ok(())
}

#[test]
fn an_empty_map_has_no_entry(rt: HostRuntime) -> Result<(), Fail> {
    let map: BTreeMap<u64, char> = BTreeMap::new(rt.alloc());
    assert!(rt; entry_after(&map, None).is_none());
    assert!(rt; entry_after(&map, Some(0)).is_none());
    Ok(())
}
