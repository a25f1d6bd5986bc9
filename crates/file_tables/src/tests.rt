//! Each table once: what is put into it, found in it and taken out of it.

use super::*;
use kernel_values::{Attributes, Errno, FileTimes, NameText, OutOfMemory, TimeSpec};
use std::alloc::Global;
use std::test::Fail;

mod trees;

const NOW: TimeSpec = TimeSpec {
    seconds: 5,
    nanos: 6,
};

const START: TimeSpec = TimeSpec {
    seconds: 0,
    nanos: 0,
};

const NODE: Node = Node {
    attributes: Attributes {
        mode: 0x81a4,
        uid: 0,
        gid: 0,
        accessed: START,
        modified: START,
        changed: START,
    },
    has_name: true,
};

#[test]
fn a_table_has_values_by_number(rt: HostRuntime) -> Result<(), Fail> {
    let mut table = Table::new(rt.alloc());
    table.put(7, 'b')?;
    table.put(3, 'a')?;
    table.change(7, 'c');
    assert!(rt; table.len() == 2);
    assert!(rt; table.get(7) == Some(&'c'));
    assert!(rt; table.after(Some(3)) == Some((7, &'c')));
    assert!(rt; table.first_free(3, 9) == Some(4));
    assert!(rt; table.remove(3) == Some('a'));
    assert!(rt; !table.has(3));
    Ok(())
}

#[test]
fn values_in_a_slab_are_told_by_number(rt: HostRuntime) -> Result<(), Fail> {
    let mut map = SlabMap::new(rt.alloc());
    map.insert(7, 'b')?;
    map.put(3, 'a')?;
    map.change(3, 'c');
    *map.value_mut(7) = 'd';
    assert!(rt; map.get(3) == Some(&'c'));
    assert!(rt; map.after(Some(3)) == Some((7, &'d')));
    assert!(rt; map.remove(3) == Some('c'));
    assert!(rt; !map.has(3));
    Ok(())
}

#[test]
fn numbers_that_the_image_has_are_left_out(rt: HostRuntime) -> Result<(), Fail> {
    let mut image = Table::new(rt.alloc());
    image.put(0x1000, ())?;
    let mut numbers = InodeNumbers {
        image,
        next: 0x1000,
    };
    assert!(rt; numbers.take() == Ok(0x1001));
    assert!(rt; numbers.take() == Ok(0x1002));
    Ok(())
}

#[test]
fn nodes_have_times_and_names(rt: HostRuntime) -> Result<(), Fail> {
    let mut nodes = Table::new(rt.alloc());
    nodes.put(7, NODE)?;
    nodes.touch(7, NOW);
    assert!(rt; nodes.stays(7));
    nodes.forget_name(7);
    assert!(rt; !nodes.stays(7));
    let node = nodes.get(7).ok_or("a node")?;
    assert_eq!(rt; node.attributes.modified, NOW);
    assert_eq!(rt; node.attributes.accessed, START);
    Ok(())
}

#[test]
fn an_omitted_time_stays(rt: HostRuntime) -> Result<(), Fail> {
    let mut nodes = Table::new(rt.alloc());
    nodes.put(7, NODE)?;
    let omitted = TimeSpec {
        seconds: 9,
        nanos: 0x3fff_fffe,
    };
    let times = FileTimes {
        accessed: omitted,
        modified: NOW,
    };
    assert!(rt; !are_bad_times(Some(times)));
    nodes.retime(7, NOW, Some(times));
    let node = nodes.get(7).ok_or("a node")?;
    assert_eq!(rt; node.attributes.accessed, START);
    assert_eq!(rt; node.attributes.modified, NOW);
    assert_eq!(rt; node.attributes.changed, NOW);
    Ok(())
}
