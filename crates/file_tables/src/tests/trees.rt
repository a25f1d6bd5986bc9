//! Directories, the names in them, and paths.

use super::*;

fn name(alloc: Global, bytes: &[u8]) -> Result<NameText, OutOfMemory> {
    NameText::from_slice(alloc, bytes)
}

// The root has directory d, inode 6, at position 3, and file f, inode 7, at 4.
fn tree(alloc: Global) -> Result<Table<Directory>, OutOfMemory> {
    let mut directories = Table::new(alloc);
    directories.put(ROOT, Directory::empty(alloc, ROOT))?;
    directories.put(6, Directory::empty(alloc, ROOT))?;
    directories.enter(ROOT, name(alloc, b"d")?, 6)?;
    directories.enter(ROOT, name(alloc, b"f")?, 7)?;
    Ok(directories)
}

#[test]
fn names_are_found_and_taken_out(rt: HostRuntime) -> Result<(), Fail> {
    let mut directories = tree(rt.alloc())?;
    let root = directories.get(ROOT).ok_or("the root")?;
    assert!(rt; root.names.find_name(b"f") == Some((4, 7)));
    assert!(rt; root.names.find_child(6).is_some());
    assert!(rt; directories.entry_at(ROOT, b"d") == Ok(Some(6)));
    assert!(rt; directories.entry_at(7, b"d") == Err(Errno::NotDirectory));
    directories.leave(ROOT, b"f");
    assert!(rt; directories.entry_at(ROOT, b"f") == Ok(None));
    directories.enter(ROOT, name(rt.alloc(), b"g")?, 8)?;
    let root = directories.get(ROOT).ok_or("the root")?;
    assert!(rt; root.names.find_name(b"g") == Some((5, 8)));
    Ok(())
}

#[test]
fn paths_are_walked(rt: HostRuntime) -> Result<(), Fail> {
    let directories = tree(rt.alloc())?;
    let path: &[u8] = b"//d/../f/";
    assert!(rt; is_absolute(path));
    assert!(rt; ends_with_slash(path));
    let last = directories.walk(ROOT, path)?;
    assert!(rt; last.place == ROOT);
    assert!(rt; last.name == b"f".as_slice());
    assert!(rt; directories.last_entry(&last, b"/f") == Ok(Some(7)));
    assert!(rt; directories.last_entry(&last, path) == Err(Errno::NotDirectory));
    assert!(rt; is_dot(b"."));
    assert!(rt; is_dot_dot(b".."));
    Ok(())
}

#[test]
fn directories_lie_in_one_another(rt: HostRuntime) -> Result<(), Fail> {
    let alloc = rt.alloc();
    let mut directories = tree(alloc)?;
    directories.put(9, Directory::empty(alloc, ROOT))?;
    directories.enter(6, name(alloc, b"n")?, 9)?;
    directories.move_into(9, 6);
    assert!(rt; directories.parent_of(9) == 6);
    assert!(rt; directories.lies_inside(6, 9));
    assert!(rt; !directories.lies_inside(9, 6));
    let text = directories.text_up(alloc, 9)?.ok_or("a path")?;
    assert!(rt; text.as_slice() == b"/d/n".as_slice());
    let text = directories.text_up(alloc, ROOT)?.ok_or("a path")?;
    let mut text = path_text(text)?;
    append(&mut text, b"x")?;
    assert!(rt; text.as_slice() == b"/x".as_slice());
    Ok(())
}

// Directories 3 to 17 below the root, one in another, each with a name of 255 bytes, and 18 in the last one.
fn deep(alloc: Global, last: &[u8]) -> Result<Table<Directory>, OutOfMemory> {
    let mut directories = Table::new(alloc);
    directories.put(ROOT, Directory::empty(alloc, ROOT))?;
    for inode in 3..18u64 {
        let above = inode - 1;
        directories.put(inode, Directory::empty(alloc, above))?;
        directories.enter(above, name(alloc, &[b'n'; 255])?, inode)?;
    }
    directories.put(18, Directory::empty(alloc, 17))?;
    directories.enter(17, name(alloc, last)?, 18)?;
    Ok(directories)
}

#[test]
fn a_path_has_at_most_4095_bytes(rt: HostRuntime) -> Result<(), Fail> {
    let alloc = rt.alloc();
    let directories = deep(alloc, &[b'm'; 254])?;
    let text = directories.text_up(alloc, 18)?.ok_or("a path")?;
    assert!(rt; text.len() == 4095);
    let directories = deep(alloc, &[b'm'; 255])?;
    assert!(rt; directories.text_up(alloc, 18)?.is_none());
    Ok(())
}

#[test]
fn a_name_stands_once(rt: HostRuntime) -> Result<(), Fail> {
    let alloc = rt.alloc();
    let mut names = NameTable::new(alloc);
    names.put(3, name(alloc, b"a")?, 6)?;
    names.put(4, name(alloc, b"a")?, 7)?;
    assert!(rt; names.len() == 1);
    assert!(rt; names.find_name(b"a") == Some((4, 7)));
    names.put(4, name(alloc, b"b")?, 8)?;
    assert!(rt; names.find_name(b"a").is_none());
    let (position, entry) = names.after(None).ok_or("an entry")?;
    assert!(rt; position == 4);
    assert!(rt; entry.child == 8);
    names.remove(b"b");
    assert!(rt; names.len() == 0);
    assert!(rt; names.find_name(b"b").is_none());
    Ok(())
}

#[test]
fn each_of_many_names_is_found(rt: HostRuntime) -> Result<(), Fail> {
    let alloc = rt.alloc();
    let mut directories = Table::new(alloc);
    directories.put(ROOT, Directory::empty(alloc, ROOT))?;
    for number in 0..8192u16 {
        let text = name(alloc, &number.to_be_bytes())?;
        directories.enter(ROOT, text, u64::from(number))?;
    }
    for number in 0..8192u16 {
        let found = directories.entry_at(ROOT, &number.to_be_bytes());
        assert!(rt; found == Ok(Some(u64::from(number))));
    }
    Ok(())
}

#[test]
fn lines_are_told(rt: HostRuntime) -> Result<(), Fail> {
    let directories = tree(rt.alloc())?;
    let root = directories.get(ROOT).ok_or("the root")?;
    assert!(rt; directories.directory_links(root) == 3);
    let line = root.line_after(ROOT, 1).ok_or("a line")?;
    assert!(rt; line.position == 2);
    let line = root.line_after(ROOT, 2).ok_or("a line")?;
    let entry = directories.told(rt.alloc(), line)?;
    assert!(rt; entry.position == 3);
    assert!(rt; entry.inode == 6);
    assert!(rt; entry.kind == 4);
    assert!(rt; entry.name.as_slice() == b"d".as_slice());
    assert!(rt; root.line_after(ROOT, 4).is_none());
    Ok(())
}
