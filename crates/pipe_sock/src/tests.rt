//! Pipes that are nearly full, that are empty, and whose bytes lie on both sides of the ring's end.

use super::*;
use kernel_values::{Answer, KernelFault};
use std::alloc::Global;
use std::test::Fail;

const INODE: u64 = 7;

// A pipe, and the calls on it with the arguments that no test varies. A call tells its number, or the number of its
// error below 0.
#[derive(Drop)]
struct Desk {
    pipes: Pipes,
    alloc: Global,
}

fn told_fault(fault: KernelFault) -> i64 {
    match fault {
        KernelFault::Errno(errno) => -(errno.number() as i64),
        KernelFault::OutOfMemory => -1000,
    }
}

fn told(answer: Answer<u64>) -> i64 {
    match answer {
        Ok(number) => (number % 0x10_0000) as i64,
        Err(fault) => told_fault(fault),
    }
}

// A pipe in which so many bytes wait.
fn filled(alloc: Global, count: usize) -> Option<Desk> {
    let mut pipes = Pipes::new(alloc);
    pipes.add(alloc, INODE).ok()?;
    let bytes = Vec::from_elem(alloc, 0, count).ok()?;
    pipes.write(INODE, count as u64, &bytes, true).ok()?;
    Some(Desk { pipes, alloc })
}

impl Desk {
    // Writes as many bytes as are wanted, all of which memory gives.
    fn writes(&mut self, wanted: usize) -> i64 {
        match Vec::from_elem(self.alloc, 1, wanted) {
            Ok(bytes) => told(self.pipes.write(INODE, wanted as u64, &bytes, true)),
            Err(_) => -1000,
        }
    }

    fn puts(&mut self, bytes: &[u8]) -> i64 {
        told(self.pipes.write(INODE, bytes.len() as u64, bytes, true))
    }

    // Writes where memory gives no byte.
    fn writes_none(&mut self, wanted: u64, has_reader: bool) -> i64 {
        told(self.pipes.write(INODE, wanted, &[], has_reader))
    }

    // The bytes that a read gives.
    fn read(&mut self, wanted: u64, room: u64, has_writer: bool) -> Answer<Vec<u8>> {
        let count = self.pipes.read_length(INODE, wanted, room, has_writer)?;
        let Ok(mut bytes) = Vec::from_elem(self.alloc, 0, count as usize) else {
            return Err(KernelFault::OutOfMemory);
        };
        self.pipes.read(INODE, &mut bytes);
        Ok(bytes)
    }

    // How many bytes a read gives.
    fn reads(&mut self, wanted: u64, room: u64, has_writer: bool) -> i64 {
        match self.read(wanted, room, has_writer) {
            Ok(bytes) => bytes.len() as i64,
            Err(fault) => told_fault(fault),
        }
    }

    // Whether two writes and a read of a size move this many bytes, and a read of the rest leaves what waited before.
    fn moves(&mut self, size: u16, written: [i64; 2]) -> bool {
        let before = self.pipes.waiting(INODE);
        let told = [self.writes(size.into()), self.writes(size.into())];
        let read = self.reads(size.into(), size.into(), true);
        let rest = self.pipes.waiting(INODE).saturating_sub(before);
        told == written
            && read == i64::from(size)
            && (rest == 0 || self.reads(rest, rest, true) > 0)
    }

    fn gives(&mut self, wanted: u64, expected: &[u8]) -> bool {
        match self.read(wanted, wanted, true) {
            Ok(bytes) => bytes.as_slice() == expected,
            Err(_) => false,
        }
    }

    // Whether the first pipe after an inode is another one, and these bytes wait in it.
    fn tells(&self, after: Option<u64>, inode: u64, expected: &[u8]) -> bool {
        match self.pipes.after(after) {
            Some((number, pipe)) => match pipe.to_vec(self.alloc) {
                Ok(bytes) => number == inode && bytes.as_slice() == expected,
                Err(_) => false,
            },
            None => false,
        }
    }
}

#[test]
fn few_bytes_are_written_whole(rt: HostRuntime) -> Result<(), Fail> {
    let mut desk = filled(rt.alloc(), 61441).ok_or("memory")?;
    assert!(rt; desk.writes(4096) == -11);
    assert!(rt; desk.pipes.waiting(INODE) == 61441);
    assert!(rt; desk.pipes.free_room(INODE) == 4095);
    assert!(rt; desk.writes(4095) == 4095);
    assert!(rt; desk.pipes.waiting(INODE) == 65536);
    Ok(())
}

#[test]
fn many_bytes_are_written_in_part(rt: HostRuntime) -> Result<(), Fail> {
    let mut desk = filled(rt.alloc(), 65535).ok_or("memory")?;
    assert!(rt; desk.writes(4097) == 1);
    assert!(rt; desk.writes(4097) == -11);
    assert!(rt; desk.reads(65537, 65537, true) == 65536);
    Ok(())
}

// 5,536 bytes are free, so that the first write always fits. The second may not: up to 4,096 bytes go in whole or not at all.
#[test]
fn pieces_of_each_size_go_in_and_come_out(rt: HostRuntime) -> Result<(), Fail> {
    let mut desk = filled(rt.alloc(), 60_000).ok_or("memory")?;
    for size in 1..=5_000_u16 {
        let first = i64::from(size);
        let second = if size <= 2_768 {
            first
        } else if size <= 4_096 {
            -11
        } else {
            5_536 - first
        };
        assert!(rt; desk.moves(size, [first, second]), "{size}");
        assert!(rt; desk.pipes.waiting(INODE) == 60_000, "{size}");
    }
    Ok(())
}

#[test]
fn bytes_come_in_order_over_the_rings_end(rt: HostRuntime) -> Result<(), Fail> {
    let mut desk = filled(rt.alloc(), 65530).ok_or("memory")?;
    assert!(rt; desk.reads(65530, 65530, true) == 65530);
    assert!(rt; desk.puts(b"abcdefgh") == 8);
    assert!(rt; desk.puts(b"ij") == 2);
    assert!(rt; desk.gives(5, b"abcde"));
    assert!(rt; desk.gives(99, b"fghij"));
    Ok(())
}

#[test]
fn empty_pipes(rt: HostRuntime) -> Result<(), Fail> {
    let mut desk = filled(rt.alloc(), 0).ok_or("memory")?;
    assert!(rt; desk.reads(1, 1, true) == -11);
    assert!(rt; desk.reads(1, 1, false) == 0);
    assert!(rt; desk.reads(0, 1, true) == 0);
    Ok(())
}

#[test]
fn memory_that_gives_nothing(rt: HostRuntime) -> Result<(), Fail> {
    let mut desk = filled(rt.alloc(), 0).ok_or("memory")?;
    // EAGAIN, EFAULT, EPIPE
    assert!(rt; desk.reads(1, 0, true) == -11);
    assert!(rt; desk.writes_none(1, true) == -14);
    assert!(rt; desk.writes_none(1, false) == -32);
    assert!(rt; desk.writes_none(0, false) == 0);
    assert!(rt; desk.writes(65536) == 65536);
    assert!(rt; desk.reads(1, 0, true) == -14);
    assert!(rt; desk.writes_none(1, true) == -11);
    Ok(())
}

#[test]
fn pipes_are_told_in_order(rt: HostRuntime) -> Result<(), Fail> {
    let mut desk = filled(rt.alloc(), 0).ok_or("memory")?;
    desk.pipes.add(rt.alloc(), 3)?;
    assert!(rt; desk.puts(b"ab") == 2);
    assert!(rt; desk.tells(None, 3, b""));
    assert!(rt; desk.tells(Some(3), INODE, b"ab"));
    assert!(rt; desk.pipes.after(Some(INODE)).is_none());
    desk.pipes.remove(INODE);
    assert!(rt; desk.puts(b"ab") == 2);
    assert!(rt; desk.pipes.waiting(INODE) == 0);
    Ok(())
}
