//! A host of its own: it makes a process, serves its calls from a loop, and prints what happened.
#![tactic(auto)]

use abi_registers::Registers;
use compat_calls::{World, trap_by_kind};
use kernel_values::Usage;
use layout_laws::{Ia32, fetch};
use native_kernel::Identity;
use std::alloc::Global;
use std::io::{self, Print};
use time_layouts::TimeSpec32;
use user_memory::Rights;

/// Who the process is. The real clock stands at 1,000,000,000 seconds.
const OWNER: Identity = Identity {
    pid: 1_000,
    uid: 1_001,
    gid: 1_001,
    privileged: false,
    real: 1_000_000_000_000_000_000,
    monotonic: 0,
    usage: Usage { words: [0; 18] },
};

/// Where the process has its data: a path, the bytes that it writes, and a place for a time.
const PATH: u32 = 0x1000;

const TEXT: u32 = 0x1010;

const TIME: u32 = 0x1020;

/// The calls of an ia32 process: eax has the number, ebx, ecx and edx the arguments.
const CALLS: [(&'static str, [u32; 4]); 6] = [
    ("open", [5, PATH, 0x401, 0]),
    ("write", [4, 0, TEXT, 5]),
    ("write", [4, 0, 0x9000, 5]),
    ("clock_gettime", [265, 0, TIME, 0]),
    ("exit_group", [252, 7, 0, 0]),
    ("getpid", [20, 0, 0, 0]),
];

/// Gives the process a page of memory and a log. A function that may end early has the world by reference: each end of one that owns it
/// would be proved to let go of all its parts.
fn fill(alloc: Global, world: &mut World) -> Option<()> {
    world.memory.map_page(1, Rights::ReadWrite).ok()?;
    world.memory.poke(PATH, b"/log\0").ok()?;
    world.memory.poke(TEXT, b"hello").ok()?;
    world.kernel.image_file(alloc, b"/log", 7, 0).ok()
}

/// What a call answers, or none where the process has ended or memory is wanting.
fn answer(
    alloc: Global,
    world: &mut World,
    [number, first, second, third]: [u32; 4],
) -> Option<u32> {
    if world.kernel.ended().is_some() {
        return None;
    }
    let before = Registers::Ia32([number, first, second, third, 0, 0, 0, 0, 0, 0]);
    match trap_by_kind(alloc, world, &before) {
        Ok(Registers::Ia32(after)) => Some(after[0]),
        Ok(Registers::Arm(_)) | Err(_) => None,
    }
}

/// The seconds of the time that the process was told.
fn told_seconds(world: &World) -> i64 {
    match fetch::<Ia32, TimeSpec32>(&world.memory, TIME) {
        Ok(stored) => stored.time.seconds,
        Err(_) => -1,
    }
}

/// Serves the calls one after another, and prints what each answered.
fn serve(rt: &impl Print, alloc: Global, world: &mut World) -> io::Result<()> {
    for (name, words) in CALLS {
        match answer(alloc, world, words) {
            Some(word) if world.kernel.ended().is_none() => {
                println!(rt; "{name} answers {}", word.cast_signed())?;
            }
            Some(_) => println!(rt; "{name} ends the process")?,
            None => println!(rt; "{name} isn't served")?,
        }
    }
    println!(rt; "the process was told second {}", told_seconds(world))
}

fn main(rt: HostRuntime) -> io::Result<()> {
    let Ok(mut world) = World::new(rt.alloc(), &OWNER, 0) else {
        return println!(rt; "no memory");
    };
    match fill(rt.alloc(), &mut world) {
        Some(()) => serve(&rt, rt.alloc(), &mut world),
        None => println!(rt; "no memory"),
    }
}
