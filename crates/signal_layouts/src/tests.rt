//! Each shape once in the ABIs that have it, at its offsets. Memory holds ones before, so that pads are seen to become 0.

ghost use Rattle.std.specs.Prelude.{◌≤◌, length};

use crate::{
    Action32, ArmFrame, ArmPlainFrame, Ia32Frame, Ia32PlainFrame, OldAction32, SigInfo32,
    SignalSet32, SignalSet64, Stack32,
};
use kernel_values::{Action, SigInfo, SignalSet};
use layout_laws::{Abi, ArmEabi, Ia32, Layout, fetch, store};
use std::alloc::Global;
use std::process::Abort;
use std::test::Fail;
use user_memory::{Rights, UserMemory};

const AT: u32 = 0x1000;

/// Memory with one page.
fn start(alloc: Global) -> Option<UserMemory> {
    let mut memory = UserMemory::new(alloc).ok()?;
    memory.map_page(1, Rights::ReadWrite).ok()?;
    Some(memory)
}

/// What is read back of a value that was stored among ones.
fn kept<A: Abi, T: Layout<A>>(memory: &mut UserMemory, value: &T) -> Option<T> {
    memory.copy_out(AT, &[0xff; 1024]).ok()?;
    store::<A, T>(memory, AT, value).ok()?;
    fetch::<A, T>(memory, AT).ok()
}

/// The bytes from an offset of the shape on are these.
fn are_at(rt: &impl Abort, memory: &UserMemory, offset: u16, wanted: &[u8])
    requires { length wanted.now ≤ 88 }
{
    let mut buffer = [1; 88];
    let bytes = &mut buffer[..wanted.len()];
    let copied = memory.copy_in(AT + u32::from(offset), bytes).is_ok();
    assert!(rt; copied);
    assert_eq!(rt; &*bytes, wanted, "at {offset}");
}

fn action(bits: u64) -> Action {
    Action {
        handler: 0x8000,
        flags: 0x4000_0004,
        restorer: 0x9000,
        mask: SignalSet { bits },
    }
}

fn actions_are_kept<A: Abi>(rt: &impl Abort, memory: &mut UserMemory) {
    let action_of = action(0x5_0000_0006);
    let new = Action32 { action: action_of };
    assert_eq!(rt; kept::<A, Action32>(memory, &new), Some(new));
    are_at(
        rt,
        memory,
        0,
        &[0, 0x80, 0, 0, 4, 0, 0, 0x40, 0, 0x90, 0, 0],
    );
    are_at(rt, memory, 12, &[6, 0, 0, 0, 5, 0, 0, 0, 0xff]);
    let old = OldAction32 { action: action_of };
    let low = OldAction32 { action: action(6) };
    assert_eq!(rt; kept::<A, OldAction32>(memory, &old), Some(low));
    are_at(rt, memory, 0, &[0, 0x80, 0, 0, 6, 0, 0, 0, 4, 0, 0, 0x40]);
    are_at(rt, memory, 12, &[0, 0x90, 0, 0, 0xff]);
}

#[test]
fn an_old_action_has_a_low_mask(rt: HostRuntime) -> Result<(), Fail> {
    let mut memory = start(rt.alloc()).ok_or("memory")?;
    actions_are_kept::<Ia32>(&rt, &mut memory);
    actions_are_kept::<ArmEabi>(&rt, &mut memory);
    Ok(())
}

fn sets_and_stacks_are_kept<A: Abi>(rt: &impl Abort, memory: &mut UserMemory) {
    let set = SignalSet {
        bits: 0x8000_0001_0000_0200,
    };
    let all = SignalSet64 { set };
    assert_eq!(rt; kept::<A, SignalSet64>(memory, &all), Some(all));
    are_at(rt, memory, 0, &[0, 2, 0, 0, 1, 0, 0, 0x80, 0xff]);
    let low = SignalSet32 {
        set: SignalSet { bits: 0x200 },
    };
    assert_eq!(rt;
        kept::<A, SignalSet32>(memory, &SignalSet32 { set }),
        Some(low)
    );
    are_at(rt, memory, 0, &[0, 2, 0, 0, 0xff]);
    let stack = Stack32 {
        base: 0x6000,
        flags: -2,
        size: 0x800,
    };
    assert_eq!(rt; kept::<A, Stack32>(memory, &stack), Some(stack));
    are_at(
        rt,
        memory,
        0,
        &[0, 0x60, 0, 0, 0xfe, 0xff, 0xff, 0xff, 0, 8, 0, 0, 0xff],
    );
}

#[test]
fn sets_and_stacks_have_words(rt: HostRuntime) -> Result<(), Fail> {
    let mut memory = start(rt.alloc()).ok_or("memory")?;
    sets_and_stacks_are_kept::<Ia32>(&rt, &mut memory);
    sets_and_stacks_are_kept::<ArmEabi>(&rt, &mut memory);
    Ok(())
}

fn information(value: u64) -> SigInfo {
    SigInfo {
        signal: 0x22,
        errno: -3,
        code: -1,
        pid: 0x3e8,
        uid: 7,
        value,
    }
}

/// The bytes of `information(0x9_1234_5678)` that aren't 0.
const TOLD: [u8; 24] = [
    0x22, 0, 0, 0, 0xfd, 0xff, 0xff, 0xff, 0xff, 0xff, 0xff, 0xff, 0xe8, 3, 0, 0, 7, 0, 0, 0, 0x78,
    0x56, 0x34, 0x12,
];

fn information_is_kept<A: Abi>(rt: &impl Abort, memory: &mut UserMemory) {
    let info = SigInfo32 {
        info: information(0x9_1234_5678),
    };
    let low = SigInfo32 {
        info: information(0x1234_5678),
    };
    assert_eq!(rt; kept::<A, SigInfo32>(memory, &info), Some(low));
    are_at(rt, memory, 0, &TOLD);
    are_at(rt, memory, 24, &[0; 80]);
    are_at(rt, memory, 120, &[0, 0, 0, 0, 0, 0, 0, 0, 0xff]);
}

#[test]
fn information_has_a_low_value(rt: HostRuntime) -> Result<(), Fail> {
    let mut memory = start(rt.alloc()).ok_or("memory")?;
    information_is_kept::<Ia32>(&rt, &mut memory);
    information_is_kept::<ArmEabi>(&rt, &mut memory);
    Ok(())
}

/// Signals up to 32 are blocked by the bits 5060708, and those above by 1020304.
const MASK: u64 = 0x0102_0304_0506_0708;

const STACK: Stack32 = Stack32 {
    base: 0x6000,
    flags: 1,
    size: 0x800,
};

/// eax to eflags, from 1 to 10.
const IA32_REGISTERS: [u32; 10] = [1, 2, 3, 4, 5, 6, 7, 8, 9, 10];

/// Their context, from gs to cr2.
const IA32_CONTEXT: [u8; 88] = [
    0, 0, 0, 0, 0, 0, 0, 0, 0x2b, 0, 0, 0, 0x2b, 0, 0, 0, 6, 0, 0, 0, 5, 0, 0, 0, 7, 0, 0, 0, 8, 0,
    0, 0, 2, 0, 0, 0, 4, 0, 0, 0, 3, 0, 0, 0, 1, 0, 0, 0, 0, 0, 0, 0, 0, 0, 0, 0, 9, 0, 0, 0, 0x23,
    0, 0, 0, 10, 0, 0, 0, 8, 0, 0, 0, 0x2b, 0, 0, 0, 0, 0, 0, 0, 8, 7, 6, 5, 0, 0, 0, 0,
];

fn an_ia32_plain_frame_is_kept(rt: &impl Abort, memory: &mut UserMemory) {
    let frame = Ia32PlainFrame {
        return_address: 0x9000,
        signal: 10,
        registers: IA32_REGISTERS,
        mask: MASK,
    };
    assert_eq!(rt; kept::<Ia32, Ia32PlainFrame>(memory, &frame), Some(frame));
    are_at(rt, memory, 0, &[0, 0x90, 0, 0, 10, 0, 0, 0]);
    are_at(rt, memory, 8, &IA32_CONTEXT);
    are_at(rt, memory, 96, &[0; 88]);
    are_at(rt, memory, 712, &[0, 0, 0, 0, 0, 0, 0, 0, 4, 3, 2, 1]);
    are_at(
        rt,
        memory,
        724,
        &[0x58, 0xb8, 0x77, 0, 0, 0, 0xcd, 0x80, 0xff],
    );
}

fn an_ia32_frame_is_kept(rt: &impl Abort, memory: &mut UserMemory) {
    let frame = Ia32Frame {
        return_address: 0x9000,
        info_at: 0x1010,
        context_at: 0x1090,
        info: information(0x1234_5678),
        stack: STACK,
        registers: IA32_REGISTERS,
        mask: MASK,
    };
    assert_eq!(rt; kept::<Ia32, Ia32Frame>(memory, &frame), Some(frame));
    are_at(
        rt,
        memory,
        0,
        &[
            0, 0x90, 0, 0, 0x22, 0, 0, 0, 0x10, 0x10, 0, 0, 0x90, 0x10, 0, 0,
        ],
    );
    are_at(rt, memory, 16, &TOLD);
    are_at(
        rt,
        memory,
        144,
        &[
            0, 0, 0, 0, 0, 0, 0, 0, 0, 0x60, 0, 0, 1, 0, 0, 0, 0, 8, 0, 0,
        ],
    );
    are_at(rt, memory, 164, &IA32_CONTEXT);
    are_at(rt, memory, 252, &[8, 7, 6, 5, 4, 3, 2, 1]);
    are_at(rt, memory, 260, &[0xb8, 0xad, 0, 0, 0, 0xcd, 0x80, 0, 0xff]);
}

#[test]
fn frames_of_i386_end_with_code(rt: HostRuntime) -> Result<(), Fail> {
    let mut memory = start(rt.alloc()).ok_or("memory")?;
    an_ia32_frame_is_kept(&rt, &mut memory);
    an_ia32_plain_frame_is_kept(&rt, &mut memory);
    Ok(())
}

/// r0 to r15 and cpsr, from 1 to 17.
const ARM_REGISTERS: [u32; 17] = [1, 2, 3, 4, 5, 6, 7, 8, 9, 10, 11, 12, 13, 14, 15, 16, 17];

/// Their context, from trap to fault.
const ARM_CONTEXT: [u8; 84] = [
    0, 0, 0, 0, 0, 0, 0, 0, 8, 7, 6, 5, 1, 0, 0, 0, 2, 0, 0, 0, 3, 0, 0, 0, 4, 0, 0, 0, 5, 0, 0, 0,
    6, 0, 0, 0, 7, 0, 0, 0, 8, 0, 0, 0, 9, 0, 0, 0, 10, 0, 0, 0, 11, 0, 0, 0, 12, 0, 0, 0, 13, 0,
    0, 0, 14, 0, 0, 0, 15, 0, 0, 0, 16, 0, 0, 0, 17, 0, 0, 0, 0, 0, 0, 0,
];

fn an_arm_plain_frame_is_kept(rt: &impl Abort, memory: &mut UserMemory) {
    let frame = ArmPlainFrame {
        registers: ARM_REGISTERS,
        mask: MASK,
    };
    assert_eq!(rt; kept::<ArmEabi, ArmPlainFrame>(memory, &frame), Some(frame));
    are_at(
        rt,
        memory,
        0,
        &[
            0x5a, 0xc3, 0xc3, 0x5a, 0, 0, 0, 0, 0, 0, 0, 0, 0, 0, 0, 0, 0, 0, 0, 0,
        ],
    );
    are_at(rt, memory, 20, &ARM_CONTEXT);
    are_at(rt, memory, 104, &[8, 7, 6, 5, 4, 3, 2, 1, 0]);
    are_at(
        rt,
        memory,
        736,
        &[0, 0, 0, 0, 0, 0, 0, 0, 0, 0, 0, 0, 0, 0, 0, 0, 0xff],
    );
}

fn an_arm_frame_is_kept(rt: &impl Abort, memory: &mut UserMemory) {
    let frame = ArmFrame {
        info: information(0x1234_5678),
        stack: STACK,
        registers: ARM_REGISTERS,
        mask: MASK,
    };
    assert_eq!(rt; kept::<ArmEabi, ArmFrame>(memory, &frame), Some(frame));
    are_at(rt, memory, 0, &TOLD);
    are_at(
        rt,
        memory,
        128,
        &[
            0, 0, 0, 0, 0, 0, 0, 0, 0, 0x60, 0, 0, 1, 0, 0, 0, 0, 8, 0, 0,
        ],
    );
    are_at(rt, memory, 148, &ARM_CONTEXT);
    are_at(rt, memory, 232, &[8, 7, 6, 5, 4, 3, 2, 1, 0]);
    are_at(
        rt,
        memory,
        864,
        &[0, 0, 0, 0, 0, 0, 0, 0, 0, 0, 0, 0, 0, 0, 0, 0, 0xff],
    );
}

#[test]
fn frames_of_arm_hold_a_context(rt: HostRuntime) -> Result<(), Fail> {
    let mut memory = start(rt.alloc()).ok_or("memory")?;
    an_arm_frame_is_kept(&rt, &mut memory);
    an_arm_plain_frame_is_kept(&rt, &mut memory);
    Ok(())
}
