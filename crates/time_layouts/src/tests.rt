use crate::{FileTimes32, Limit32, Limit64, TimeSpec32, TimeVal32, TimerValue32, Usage32};
use kernel_values::{FileTimes, Limit, TimeSpec, TimeVal, TimerValue, Usage};
use layout_laws::{Abi, ArmEabi, Ia32, Layout, StoreFault, fetch, store};
use std::process::Abort;
use std::test::Fail;
use user_memory::{Fault, Rights, UserMemory};

const AT: u32 = 0x1000;

fn memory<R: AllocGlobal>(rt: &R) -> Option<UserMemory> {
    let mut memory = UserMemory::new(rt.alloc()).ok()?;
    memory.map_page(1, Rights::ReadWrite).ok()?;
    memory.map_page(2, Rights::Read).ok()?;
    Some(memory)
}

/// The first eight bytes of a shape that was stored.
fn spelled<A: Abi, T: Layout<A>>(memory: &mut UserMemory, value: &T) -> Option<[u8; 8]> {
    store::<A, T>(memory, AT, value).ok()?;
    let mut bytes = [0; 8];
    memory.copy_in(AT, &mut bytes).ok()?;
    Some(bytes)
}

/// Seconds, their low 32 bits, and what these mean.
const SECONDS: [(i64, [u8; 4], i64); 6] = [
    (0, [0, 0, 0, 0], 0),
    (0x7fff_ffff, [0xff, 0xff, 0xff, 0x7f], 0x7fff_ffff),
    (0x8000_0000, [0, 0, 0, 0x80], -0x8000_0000),
    (0xffff_ffff, [0xff, 0xff, 0xff, 0xff], -1),
    (-2, [0xfe, 0xff, 0xff, 0xff], -2),
    (0x5_0000_0001, [1, 0, 0, 0], 1),
];

fn times_keep_low_seconds<A: Abi, R: Abort + AllocGlobal>(rt: &R) -> Result<(), Fail> {
    let mut memory = memory(rt).ok_or("memory")?;
    for (seconds, low, meant) in SECONDS {
        let time = TimeSpec32 {
            time: TimeSpec {
                seconds,
                nanos: 0x3b9a_c9ff,
            },
        };
        let bytes = spelled::<A, TimeSpec32>(&mut memory, &time).ok_or("stored")?;
        assert_eq!(rt; &bytes[..4], low.as_slice());
        assert_eq!(rt; &bytes[4..], [0xff, 0xc9, 0x9a, 0x3b].as_slice());
        let read = fetch::<A, TimeSpec32>(&memory, AT)?;
        assert_eq!(rt; read.time.seconds, meant);
        let time = TimeVal32 {
            time: TimeVal {
                seconds,
                micros: -1,
            },
        };
        let bytes = spelled::<A, TimeVal32>(&mut memory, &time).ok_or("stored")?;
        assert_eq!(rt; &bytes[..4], low.as_slice());
        assert_eq!(rt; &bytes[4..], [0xff, 0xff, 0xff, 0xff].as_slice());
        let read = fetch::<A, TimeVal32>(&memory, AT)?;
        assert_eq!(rt; read.time.micros, -1);
    }
    Ok(())
}

#[test]
fn times_keep_the_low_32_bits_of_seconds(rt: HostRuntime) -> Result<(), Fail> {
    times_keep_low_seconds::<Ia32, _>(&rt)?;
    times_keep_low_seconds::<ArmEabi, _>(&rt)
}

/// A limit, its 32-bit spelling, and what that means.
const LIMITS: [(u64, [u8; 4], u64); 6] = [
    (0, [0, 0, 0, 0], 0),
    (0x7fff_ffff, [0xff, 0xff, 0xff, 0x7f], 0x7fff_ffff),
    (0x8000_0000, [0, 0, 0, 0x80], 0x8000_0000),
    (0xffff_fffe, [0xfe, 0xff, 0xff, 0xff], 0xffff_fffe),
    (0xffff_ffff, [0xff, 0xff, 0xff, 0xff], u64::MAX),
    (u64::MAX, [0xff, 0xff, 0xff, 0xff], u64::MAX),
];

fn limits_end_at_infinity<A: Abi, R: Abort + AllocGlobal>(rt: &R) -> Result<(), Fail> {
    let mut memory = memory(rt).ok_or("memory")?;
    for (hard, spelling, meant) in LIMITS {
        let limit = Limit { soft: 0x400, hard };
        let bytes = spelled::<A, Limit32>(&mut memory, &Limit32 { limit }).ok_or("stored")?;
        assert_eq!(rt; &bytes[..4], [0, 4, 0, 0].as_slice());
        assert_eq!(rt; &bytes[4..], spelling.as_slice());
        let read = fetch::<A, Limit32>(&memory, AT)?;
        assert_eq!(rt; read.limit.hard, meant);
        store::<A, Limit64>(&mut memory, AT, &Limit64 { limit })?;
        let read = fetch::<A, Limit64>(&memory, AT)?;
        assert_eq!(rt; read.limit, limit);
    }
    Ok(())
}

#[test]
fn limits_of_32_bits_end_at_infinity(rt: HostRuntime) -> Result<(), Fail> {
    limits_end_at_infinity::<Ia32, _>(&rt)?;
    limits_end_at_infinity::<ArmEabi, _>(&rt)
}

/// Limits of 64 bits, and their bytes.
const WIDE_LIMITS: [(u64, [u8; 8]); 5] = [
    (0, [0; 8]),
    (0x7fff_ffff, [0xff, 0xff, 0xff, 0x7f, 0, 0, 0, 0]),
    (0x8000_0000, [0, 0, 0, 0x80, 0, 0, 0, 0]),
    (0xffff_ffff, [0xff, 0xff, 0xff, 0xff, 0, 0, 0, 0]),
    (u64::MAX, [0xff; 8]),
];

fn wide_limits_are_whole<A: Abi, R: Abort + AllocGlobal>(rt: &R) -> Result<(), Fail> {
    let mut memory = memory(rt).ok_or("memory")?;
    for (soft, spelling) in WIDE_LIMITS {
        let limit = Limit { soft, hard: 5 };
        let bytes = spelled::<A, Limit64>(&mut memory, &Limit64 { limit }).ok_or("stored")?;
        assert_eq!(rt; bytes, spelling);
        let mut hard = [1; 8];
        memory.copy_in(AT + 8, &mut hard)?;
        assert_eq!(rt; hard, [5, 0, 0, 0, 0, 0, 0, 0]);
    }
    Ok(())
}

#[test]
fn limits_of_64_bits_are_whole(rt: HostRuntime) -> Result<(), Fail> {
    wide_limits_are_whole::<Ia32, _>(&rt)?;
    wide_limits_are_whole::<ArmEabi, _>(&rt)
}

fn timers_have_their_interval_first<A: Abi, R: Abort + AllocGlobal>(rt: &R) -> Result<(), Fail> {
    let mut memory = memory(rt).ok_or("memory")?;
    let timer = TimerValue {
        interval: TimeVal {
            seconds: 0x1_0000_0001,
            micros: 2,
        },
        value: TimeVal {
            seconds: 0x8000_0000,
            micros: -4,
        },
    };
    store::<A, TimerValue32>(&mut memory, AT, &TimerValue32 { timer })?;
    let mut bytes = [1; 16];
    memory.copy_in(AT, &mut bytes)?;
    assert_eq!(rt;
        bytes,
        [
            1, 0, 0, 0, 2, 0, 0, 0, 0, 0, 0, 0x80, 0xfc, 0xff, 0xff, 0xff
        ]
    );
    let read = fetch::<A, TimerValue32>(&memory, AT)?;
    assert_eq!(rt; read.timer.interval.seconds, 1);
    assert_eq!(rt; read.timer.value.seconds, -0x8000_0000);
    assert_eq!(rt; read.timer.value.micros, -4);
    Ok(())
}

#[test]
fn a_timer_has_its_interval_first(rt: HostRuntime) -> Result<(), Fail> {
    timers_have_their_interval_first::<Ia32, _>(&rt)?;
    timers_have_their_interval_first::<ArmEabi, _>(&rt)
}

fn file_times_begin_with_access<A: Abi, R: Abort + AllocGlobal>(rt: &R) -> Result<(), Fail> {
    let mut memory = memory(rt).ok_or("memory")?;
    let times = FileTimes {
        accessed: TimeSpec {
            seconds: 0x1_8000_0000,
            nanos: 0x3fff_ffff,
        },
        modified: TimeSpec {
            seconds: -2,
            nanos: 0x3b9a_c9ff,
        },
    };
    store::<A, FileTimes32>(&mut memory, AT, &FileTimes32 { times })?;
    let mut bytes = [1; 17];
    memory.copy_in(AT, &mut bytes)?;
    assert_eq!(rt;
        &bytes[..8],
        [0, 0, 0, 0x80, 0xff, 0xff, 0xff, 0x3f].as_slice()
    );
    assert_eq!(rt;
        &bytes[8..],
        [0xfe, 0xff, 0xff, 0xff, 0xff, 0xc9, 0x9a, 0x3b, 0].as_slice()
    );
    let read = fetch::<A, FileTimes32>(&memory, AT)?;
    assert_eq!(rt; read.times.accessed.seconds, -0x8000_0000);
    assert_eq!(rt; read.times.modified.seconds, -2);
    assert_eq!(rt; read.times.modified.nanos, 0x3b9a_c9ff);
    Ok(())
}

#[test]
fn file_times_have_the_access_first(rt: HostRuntime) -> Result<(), Fail> {
    file_times_begin_with_access::<Ia32, _>(&rt)?;
    file_times_begin_with_access::<ArmEabi, _>(&rt)
}

fn usage_keeps_low_words<A: Abi, R: Abort + AllocGlobal>(rt: &R) -> Result<(), Fail> {
    let mut memory = memory(rt).ok_or("memory")?;
    let mut usage = Usage { words: [5; 18] };
    usage.words[0] = 0x8000_0000;
    usage.words[17] = 0x1_0000_0006;
    store::<A, Usage32>(&mut memory, AT, &Usage32 { usage })?;
    let mut bytes = [1; 73];
    memory.copy_in(AT, &mut bytes)?;
    assert_eq!(rt; &bytes[..8], [0, 0, 0, 0x80, 5, 0, 0, 0].as_slice());
    assert_eq!(rt; &bytes[64..], [5, 0, 0, 0, 6, 0, 0, 0, 0].as_slice());
    let read = fetch::<A, Usage32>(&memory, AT)?;
    assert_eq!(rt; read.usage.words[0], -0x8000_0000);
    assert_eq!(rt; read.usage.words[17], 6);
    Ok(())
}

#[test]
fn usage_has_18_words(rt: HostRuntime) -> Result<(), Fail> {
    usage_keeps_low_words::<Ia32, _>(&rt)?;
    usage_keeps_low_words::<ArmEabi, _>(&rt)
}

#[test]
fn a_shape_is_stored_whole_or_not_at_all(rt: HostRuntime) -> Result<(), Fail> {
    let mut memory = memory(&rt).ok_or("memory")?;
    let time = TimeSpec32 {
        time: TimeSpec {
            seconds: -1,
            nanos: -1,
        },
    };
    let refused = store::<Ia32, TimeSpec32>(&mut memory, 0x1ffc, &time);
    assert_eq!(rt; refused, Err(StoreFault::Fault));
    let mut bytes = [1; 8];
    memory.copy_in(0x1ffc, &mut bytes)?;
    assert_eq!(rt; bytes, [0; 8]);
    let read = fetch::<ArmEabi, TimeSpec32>(&memory, 0x2ffc);
    assert_eq!(rt; read, Err(Fault));
    Ok(())
}
