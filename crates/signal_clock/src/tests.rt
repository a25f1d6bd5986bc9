//! Signals that wait, are lost and taken; masks, actions and stacks; the timer, and sleeps. A helper says nothing of what it gives: so
//! the proof of a test knows nothing of the state.

use super::*;
use kernel_values::{
    Action, AltStack, Answer, Credentials, Errno, KernelFault, OutOfMemory, SigInfo, SignalSet,
    StateItem, TimeSpec, TimeVal, TimerValue,
};
use std::alloc::Global;
use std::fmt::Debug;
use std::process::Abort;
use std::test::Fail;

const OWN: Credentials = Credentials {
    pid: 1000,
    uid: 5,
    gid: 6,
};

const INVALID: KernelFault = KernelFault::Errno(Errno::InvalidArgument);

const NOT_PERMITTED: KernelFault = KernelFault::Errno(Errno::NotPermitted);

const NO_PROCESS: KernelFault = KernelFault::Errno(Errno::NoProcess);

const FULL: KernelFault = KernelFault::Errno(Errno::TryAgain);

/// What was told is what was wanted.
fn same<T: Debug + PartialEq + Drop>(rt: &impl Abort, told: T, wanted: T) {
    assert_eq!(rt; told, wanted);
}

/// A process at the start: clocks at 0, and nothing of signals.
#[derive(Drop)]
struct Process {
    clocks: Clocks,
    signals: Signals,
}

fn start(alloc: Global) -> Result<Process, OutOfMemory> {
    let signals = Signals::new(alloc)?;
    Ok(Process {
        clocks: Clocks::new(0, 0),
        signals,
    })
}

impl Process {
    fn kill(&mut self, pid: i64, signal: i64) -> Answer<()> {
        self.signals.kill(&OWN, pid, signal)
    }

    fn queue(&mut self, pid: i64, signal: i64, code: i32) -> Answer<()> {
        let info = SigInfo {
            signal: 1,
            errno: 0,
            code,
            pid: 7,
            uid: 8,
            value: 9,
        };
        self.signals.queue(&OWN, pid, signal, &info)
    }

    fn post_last(&mut self) -> Result<(), Errno> {
        self.signals.post(&own_info(&OWN, 64))
    }

    fn waiting(&self) -> usize {
        self.signals.waiting.as_slice().len()
    }

    /// The number and the code of the next signal, and whether it ends the process.
    fn next(&mut self) -> (u32, i32, bool) {
        match self.signals.next_signal() {
            Some(taken) => (taken.info.signal, taken.info.code, taken.end),
            None => (0, 0, false),
        }
    }

    /// How a change of the mask is answered, with the mask before it.
    fn mask(&mut self, how: i64, bits: u64, narrow: bool) -> Answer<u64> {
        let set = Some(SignalSet { bits });
        self.signals.mask(how, set, narrow).map(|set| set.bits)
    }

    fn set_mask(&mut self, bits: u64) {
        self.signals.set_mask(SignalSet { bits });
    }

    /// The bits of the mask, and of the signals that wait and are blocked.
    fn masks(&mut self) -> (Answer<u64>, u64) {
        let mask = self.signals.mask(9, None, false).map(|set| set.bits);
        (mask, self.signals.pending().bits)
    }

    /// Gives a signal a handler at 8000 with the flags SA_RESETHAND, and a mask.
    fn handle(&mut self, signal: i64, bits: u64) -> Answer<u32> {
        let action = Action {
            handler: 0x8000,
            flags: 0x8000_0000,
            restorer: 0,
            mask: SignalSet { bits },
        };
        let before = self.signals.action(signal, Some(action));
        before.map(|action| action.handler)
    }

    /// Lets a signal be ignored.
    fn ignore(&mut self, signal: i64) -> Answer<u32> {
        let action = Action {
            handler: 1,
            flags: 0,
            restorer: 0,
            mask: SignalSet { bits: 0 },
        };
        let before = self.signals.action(signal, Some(action));
        before.map(|action| action.handler)
    }

    /// The handler and the mask of a signal, and whether its action has SA_RESETHAND.
    fn action(&mut self, signal: i64) -> Answer<(u32, u64, bool)> {
        let action = self.signals.action(signal, None);
        action.map(|action| {
            (
                action.handler,
                action.mask.bits,
                has_flag(&action, 0x8000_0000),
            )
        })
    }

    /// How a new stack at 5000 is answered, with the stack before it.
    fn set_stack(&mut self, sp: u32, size: u32, flags: i64) -> Answer<AltStack> {
        let new = AltStack { base: 0x5000, size };
        self.signals.alt_stack(sp, Some(new), flags)
    }

    /// The flags of the stack at a stack pointer, and whether that is on it.
    fn stack_at(&self, sp: u32) -> (u32, bool) {
        let stack = self.signals.alt.get();
        (stack_flags(&stack, sp), is_on(&stack, sp))
    }

    /// Sets the timer in seconds; it tells the time that was left, in microseconds.
    fn set_timer(&mut self, which: i64, interval: i64, value: i64) -> Answer<i64> {
        let value = TimerValue {
            interval: seconds(interval),
            value: seconds(value),
        };
        self.clocks.set_timer(which, &value).map(left)
    }

    fn timer(&self, which: i64) -> Result<i64, Errno> {
        self.clocks.timer(which).map(left)
    }

    /// Sleeps for seconds.
    fn sleep(&mut self, id: i64, absolute: bool, seconds: i64) -> Answer<Slept> {
        let time = TimeSpec { seconds, nanos: 0 };
        self.clocks.sleep(&mut self.signals, id, absolute, &time)
    }

    fn advance(&mut self, nanos: u64) {
        self.clocks.advance(&mut self.signals, u128::from(nanos));
    }

    fn clocks(&self) -> [u64; 2] {
        [self.clocks.real(), self.clocks.monotonic()]
    }

    fn clock(&self, id: i64) -> Result<u64, Errno> {
        self.clocks.clock(id)
    }

    fn set_clock(&mut self, privileged: bool, id: i64, seconds: i64) -> Answer<()> {
        let time = TimeSpec { seconds, nanos: 0 };
        self.clocks.set_clock(privileged, id, &time)
    }

    fn stop_timer(&mut self) {
        self.clocks.stop_timer();
    }
}

fn seconds(seconds: i64) -> TimeVal {
    TimeVal { seconds, micros: 0 }
}

/// The microseconds that are left of a timer, below a second, and its whole seconds a million times.
fn left(timer: TimerValue) -> i64 {
    let TimeVal { seconds, micros } = timer.value;
    seconds.saturating_mul(1_000_000).saturating_add(micros)
}

fn cut(seconds: i64) -> Answer<Slept> {
    let rest = TimeSpec { seconds, nanos: 0 };
    Ok(Slept::Cut { rest })
}

#[test]
fn a_queue_has_room_for_128(rt: HostRuntime) -> Result<(), Fail> {
    let mut process = start(rt.alloc())?;
    for signal in [40; 128] {
        same(&rt, process.queue(1000, signal, -1), Ok(()));
    }
    // One more is lost where it is posted, and who sends it is told.
    same(&rt, process.post_last(), Err(Errno::TryAgain));
    same(&rt, process.kill(0, 64), Err(FULL));
    same(&rt, process.queue(1000, 64, -1), Err(FULL));
    same(&rt, process.waiting(), 128);
    // The others have room of their own, and one that waits is lost.
    same(&rt, process.kill(1000, 10), Ok(()));
    same(&rt, process.kill(0, 10), Ok(()));
    same(&rt, process.waiting(), 129);
    Ok(())
}

#[test]
fn sending_is_refused_in_order(rt: HostRuntime) -> Result<(), Fail> {
    let mut process = start(rt.alloc())?;
    let queued = [
        (7, 65, 0, Err(INVALID)),
        (7, 10, 0, Err(NOT_PERMITTED)),
        (0, 10, -6, Err(NOT_PERMITTED)),
        (0, 10, -1, Err(NO_PROCESS)),
        (1000, 0, 0, Ok(())),
    ];
    for (pid, signal, code, told) in queued {
        same(&rt, process.queue(pid, signal, code), told);
    }
    same(&rt, process.kill(-1, -1), Err(INVALID));
    same(&rt, process.kill(-1, 10), Err(NO_PROCESS));
    same(&rt, process.waiting(), 0);
    Ok(())
}

#[test]
fn the_lowest_comes_first(rt: HostRuntime) -> Result<(), Fail> {
    let mut process = start(rt.alloc())?;
    process.set_mask(0x800);
    for signal in [40, 12, 40, 10] {
        same(&rt, process.kill(0, signal), Ok(()));
    }
    same(&rt, process.next(), (10, 0, true));
    same(&rt, process.next(), (40, 0, true));
    same(&rt, process.next(), (40, 0, true));
    same(&rt, process.next(), (0, 0, false));
    same(&rt, process.masks(), (Ok(0x800), 0x800));
    Ok(())
}

#[test]
fn ignored_signals_are_dropped(rt: HostRuntime) -> Result<(), Fail> {
    let mut process = start(rt.alloc())?;
    // SIGCHLD is ignored by default, and waits while it is blocked.
    same(&rt, process.kill(0, 17), Ok(()));
    same(&rt, process.waiting(), 0);
    same(&rt, process.mask(0, 0x1_0000, false), Ok(0));
    same(&rt, process.kill(0, 17), Ok(()));
    same(&rt, process.waiting(), 1);
    same(&rt, process.mask(1, 0x1_0000, false), Ok(0x1_0000));
    same(&rt, process.next(), (0, 0, false));
    same(&rt, process.waiting(), 0);
    // An action that ignores a signal drops it where it waits.
    same(&rt, process.kill(0, 10), Ok(()));
    same(&rt, process.ignore(10), Ok(0));
    same(&rt, process.waiting(), 0);
    Ok(())
}

#[test]
fn a_narrow_mask_leaves_the_high_bits(rt: HostRuntime) -> Result<(), Fail> {
    let mut process = start(rt.alloc())?;
    process.set_mask(u64::MAX);
    let changes = [
        (3, 1, Err(INVALID)),
        (2, 1, Ok(0xffff_ffff_fffb_feff)),
        (1, u64::MAX, Ok(0xffff_ffff_0000_0001)),
        (0, 0x7_0000_0003, Ok(0xffff_ffff_0000_0000)),
        (0, 0, Ok(0xffff_ffff_0000_0003)),
    ];
    for (how, bits, told) in changes {
        same(&rt, process.mask(how, bits, true), told);
    }
    Ok(())
}

#[test]
fn a_handler_begins(rt: HostRuntime) -> Result<(), Fail> {
    let mut process = start(rt.alloc())?;
    same(&rt, process.handle(10, 0x4_0101), Ok(0));
    for signal in [0, 9, 19, 65] {
        same(&rt, process.handle(signal, 0), Err(INVALID));
    }
    same(&rt, process.action(10), Ok((0x8000, 1, true)));
    same(&rt, process.kill(0, 10), Ok(()));
    same(&rt, process.next(), (10, 0, false));
    same(&rt, process.masks(), (Ok(0x201), 0));
    same(&rt, process.action(10), Ok((0, 1, true)));
    Ok(())
}

#[test]
fn an_alternate_stack(rt: HostRuntime) -> Result<(), Fail> {
    let mut process = start(rt.alloc())?;
    let stack = AltStack {
        base: 0x5000,
        size: 2048,
    };
    let no_stack = AltStack { base: 0, size: 0 };
    let changes = [
        (0, 2047, 3, Err(INVALID)),
        (0, 2047, 0, Err(KernelFault::Errno(Errno::NoMemory))),
        (0, 2048, 1, Ok(no_stack)),
        (0x5800, 2048, 3, Err(NOT_PERMITTED)),
    ];
    for (sp, size, flags, told) in changes {
        same(&rt, process.set_stack(sp, size, flags), told);
    }
    same(&rt, process.stack_at(0x5000), (0, false));
    same(&rt, process.stack_at(0x5800), (1, true));
    same(&rt, process.set_stack(0x5801, 0, 2), Ok(stack));
    same(&rt, process.stack_at(0x5800), (2, false));
    Ok(())
}

#[test]
fn the_timer_cuts_a_sleep(rt: HostRuntime) -> Result<(), Fail> {
    let mut process = start(rt.alloc())?;
    same(&rt, process.set_timer(0, 2, 3), Ok(0));
    // As long as the timer: whole, and SIGALRM waits at its end.
    same(&rt, process.sleep(1, false, 3), Ok(Slept::Whole));
    same(&rt, process.sleep(1, false, 4), cut(4));
    same(&rt, process.next(), (14, 0x80, true));
    same(&rt, process.sleep(0, true, 7), cut(2));
    same(&rt, process.clocks(), [5_000_000_000, 5_000_000_000]);
    // Many intervals in one step, and one SIGALRM.
    process.advance(1_000_000_500_000_000);
    same(&rt, process.waiting(), 1);
    same(&rt, process.timer(0), Ok(1_500_000));
    // No blocked SIGALRM cuts a sleep.
    process.set_mask(0x2000);
    same(&rt, process.sleep(1, false, 9), Ok(Slept::Whole));
    same(&rt, process.sleep(2, false, -1), Err(INVALID));
    Ok(())
}

#[test]
fn the_timer_is_set_and_told(rt: HostRuntime) -> Result<(), Fail> {
    let mut process = start(rt.alloc())?;
    let changes = [
        (1, 0, 0, Err(INVALID)),
        (0, -1, 0, Err(INVALID)),
        (0, 0, 0x8000_0000, Err(INVALID)),
        (0, 0, 0x7fff_ffff, Ok(0)),
        (0, 5, 0, Ok(2_147_483_647_000_000)),
        (0, 5, 1, Ok(0)),
    ];
    for (which, interval, value, told) in changes {
        same(&rt, process.set_timer(which, interval, value), told);
    }
    // Of a rest that is no microsecond one is told.
    process.advance(999_999_999);
    same(&rt, process.timer(0), Ok(1));
    same(&rt, process.timer(2), Err(Errno::InvalidArgument));
    process.stop_timer();
    same(&rt, process.timer(0), Ok(0));
    Ok(())
}

#[test]
fn the_real_clock_is_set(rt: HostRuntime) -> Result<(), Fail> {
    let mut process = start(rt.alloc())?;
    same(&rt, process.set_clock(false, 1, -1), Err(INVALID));
    same(
        &rt,
        process.set_clock(false, 0, 4_611_686_019),
        Err(INVALID),
    );
    same(&rt, process.set_clock(false, 0, 1), Err(NOT_PERMITTED));
    same(&rt, process.set_clock(true, 0, 1), Ok(()));
    same(&rt, process.clock(0), Ok(1_000_000_000));
    same(&rt, process.clock(1), Ok(0));
    same(&rt, process.clock(2), Err(Errno::InvalidArgument));
    // Each clock stops at its last value.
    process.advance(u64::MAX);
    same(&rt, process.clocks(), [CLOCK_END - 1; 2]);
    Ok(())
}

/// What an item is of, and a number that it tells.
fn line(item: &StateItem) -> (&'static str, u64) {
    match item {
        StateItem::Timer(timer) => ("timer", timer.end),
        StateItem::Mask(mask) => ("mask", mask.bits),
        StateItem::AltStack(stack) => ("alt", u64::from(stack.size)),
        StateItem::Action(action) => ("action", u64::from(action.signal)),
        StateItem::Pending(info) => ("pending", u64::from(info.signal)),
        _ => ("other", 0),
    }
}

/// Whether these items alone are told, in this order.
fn tells(process: &Process, lines: &[(&'static str, u64)]) -> bool {
    let mut cursor = SignalCursor::Timer;
    for wanted in lines {
        match process.signals.item(&process.clocks, cursor) {
            Some((item, next)) if line(&item) == *wanted => cursor = next,
            _ => return false,
        }
    }
    process.signals.item(&process.clocks, cursor).is_none()
}

#[test]
fn all_is_told_in_order(rt: HostRuntime) -> Result<(), Fail> {
    let mut process = start(rt.alloc())?;
    same(&rt, tells(&process, &[]), true);
    same(&rt, process.set_timer(0, 0, 3), Ok(0));
    process.set_mask(0x800);
    same(&rt, process.handle(10, 0), Ok(0));
    same(&rt, process.set_stack(0, 2048, 0).is_ok(), true);
    same(&rt, process.kill(0, 12), Ok(()));
    same(&rt, process.kill(0, 10), Ok(()));
    same(&rt, tells(&process, &ITEMS), true);
    Ok(())
}

const ITEMS: [(&'static str, u64); 6] = [
    ("timer", 3_000_000_000),
    ("mask", 0x800),
    ("alt", 2048),
    ("action", 10),
    ("pending", 10),
    ("pending", 12),
];
