use super::*;
use kernel_values::{
    AbiKind, Action, ActionItem, AltStack, Attributes, BacklogItem, BoundItem, ByteList, BytesItem,
    ClockItem, Credentials, DescriptorItem, End, Limit, LimitItem, LockItem, MessageItem, Name,
    NameItem, NameText, NodeItem, OpenFileItem, OpenFlags, OpenKind, PipeItem, RuleItem,
    SerialList, SigInfo, SignalSet, SocketItem, SocketKind, SocketState, StateItem, TableItem,
    TableName, TimeSpec, TimeVal, TimeoutsItem, TimerItem, WaitingItem, WorkingItem,
};
use std::alloc::Global;
use std::process::Abort;
use std::test::Fail;

/// An item's line in the report of a process of this kind.
fn tells(
    rt: &impl Abort,
    alloc: Global,
    abi: AbiKind,
    item: StateItem,
    line: &[u8],
) -> Result<(), Fail> {
    let mut out = Vec::new(alloc);
    put_item(alloc, &mut out, abi, item)?;
    assert_eq!(rt; out.as_slice(), line);
    Ok(())
}

/// The lines of items that are the same for both kinds of process.
fn tell(rt: &impl Abort, alloc: Global, items: Vec<(StateItem, &[u8])>) -> Result<(), Fail> {
    for (item, line) in items {
        tells(rt, alloc, AbiKind::Ia32, item, line)?;
    }
    Ok(())
}

#[test]
fn lines_of_calls(rt: HostRuntime) -> Result<(), Fail> {
    let alloc = rt.alloc();
    let mut out = Vec::new(alloc);
    put_call(alloc, &mut out, 12, b"read", &[1, 0xffff_fff2])?;
    put_change(alloc, &mut out, 0x1003, &[0x80, 0x0a])?;
    put_end(alloc, &mut out, None)?;
    put_end(alloc, &mut out, Some(End::Exit(255)))?;
    put_end(alloc, &mut out, Some(End::Signal(11)))?;
    put_gone(alloc, &mut out, 13)?;
    put_state_head(&mut out)?;
    put_peak(alloc, &mut out, 0x1f0)?;
    put_last(&mut out)?;
    put_ok(alloc, &mut out, 18)?;
    put_bad(alloc, &mut out, 17, b"field")?;
    assert_eq!(&rt;
        out.as_slice(),
        b"call 12 read 00000001 fffffff2\nmem 00001003 800a\nexit ff\nkilled b\ncall 13 gone\nstate\npeak 1f0\nend\nok 12\nbad 17 field\n".as_slice()
    );
    Ok(())
}

#[test]
fn lines_of_clocks_and_limits(rt: HostRuntime) -> Result<(), Fail> {
    let alloc = rt.alloc();
    let clock = ClockItem {
        real: 0x1dcd_6500_0000_0000,
        monotonic: 0,
    };
    let timer = TimerItem {
        end: 0x3b9a_ca00,
        interval: 10,
    };
    let limit = LimitItem {
        resource: 7,
        limit: Limit {
            soft: 0x10,
            hard: 0xffff_ffff_ffff_ffff,
        },
    };
    assert!(&rt; is_front(&StateItem::Clock(clock)));
    assert!(&rt; is_front(&StateItem::Ended(End::Exit(0))));
    assert!(&rt; !is_front(&StateItem::Timer(timer)));
    let items = vec![in alloc;
        (
            StateItem::Clock(clock),
            b"clock 1dcd650000000000 0\n".as_slice()
        ),
        (StateItem::Ended(End::Exit(7)), b"ended exit 7\n"),
        (StateItem::Ended(End::Signal(15)), b"ended signal f\n"),
        (StateItem::Timer(timer), b"timer 3b9aca00 a\n"),
        (StateItem::Limit(limit), b"limit 7 10 ffffffffffffffff\n"),
    ]?;
    tell(&rt, alloc, items)
}

#[test]
fn lines_of_signals(rt: HostRuntime) -> Result<(), Fail> {
    let alloc = rt.alloc();
    let stack = AltStack {
        base: 0x8000,
        size: 0x2000,
    };
    let action = ActionItem {
        signal: 14,
        action: Action {
            handler: 0x1000,
            flags: 0x1400_0004,
            restorer: 0x2000,
            mask: SignalSet {
                bits: 0x2_0000_0000,
            },
        },
    };
    let info = SigInfo {
        signal: 34,
        errno: 0,
        code: -1,
        pid: 0x3e8,
        uid: 0,
        value: 0x1_0000_0001,
    };
    let items = vec![in alloc;
        (
            StateItem::Mask(SignalSet {
                bits: 0x8000_0000_0000_0001
            }),
            b"mask 8000000000000001\n".as_slice()
        ),
        (StateItem::AltStack(stack), b"alt 8000 2000\n"),
        (
            StateItem::Action(action),
            b"action e 1000 14000004 2000 200000000\n"
        ),
        (
            StateItem::Pending(info),
            b"pending 22 0 ffffffff 3e8 0 100000001\n"
        ),
    ]?;
    tell(&rt, alloc, items)
}

/// Accessed a nanosecond before 1970.
const TIMES: Attributes = Attributes {
    mode: 0o100644,
    uid: 0x3e8,
    gid: 100,
    accessed: TimeSpec {
        seconds: -1,
        nanos: 999_999_999,
    },
    modified: TimeSpec {
        seconds: 0,
        nanos: 0,
    },
    changed: TimeSpec {
        seconds: 16,
        nanos: 1,
    },
};

#[test]
fn lines_of_the_tree(rt: HostRuntime) -> Result<(), Fail> {
    let alloc = rt.alloc();
    let directory = NodeItem {
        inode: 2,
        is_directory: true,
        size: 0,
        attributes: TIMES,
    };
    let file = NodeItem {
        inode: 11,
        is_directory: false,
        size: 300,
        attributes: TIMES,
    };
    let name = NameItem {
        directory: 2,
        position: 3,
        child: 11,
        name: NameText::from_slice(alloc, b"log")?,
    };
    let content = BytesItem {
        inode: 11,
        offset: 0x1000,
        bytes: ByteList::from_slice(alloc, &[0xff, 0x01])?,
    };
    let lock = LockItem {
        inode: 11,
        write: true,
        first: 0,
        last: 0x7fff_ffff_ffff_ffff,
    };
    let readers = LockItem {
        inode: 11,
        write: false,
        first: 16,
        last: 17,
    };
    let items = vec![in alloc;
        (
            StateItem::Working(WorkingItem { inode: 18 }),
            b"cwd 12\n".as_slice()
        ),
        (
            StateItem::Node(directory),
            b"node 2 d 0 81a4 3e8 64 ffffffffffffffff.3b9ac9ff 0.0 10.1\n"
        ),
        (
            StateItem::Node(file),
            b"node b f 12c 81a4 3e8 64 ffffffffffffffff.3b9ac9ff 0.0 10.1\n"
        ),
        (StateItem::Name(name), b"name 2 3 b 6c6f67\n"),
        (StateItem::Bytes(content), b"bytes b 1000 ff01\n"),
        (StateItem::Lock(lock), b"lock b w 0 7fffffffffffffff\n"),
        (StateItem::Lock(readers), b"lock b r 10 11\n"),
    ]?;
    tell(&rt, alloc, items)
}

/// An open file with serial 5, whose flags are `O_WRONLY`, `O_APPEND` and `O_DIRECTORY`.
fn open(kind: OpenKind) -> StateItem {
    StateItem::OpenFile(OpenFileItem {
        serial: 5,
        kind,
        flags: OpenFlags::from_word(AbiKind::Ia32, 0x10401),
        position: 0x100,
        inode: 12,
    })
}

#[test]
fn lines_of_open_files(rt: HostRuntime) -> Result<(), Fail> {
    let alloc = rt.alloc();
    let descriptor = DescriptorItem {
        number: 16,
        serial: 5,
        cloexec: true,
    };
    let pipe = PipeItem {
        inode: 12,
        bytes: ByteList::from_slice(alloc, &[0x0a, 0xb0])?,
    };
    let empty = PipeItem {
        inode: 12,
        bytes: ByteList::new(alloc),
    };
    let items = vec![in alloc;
        (StateItem::Descriptor(descriptor), b"fd 10 5 1\n".as_slice()),
        (open(OpenKind::File), b"open 5 file 10401 100 c\n"),
        (open(OpenKind::Directory), b"open 5 dir 10401 100 c\n"),
        (open(OpenKind::PipeRead), b"open 5 pr 10401 100 c\n"),
        (open(OpenKind::PipeWrite), b"open 5 pw 10401 100 c\n"),
        (open(OpenKind::RuleSocket), b"open 5 rule 10401 100 c\n"),
        (StateItem::Pipe(pipe), b"pipe c 0ab0\n"),
        (StateItem::Pipe(empty), b"pipe c -\n"),
    ]?;
    tell(&rt, alloc, items)?;
    let arm = open(OpenKind::File);
    tells(
        &rt,
        alloc,
        AbiKind::ArmEabi,
        arm,
        b"open 5 file 4401 100 c\n",
    )
}

#[test]
fn lines_of_sockets(rt: HostRuntime) -> Result<(), Fail> {
    let alloc = rt.alloc();
    let stream = SocketItem {
        serial: 6,
        kind: SocketKind::Stream,
        flags: OpenFlags::from_word(AbiKind::Ia32, 0x802),
        inode: 13,
        state: SocketState::Connected,
        peer: 16,
        shut_read: true,
        shut_write: true,
        passes_credentials: false,
    };
    let datagram = SocketItem {
        kind: SocketKind::Datagram,
        state: SocketState::New,
        peer: 0,
        shut_read: false,
        passes_credentials: true,
        ..stream
    };
    let listening = SocketItem {
        state: SocketState::Listening,
        peer: 0,
        shut_write: false,
        ..stream
    };
    let bound = BoundItem {
        serial: 6,
        name: Name::new(b"\0ab"),
    };
    let timeouts = TimeoutsItem {
        serial: 6,
        receive: TimeVal {
            seconds: 1,
            micros: 500_000,
        },
        send: TimeVal {
            seconds: -1,
            micros: 0,
        },
    };
    let backlog = BacklogItem {
        serial: 6,
        backlog: 128,
    };
    let waiting = WaitingItem {
        serial: 6,
        connection: 10,
    };
    let items = vec![in alloc;
        (
            StateItem::Socket(stream),
            b"open 6 stream 802 d 2 10 3 0\n".as_slice()
        ),
        (StateItem::Socket(datagram), b"open 6 dgram 802 d 0 0 2 1\n"),
        (
            StateItem::Socket(listening),
            b"open 6 stream 802 d 1 0 1 0\n"
        ),
        (StateItem::Bound(bound), b"bound 6 006162\n"),
        (
            StateItem::Timeouts(timeouts),
            b"tmo 6 1 7a120 ffffffffffffffff 0\n"
        ),
        (StateItem::Backlog(backlog), b"backlog 6 80\n"),
        (StateItem::Waiting(waiting), b"wait 6 a\n"),
    ]?;
    tell(&rt, alloc, items)
}

/// A message with these bytes, which carries these open files.
fn message(alloc: Global, bytes: &[u8], rights: &[u64]) -> Result<StateItem, Fail> {
    let mut held = SerialList::new(alloc);
    for serial in rights {
        held.push(*serial)?;
    }
    Ok(StateItem::Message(MessageItem {
        serial: 6,
        bytes: ByteList::from_slice(alloc, bytes)?,
        rights: held,
        credentials: Credentials {
            pid: 0x3e8,
            uid: 1,
            gid: 0x64,
        },
    }))
}

#[test]
fn lines_of_messages(rt: HostRuntime) -> Result<(), Fail> {
    let alloc = rt.alloc();
    let items = vec![in alloc;
        (
            message(alloc, b"", &[5, 17])?,
            b"msg 6 - 2 5 11 3e8 1 64\n".as_slice()
        ),
        (message(alloc, b"a\n", &[])?, b"msg 6 610a 0 3e8 1 64\n"),
    ]?;
    tell(&rt, alloc, items)
}

#[test]
fn lines_of_rule_tables(rt: HostRuntime) -> Result<(), Fail> {
    let alloc = rt.alloc();
    let table = TableItem {
        name: TableName::Raw,
        rules: 3,
        size: 0x1e0,
        hook_entry: [Some(0), None, None, Some(0x98), None],
        underflow: [Some(0), None, None, Some(0x130), None],
    };
    let filter = TableItem {
        name: TableName::Filter,
        ..table
    };
    let mangle = TableItem {
        name: TableName::Mangle,
        hook_entry: [Some(1); 5],
        underflow: [Some(2); 5],
        ..table
    };
    let rule = RuleItem {
        place: 0x98,
        bytes: ByteList::from_slice(alloc, &[0x00, 0xab])?,
    };
    let items = vec![in alloc;
        (
            StateItem::Table(table),
            b"table raw 3 1e0 0 - - 98 - 0 - - 130 -\n".as_slice()
        ),
        (
            StateItem::Table(filter),
            b"table filter 3 1e0 0 - - 98 - 0 - - 130 -\n"
        ),
        (
            StateItem::Table(mangle),
            b"table mangle 3 1e0 1 1 1 1 1 2 2 2 2 2\n"
        ),
        (StateItem::Rule(rule), b"rule 98 00ab\n"),
    ]?;
    tell(&rt, alloc, items)
}
