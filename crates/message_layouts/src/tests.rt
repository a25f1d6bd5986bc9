//! Shapes, control messages and addresses, by the headers.

ghost use Rattle.std.specs.Prelude.{◌<◌, ◌^◌, length};

use crate::{
    CompatCredentials, MessageHeader, NativeControls, SCM_RIGHTS, SOL_SOCKET, SignedWord32,
    address_in, address_out, controls_size, credentials_in, right_at, rights_count, translate,
};
use kernel_values::{Credentials, Errno, Name};
use layout_laws::{Abi, ArmEabi, Ia32, Layout, fetch, store};
use std::process::Abort;
use std::test::Fail;
use user_memory::{Rights, UserMemory};

const AT: u32 = 0x1000;

// The bytes that a value is stored as, and what is read from them.
fn stored<A: Abi, T: Layout<A>, R: Abort + AllocGlobal>(
    rt: &R,
    value: &T,
    bytes: &mut [u8],
) -> Result<T, Fail> {
    let mut memory = UserMemory::new(rt.alloc())?;
    memory.map_page(1, Rights::ReadWrite)?;
    store::<A, T>(&mut memory, AT, value)?;
    memory.copy_in(AT, bytes)?;
    Ok(fetch::<A, T>(&memory, AT)?)
}

#[test]
fn a_header_has_seven_words(rt: HostRuntime) -> Result<(), Fail> {
    let header = MessageHeader {
        name: 0x1000,
        name_length: -1,
        vector: 0x2000,
        vector_count: 2,
        control: 0x3000,
        control_length: 24,
        flags: 8,
    };
    let mut bytes = [0xff; 28];
    let back = stored::<ArmEabi, MessageHeader, _>(&rt, &header, &mut bytes)?;
    assert_eq!(rt; back, header);
    assert_eq!(rt;
        bytes,
        [
            0, 0x10, 0, 0, 0xff, 0xff, 0xff, 0xff, 0, 0x20, 0, 0, 2, 0, 0, 0, 0, 0x30, 0, 0, 24, 0,
            0, 0, 8, 0, 0, 0
        ]
    );
    Ok(())
}

#[test]
fn credentials_and_an_int(rt: HostRuntime) -> Result<(), Fail> {
    let credentials = Credentials {
        pid: 7,
        uid: 0x100,
        gid: 0xffff_ffff,
    };
    let mut bytes = [0xff; 12];
    let back = stored::<Ia32, CompatCredentials, _>(
        &rt,
        &CompatCredentials { credentials },
        &mut bytes,
    )?;
    assert_eq!(rt; back.credentials, credentials);
    assert_eq!(rt; bytes, [7, 0, 0, 0, 0, 1, 0, 0, 0xff, 0xff, 0xff, 0xff]);
    assert_eq!(rt; credentials_in(&bytes), Some(credentials));
    assert_eq!(rt; credentials_in(&bytes[1..]), None);
    let mut word = [0; 4];
    let back = stored::<Ia32, SignedWord32, _>(&rt, &SignedWord32 { value: -2 }, &mut word)?;
    assert_eq!(rt; back.value, -2);
    assert_eq!(rt; word, [0xfe, 0xff, 0xff, 0xff]);
    Ok(())
}

// The native bytes of messages, and these messages one after another.
#[tactic(auto, using(crate::proofs::Walk::list_there))]
fn native<'a>(from: &[u8], out: &'a mut [u8]) -> Option<NativeControls<'a>>
    requires { length from.now < 2 ^ 32 }
{
    if controls_size(from)? != out.len() {
        return None;
    }
    translate(from, out);
    Some(NativeControls::new(out))
}

// Two descriptors and a gap of one byte, and then a message without data.
const MESSAGES: [u8; 36] = [
    21, 0, 0, 0, 1, 0, 0, 0, 1, 0, 0, 0, 3, 0, 0, 0, 0xff, 0xff, 0xff, 0xff, 9, 0xee, 0xee, 0xee,
    12, 0, 0, 0, 1, 0, 0, 0, 2, 0, 0, 0,
];

#[test]
fn messages_become_those_of_a_64_bit_kernel(rt: HostRuntime) -> Result<(), Fail> {
    let mut out = [0xff; 48];
    assert!(rt; native(&MESSAGES, &mut out).is_some());
    assert_eq!(rt;
        out,
        [
            25, 0, 0, 0, 0, 0, 0, 0, 1, 0, 0, 0, 1, 0, 0, 0, 3, 0, 0, 0, 0xff, 0xff, 0xff, 0xff, 9,
            0, 0, 0, 0, 0, 0, 0, 16, 0, 0, 0, 0, 0, 0, 0, 1, 0, 0, 0, 2, 0, 0, 0
        ]
    );
    Ok(())
}

#[test]
fn messages_are_told_one_after_another(rt: HostRuntime) -> Result<(), Fail> {
    let mut out = [0; 48];
    let mut messages = native(&MESSAGES, &mut out).ok_or("messages")?;
    let first = messages.next().ok_or("first")?;
    assert_eq!(rt; (first.level, first.kind), (SOL_SOCKET, SCM_RIGHTS));
    assert_eq!(rt; rights_count(first.content), 2);
    if first.content.len() == 9 {
        assert_eq!(rt; right_at(first.content, 1), -1);
    }
    let second = messages.next().ok_or("second")?;
    assert_eq!(rt; (second.kind, second.content.len()), (2, 0));
    assert!(rt; messages.next().is_none());
    Ok(())
}

#[test]
fn bytes_of_no_list(rt: HostRuntime) -> Result<(), Fail> {
    assert_eq!(rt; controls_size(&[]), Some(0));
    assert_eq!(rt; controls_size(&[0; 11]), None);
    assert_eq!(rt; controls_size(&[11, 0, 0, 0, 0, 0, 0, 0, 0, 0, 0, 0]), None);
    assert_eq!(rt; controls_size(&[13, 0, 0, 0, 0, 0, 0, 0, 0, 0, 0, 0]), None);
    assert_eq!(rt;
        controls_size(&[12, 0, 0, 0, 0, 0, 0, 0, 0, 0, 0, 0, 1]),
        Some(16)
    );
    Ok(())
}

#[test]
fn names_of_addresses(rt: HostRuntime) -> Result<(), Fail> {
    let path = address_in(&[1, 0, b'a', 0, b'b']).ok().ok_or("path")?;
    assert_eq!(rt; path.as_slice(), b"a".as_slice());
    let hidden = address_in(&[1, 0, 0, b'a', 0]).ok().ok_or("abstract")?;
    assert_eq!(rt; hidden.as_slice(), [0, b'a', 0].as_slice());
    assert_eq!(rt; address_in(&[1, 0]).err(), Some(Errno::InvalidArgument));
    assert_eq!(rt;
        address_in(&[2, 0, b'a']).err(),
        Some(Errno::InvalidArgument)
    );
    assert_eq!(rt; address_in(&[1; 111]).err(), Some(Errno::InvalidArgument));
    Ok(())
}

#[test]
fn addresses_of_names(rt: HostRuntime) -> Result<(), Fail> {
    let mut out = [0xff; 111];
    assert_eq!(rt; address_out(&Name::new(b"a"), &mut out), 4);
    assert_eq!(rt; &out[..5], [1, 0, b'a', 0, 0xff].as_slice());
    assert_eq!(rt; address_out(&Name::new(&[0, b'b']), &mut out), 4);
    assert_eq!(rt; &out[..5], [1, 0, 0, b'b', 0xff].as_slice());
    assert_eq!(rt; address_out(&Name::new(b""), &mut out), 2);
    assert_eq!(rt; address_out(&Name::new(&[b'c'; 108]), &mut out), 111);
    Ok(())
}
