use crate::Field::{I32, U16, U32, U64};
use crate::Misfit::{Clamp, Low, Refuse, RefuseAbove};
use crate::Offset::{At, By};
use crate::{Abi, ArmEabi, Column, Ia32, Native64, NoForm, Table, bytes_of, get_row, put_row};
use std::test::Fail;

/// A shape whose 64-bit number is aligned by the ABI.
const SHAPE: Table = Table {
    size: By(24, 32),
    columns: &[
        Column(U32, At(0), Low),
        Column(U64, By(4, 8), RefuseAbove(0x7fff_ffff_ffff_ffff)),
        Column(U16, By(12, 16), Clamp(65_535, 65_534)),
        Column(I32, By(16, 20), Refuse),
        Column(I32, By(20, 24), Low),
    ],
};

const ROW: [u64; 5] = [0x1_0000_0002, 3, 70_000, u64::MAX, 0x8000_0000];

#[test]
fn ia32_aligns_to_four_bytes(rt: HostRuntime) -> Result<(), Fail> {
    let mut row = ROW;
    let mut out = [7; 24];
    assert_eq!(rt; put_row::<Ia32>(SHAPE, &mut row, &mut out), Ok(()));
    let spelled = [
        2, 0, 0, 0, 3, 0, 0, 0, 0, 0, 0, 0, 0xfe, 0xff, 0, 0, 0xff, 0xff, 0xff, 0xff, 0, 0, 0, 0x80,
    ];
    assert_eq!(rt; out, spelled);
    let mut read = [0; 5];
    get_row::<Ia32>(SHAPE, &out, &mut read);
    assert_eq!(rt; read, [2, 3, 65_534, u64::MAX, 0xffff_ffff_8000_0000]);
    Ok(())
}

#[test]
fn arm_and_native_align_to_eight_bytes(rt: HostRuntime) -> Result<(), Fail> {
    let spelled = [
        2, 0, 0, 0, 0, 0, 0, 0, 3, 0, 0, 0, 0, 0, 0, 0, 0xfe, 0xff, 0, 0, 0xff, 0xff, 0xff, 0xff,
        0, 0, 0, 0x80, 0, 0, 0, 0,
    ];
    let meant = [2, 3, 65_534, u64::MAX, 0xffff_ffff_8000_0000];
    let mut row = ROW;
    let mut out = [7; 32];
    assert_eq!(rt; put_row::<ArmEabi>(SHAPE, &mut row, &mut out), Ok(()));
    assert_eq!(rt; out, spelled);
    let mut read = [0; 5];
    get_row::<ArmEabi>(SHAPE, &out, &mut read);
    assert_eq!(rt; read, meant);
    let mut row = ROW;
    let mut out = [7; 32];
    assert_eq!(rt; put_row::<Native64>(SHAPE, &mut row, &mut out), Ok(()));
    assert_eq!(rt; out, spelled);
    let mut read = [0; 5];
    get_row::<Native64>(SHAPE, &out, &mut read);
    assert_eq!(rt; read, meant);
    Ok(())
}

#[test]
fn abis_have_their_constants(rt: HostRuntime) -> Result<(), Fail> {
    assert_eq!(rt; [Ia32::WORD, Ia32::ALIGN64, Ia32::BLOB_ALIGN], [4, 4, 4]);
    assert_eq!(rt;
        [ArmEabi::WORD, ArmEabi::ALIGN64, ArmEabi::BLOB_ALIGN],
        [4, 8, 8]
    );
    assert_eq!(rt;
        [Native64::WORD, Native64::ALIGN64, Native64::BLOB_ALIGN],
        [8, 8, 8]
    );
    assert_eq!(rt;
        [Ia32::PAIR_EVEN, ArmEabi::PAIR_EVEN, Native64::PAIR_EVEN],
        [false, true, false]
    );
    Ok(())
}

#[test]
fn a_shape_has_its_bytes(rt: HostRuntime) -> Result<(), Fail> {
    assert_eq!(rt; bytes_of::<Ia32>(SHAPE), 24);
    assert_eq!(rt; bytes_of::<ArmEabi>(SHAPE), 32);
    Ok(())
}

#[test]
fn a_row_without_form_changes_nothing(rt: HostRuntime) -> Result<(), Fail> {
    let mut out = [7; 24];
    let mut row = ROW;
    row[3] = 0x8000_0000;
    assert_eq!(rt; put_row::<Ia32>(SHAPE, &mut row, &mut out), Err(NoForm));
    let mut row = ROW;
    row[1] = 0x8000_0000_0000_0000;
    assert_eq!(rt; put_row::<Ia32>(SHAPE, &mut row, &mut out), Err(NoForm));
    assert_eq!(rt; out, [7; 24]);
    Ok(())
}
