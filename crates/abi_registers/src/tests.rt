use crate::Form::{Pair, Signed, Word};
use crate::{Args, Form, Registers, from_words};
use kernel_values::AbiKind::{ArmEabi, Ia32};
use std::test::*;

/// Registers of i386, with the places of all but the number and the words.
fn ia32(number: u32, words: [u32; 6]) -> Registers {
    let [ebx, ecx, edx, esi, edi, ebp] = words;
    Registers::Ia32([number, ebx, ecx, edx, esi, edi, ebp, 0x57ac, 0xe1b, 0x246])
}

/// Registers of Arm, with the places of all but the number and the words.
fn arm(number: u32, words: [u32; 6]) -> Registers {
    let [r0, r1, r2, r3, r4, r5] = words;
    Registers::Arm([
        r0, r1, r2, r3, r4, r5, 6, number, 8, 9, 10, 11, 12, 0x57ac, 14, 15, 0x10,
    ])
}

#[test]
fn pread64_on_both(rt: HostRuntime) {
    let forms = [Signed, Word, Word, Pair];
    let of_ia32 = ia32(180, [0, 0x1000, 3, 1, 1, 0]);
    assert_eq!(rt; of_ia32.number(), 180);
    assert_eq!(rt; of_ia32.kind(), Ia32);
    let args = of_ia32.arguments(&forms);
    assert_eq!(rt; args.values, [0, 0x1000, 3, 0x1_0000_0001, 0, 0]);
    assert_eq!(rt; args.count, 4);
    let of_arm = arm(180, [0, 0x1000, 3, 0xdead_beef, 1, 1]);
    assert_eq!(rt; of_arm.number(), 180);
    assert_eq!(rt; of_arm.kind(), ArmEabi);
    assert_eq!(rt; of_arm.arguments(&forms), args);
}

/// Words, forms, and the arguments on i386 and on Arm.
const PLACES: [([u32; 6], &[Form], [i64; 6], [i64; 6]); 6] = [
    // lseek and its like: the second word is signed, the third isn't
    (
        [0xffff_ffff, 0xffff_ffff, 0xffff_ffff, 7, 7, 7],
        &[Signed, Signed, Word],
        [-1, -1, 0xffff_ffff, 0, 0, 0],
        [-1, -1, 0xffff_ffff, 0, 0, 0],
    ),
    // truncate64: on Arm in r2 and r3
    (
        [1, 2, 3, 4, 5, 6],
        &[Word, Pair],
        [1, 0x3_0000_0002, 0, 0, 0, 0],
        [1, 0x4_0000_0003, 0, 0, 0, 0],
    ),
    // fallocate: on Arm in r2 to r5
    (
        [1, 2, 3, 4, 5, 0xffff_ffff],
        &[Signed, Signed, Pair, Pair],
        [1, 2, 0x4_0000_0003, -0xffff_fffb, 0, 0],
        [1, 2, 0x4_0000_0003, -0xffff_fffb, 0, 0],
    ),
    // preadv: two halves are two words, and none is skipped
    (
        [1, 2, 3, 0xffff_fff4, 0xffff_fff5, 6],
        &[Signed, Word, Word, Word, Word],
        [1, 2, 3, 0xffff_fff4, 0xffff_fff5, 0],
        [1, 2, 3, 0xffff_fff4, 0xffff_fff5, 0],
    ),
    // past the sixth word: the high half, and then both halves and single words
    (
        [1, 2, 3, 4, 5, 6],
        &[Word, Pair, Pair, Pair],
        [1, 0x3_0000_0002, 0x5_0000_0004, 6, 0, 0],
        [1, 0x4_0000_0003, 0x6_0000_0005, 0, 0, 0],
    ),
    (
        [1, 2, 3, 4, 5, 6],
        &[Pair, Pair, Pair, Word, Signed, Pair],
        [0x2_0000_0001, 0x4_0000_0003, 0x6_0000_0005, 0, 0, 0],
        [0x2_0000_0001, 0x4_0000_0003, 0x6_0000_0005, 0, 0, 0],
    ),
];

#[test]
fn arguments_by_place(rt: HostRuntime) {
    for (words, forms, on_ia32, on_arm) in PLACES {
        assert!(rt; forms.len() <= 6);
        assert_eq!(rt; ia32(1, words).arguments(forms).values, on_ia32);
        assert_eq!(rt; arm(1, words).arguments(forms).values, on_arm);
    }
    let none = Args {
        values: [0; 6],
        count: 0,
    };
    assert_eq!(rt; from_words(Ia32, &[1; 6], &[]), none);
    assert_eq!(rt; from_words(ArmEabi, &[1; 6], &[]), none);
}

#[test]
fn arguments_are_read_by_their_form(rt: HostRuntime) {
    let words = [0xffff_fffe, 0xffff_fffe, 5, 1, 0, 0];
    let args = from_words(ArmEabi, &words, &[Signed, Word, Pair]);
    assert_eq!(rt; args.signed(0), -2);
    assert_eq!(rt; args.word(1), 0xffff_fffe);
    assert_eq!(rt; args.signed(2), 0x1_0000_0005);
    assert_eq!(rt; args.word(3), 0);
    assert_eq!(rt; args.word(0), 0);
    assert_eq!(rt; args.word(2), 0);
}

#[test]
fn result_and_stack_pointer(rt: HostRuntime) {
    let of_ia32 = ia32(180, [1, 2, 3, 4, 5, 6]);
    assert_eq!(rt;
        of_ia32.with_result(0xffff_fff2),
        ia32(0xffff_fff2, [1, 2, 3, 4, 5, 6])
    );
    assert_eq!(rt; of_ia32.stack_pointer(), 0x57ac);
    assert_eq!(rt; of_ia32.all().len(), 10);
    let of_arm = arm(180, [1, 2, 3, 4, 5, 6]);
    assert_eq!(rt;
        of_arm.with_result(0xffff_fff2),
        arm(180, [0xffff_fff2, 2, 3, 4, 5, 6])
    );
    assert_eq!(rt; of_arm.stack_pointer(), 0x57ac);
    assert_eq!(rt; of_arm.all().len(), 17);
}
