use crate::{
    BlobLayout, BlobOutline, RuleOutline, check_jumps, map_rules, outline, put_match, put_rules,
    put_target,
};
use kernel_values::{BlobCause, BlobFault, RuleMatch, RuleTarget};
use std::test::Fail;

// Puts a rule of i386 for each packet, with a verdict's last three bytes.
fn put_standard(blob: &mut [u8], at: usize, word: u8, rest: u8) {
    if let Some(rule) = blob.get_mut(at..) {
        if rule.len() >= 148 {
            rule[88] = 112;
            rule[90] = 148;
            rule[112] = 36;
            rule[144] = word;
            rule[145] = rest;
            rule[146] = rest;
            rule[147] = rest;
        }
    }
}

#[test]
fn a_standard_rule_grows_by_four_bytes(rt: HostRuntime) -> Result<(), Fail> {
    let mut blob = [0; 148];
    put_standard(&mut blob, 0, 0xfe, 0xff);
    let told = outline(BlobLayout::Ia32, &blob);
    assert_eq!(rt;
        told,
        Ok(RuleOutline {
            size: 148,
            native_size: 152,
            jump: None
        })
    );
    put_standard(&mut blob, 0, 0x94, 0);
    let told = outline(BlobLayout::Ia32, &blob);
    assert_eq!(rt;
        told,
        Ok(RuleOutline {
            size: 148,
            native_size: 152,
            jump: Some(148)
        })
    );
    // Arm has 4 bytes more behind the verdict
    assert_eq!(rt; outline(BlobLayout::Arm, &blob), Err(BlobCause::Offsets));
    Ok(())
}

#[test]
fn a_realistic_rule_grows_by_twenty_bytes(rt: HostRuntime) -> Result<(), Fail> {
    // tcp, limit and a jump: 112, 44, 60 and 36 bytes
    let mut blob = [0; 252];
    blob[80] = 6;
    blob[88] = 216;
    blob[90] = 252;
    blob[112] = 44;
    blob[114..117].copy_from_slice(b"tcp");
    blob[156] = 60;
    blob[158..163].copy_from_slice(b"limit");
    blob[216] = 36;
    blob[248] = 0x68;
    blob[249] = 0x03;
    let told = outline(BlobLayout::Ia32, &blob);
    assert_eq!(rt;
        told,
        Ok(RuleOutline {
            size: 252,
            native_size: 272,
            jump: Some(872)
        })
    );
    blob[114..118].copy_from_slice(b"nope");
    assert_eq!(rt;
        outline(BlobLayout::Ia32, &blob),
        Err(BlobCause::MatchUnknown)
    );
    blob[114..118].copy_from_slice(b"tcp\0");
    blob[80] = 17;
    assert_eq!(rt; outline(BlobLayout::Ia32, &blob), Err(BlobCause::Protocol));
    Ok(())
}

// Puts the last rule of a table of i386.
fn put_last(blob: &mut [u8], at: usize) {
    if let Some(rule) = blob.get_mut(at..) {
        if rule.len() >= 176 {
            rule[88] = 112;
            rule[90] = 176;
            rule[112] = 64;
            rule[114..119].copy_from_slice(b"ERROR");
            rule[144..149].copy_from_slice(b"ERROR");
        }
    }
}

// Maps the rules up to an end.
fn mapped(blob: &[u8], end: usize, map: &mut [u8]) -> Option<Result<BlobOutline, BlobFault>> {
    let part = blob.get(..end)?;
    if part.len() > 1000 {
        return None;
    }
    Some(map_rules(BlobLayout::Ia32, part, map))
}

#[test]
fn rules_are_mapped_to_native_places(rt: HostRuntime) -> Result<(), Fail> {
    let mut blob = [0; 620];
    put_standard(&mut blob, 0, 0xff, 0xff);
    put_standard(&mut blob, 148, 0xff, 0xff);
    put_standard(&mut blob, 296, 0xfe, 0xff);
    put_last(&mut blob, 444);
    let mut map = [0; 32];
    assert_eq!(rt;
        mapped(&blob, 620, &mut map),
        Some(Ok(BlobOutline {
            rules: 4,
            native_size: 632
        }))
    );
    let places = [
        0, 0, 0, 0, 0, 0, 0, 0, 148, 0, 0, 0, 152, 0, 0, 0, 0x28, 1, 0, 0, 0x30, 1, 0, 0, 0xbc, 1,
        0, 0, 0xc8, 1, 0, 0,
    ];
    assert_eq!(rt; map, places);
    let fault = BlobFault {
        rule: 3,
        cause: BlobCause::Offsets,
    };
    assert_eq!(rt; mapped(&blob, 619, &mut map), Some(Err(fault)));
    let fault = BlobFault {
        rule: 3,
        cause: BlobCause::Short,
    };
    assert_eq!(rt; mapped(&blob, 555, &mut map), Some(Err(fault)));
    Ok(())
}

// Translates the rules up to an end.
fn translated(
    blob: &[u8],
    end: usize,
    map: &mut [u8],
    out: &mut [u8],
) -> Option<Result<(), BlobFault>> {
    let part = blob.get(..end)?;
    if part.len() > 1000 || map.len() > 1000 {
        return None;
    }
    match map_rules(BlobLayout::Ia32, part, map) {
        Err(fault) => Some(Err(fault)),
        Ok(found) => {
            let size = found.rules as usize * 8;
            if size > map.len() || found.native_size as usize != out.len() {
                return None;
            }
            let pairs = &map[..size];
            match check_jumps(BlobLayout::Ia32, part, pairs) {
                Err(fault) => Some(Err(fault)),
                Ok(()) => {
                    put_rules(BlobLayout::Ia32, part, pairs, out);
                    Some(Ok(()))
                }
            }
        }
    }
}

#[test]
fn rules_are_put_with_native_jumps(rt: HostRuntime) -> Result<(), Fail> {
    let mut blob = [0; 472];
    put_standard(&mut blob, 0, 0x28, 0);
    blob[145] = 1;
    put_standard(&mut blob, 148, 0xff, 0xff);
    put_last(&mut blob, 296);
    blob[96] = 5;
    let mut map = [0; 24];
    let mut out = [9; 480];
    assert_eq!(rt; translated(&blob, 472, &mut map, &mut out), Some(Ok(())));
    let mut wanted = [0; 480];
    wanted[88] = 112;
    wanted[90] = 152;
    wanted[96] = 5;
    wanted[112] = 40;
    // the rule at 296 is at 304
    wanted[144] = 0x30;
    wanted[145] = 1;
    wanted[240] = 112;
    wanted[242] = 152;
    wanted[264] = 40;
    wanted[296..300].copy_from_slice(&[0xff, 0xff, 0xff, 0xff]);
    wanted[392] = 112;
    wanted[394] = 176;
    wanted[416] = 64;
    wanted[418..423].copy_from_slice(b"ERROR");
    wanted[448..453].copy_from_slice(b"ERROR");
    assert_eq!(rt; out, wanted);
    let fault = BlobFault {
        rule: 0,
        cause: BlobCause::Jump,
    };
    blob[144] = 0x29;
    assert_eq!(rt;
        translated(&blob, 472, &mut map, &mut out),
        Some(Err(fault))
    );
    Ok(())
}

#[test]
fn parts_are_put_in_their_layouts(rt: HostRuntime) -> Result<(), Fail> {
    let mut out = [7; 40];
    put_target(BlobLayout::Native, &RuleTarget::Drop, &mut out);
    let mut wanted = [0; 40];
    wanted[0] = 40;
    wanted[32..36].copy_from_slice(&[0xff, 0xff, 0xff, 0xff]);
    assert_eq!(rt; out, wanted);
    let limit = RuleMatch::Limit {
        avg: 1,
        burst: 2,
        prev: 0x0000_0004_0000_0003,
        credit: 5,
        cap: 6,
        cost: 7,
    };
    let mut out = [9; 60];
    put_match(BlobLayout::Ia32, &limit, &mut out);
    let mut wanted = [0; 60];
    wanted[0] = 60;
    wanted[2..7].copy_from_slice(b"limit");
    wanted[32] = 1;
    wanted[36] = 2;
    wanted[40] = 3;
    wanted[44] = 5;
    wanted[48] = 6;
    wanted[52] = 7;
    wanted[56] = 4;
    assert_eq!(rt; out, wanted);
    let mut out = [9; 72];
    put_match(BlobLayout::Native, &limit, &mut out);
    let mut wanted = [0; 72];
    wanted[0] = 72;
    wanted[2..7].copy_from_slice(b"limit");
    wanted[32] = 1;
    wanted[36] = 2;
    wanted[40] = 3;
    wanted[44] = 4;
    wanted[48] = 5;
    wanted[52] = 6;
    wanted[56] = 7;
    assert_eq!(rt; out, wanted);
    Ok(())
}
