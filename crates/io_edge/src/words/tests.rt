use super::*;
use std::test::Fail;

#[test]
fn words_are_kept_in_order(rt: HostRuntime) -> Result<(), Fail> {
    let mut words = Words::new(rt.alloc());
    assert!(rt; words.is_empty());
    for word in [b"run".as_slice(), b"", b"x"] {
        words.push(word).ok().ok_or("memory")?;
    }
    assert!(rt; !words.is_empty());
    assert_eq!(rt; words.len(), 3);
    assert_eq!(rt; words.word(0), b"run".as_slice());
    assert_eq!(rt; words.word(1), b"".as_slice());
    assert_eq!(rt; words.word(2), b"x".as_slice());
    Ok(())
}
