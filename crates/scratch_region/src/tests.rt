//! Spans taken, read, written and given back.

use crate::{Full, Mark, Scratch, Span};
use std::test::Fail;

fn span(start: usize, length: usize) -> Span {
    Span { start, length }
}

#[test]
fn spans_are_taken_as_from_a_stack(rt: HostRuntime) -> Result<(), Fail> {
    let mut region = Scratch::new(rt.alloc(), 8)?;
    assert_eq!(rt; region.mark(), Mark { at: 0 });
    assert_eq!(rt; region.take(3), Ok(span(0, 3)));
    let mark = region.mark();
    assert_eq!(rt; region.take(5), Ok(span(3, 5)));
    assert_eq!(rt; region.take(1), Err(Full::Full));
    assert_eq!(rt; region.take(0), Ok(span(8, 0)));
    region.release_to(mark);
    assert_eq!(rt;
        (region.used(), region.peak(), region.capacity()),
        (3, 8, 8)
    );
    Ok(())
}

#[test]
fn a_span_is_zero_until_bytes_are_put(rt: HostRuntime) -> Result<(), Fail> {
    let mut region = Scratch::new(rt.alloc(), 8)?;
    let mark = region.mark();
    let first = region.take(2).ok().ok_or("room")?;
    region.put(&first, b"ab");
    let second = region.take(2).ok().ok_or("room")?;
    assert_eq!(rt; region.bytes(&first), b"ab".as_slice());
    assert_eq!(rt; region.bytes(&second), [0, 0].as_slice());
    region.release_to(mark);
    let third = region.take(4).ok().ok_or("room")?;
    assert_eq!(rt; region.bytes(&third), [0, 0, 0, 0].as_slice());
    Ok(())
}

#[test]
fn no_length_wraps(rt: HostRuntime) -> Result<(), Fail> {
    let mut region = Scratch::new(rt.alloc(), 8)?;
    assert_eq!(rt; region.take(4), Ok(span(0, 4)));
    assert_eq!(rt; region.take(usize::MAX - 3), Err(Full::Full));
    assert_eq!(rt; region.peak(), 4);
    Ok(())
}
