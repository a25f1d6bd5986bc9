//! Files whose bytes lie on both sides of a page's end.

use super::*;
use std::test::Fail;

fn written_at_2(rt: &HostRuntime) -> Option<Content> {
    let mut content = Content::new(rt.alloc());
    content.write(rt.alloc(), 2, b"ab").ok()?;
    Some(content)
}

fn written_over_two_pages(rt: &HostRuntime) -> Option<Content> {
    let mut content = Content::new(rt.alloc());
    content.write(rt.alloc(), 4094, b"abcd").ok()?;
    Some(content)
}

fn cut_and_grown(rt: &HostRuntime) -> Option<Content> {
    let mut content = written_over_two_pages(rt)?;
    content.set_length(4095);
    content.set_length(4100);
    Some(content)
}

// Bytes at both sides of the first page's end, and a zero alone in the third page.
fn two_filled_of_three(rt: &HostRuntime) -> Option<Content> {
    let mut content = Content::new(rt.alloc());
    content.write(rt.alloc(), 4095, b"ab").ok()?;
    content.write(rt.alloc(), 8192, &[0]).ok()?;
    Some(content)
}

// The largest size, with no page.
fn zeros(rt: &HostRuntime) -> Content {
    Content::zeros(rt.alloc(), 1 << 40)
}

fn bytes_of(rt: &HostRuntime, content: &Content) -> Option<Vec<u8>> {
    let mut out = Vec::new(rt.alloc());
    content.read(0, content.len(), &mut out).ok()?;
    Some(out)
}

fn run(at: u64, length: u64) -> Option<Run> {
    Some(Run { at, length })
}

#[test]
fn a_write_past_the_end_leaves_zeros_between(rt: HostRuntime) -> Result<(), Fail> {
    let content = written_at_2(&rt).ok_or("memory")?;
    let bytes = bytes_of(&rt, &content).ok_or("memory")?;
    assert!(rt; bytes.as_slice() == [0, 0, 97, 98].as_slice());
    Ok(())
}

#[test]
fn a_run_ends_at_a_pages_end(rt: HostRuntime) -> Result<(), Fail> {
    let content = written_over_two_pages(&rt).ok_or("memory")?;
    assert_eq!(rt; content.next_run(0), run(4094, 2));
    assert_eq!(rt; content.next_run(4095), run(4095, 1));
    assert_eq!(rt; content.next_run(4096), run(4096, 2));
    assert_eq!(rt; content.next_run(4098), None);
    Ok(())
}

#[test]
fn bytes_behind_the_end_are_gone(rt: HostRuntime) -> Result<(), Fail> {
    let content = cut_and_grown(&rt).ok_or("memory")?;
    assert_eq!(rt; content.len(), 4100);
    assert_eq!(rt; content.next_run(0), run(4094, 1));
    assert_eq!(rt; content.next_run(4095), None);
    Ok(())
}

#[test]
fn a_big_file_of_zeros_has_no_run(rt: HostRuntime) -> Result<(), Fail> {
    let content = zeros(&rt);
    assert_eq!(rt; content.next_run(0), None);
    assert_eq!(rt; content.next_run(u64::MAX), None);
    Ok(())
}

#[test]
fn pages_of_zeros_are_not_counted(rt: HostRuntime) -> Result<(), Fail> {
    let content = two_filled_of_three(&rt).ok_or("memory")?;
    assert_eq!(rt; Content::new(rt.alloc()).filled_pages(), 0);
    assert_eq!(rt; zeros(&rt).filled_pages(), 0);
    assert_eq!(rt; content.filled_pages(), 2);
    Ok(())
}
