//! Control messages of the kernel's own layout, one after another, for who receives them.

ghost use Rattle.std.specs.Prelude.{◌≡◌, ◌≤◌, true, is_some, length, drop, slice_get, Some};
ghost use Rattle.std.specs.Option.{option_map};
ghost use Rattle.message_layouts.specs.Controls.{controls_of, first_control, padded, told_length};
ghost use Rattle.message_layouts.specs.Walks.{control_of};

use crate::controls::{NATIVE_HEADER, padded_8};
use byteorder::{ByteOrder, LittleEndian};
use std::marker::Model;

/// A control message: its level, its type and its data.
#[derive(Clone, Copy, Debug, PartialEq, Eq)]
pub struct NativeControl<'a> {
    pub level: u32,
    pub kind: u32,
    pub content: &'a [u8],
}

/// The control messages of bytes of the kernel's own layout. A contract sees the list of those that are left.
#[derive(Drop)]
pub struct NativeControls<'a> {
    rest: &'a [u8],
}

impl<'a> Model for NativeControls<'a> {
    ghost use Rattle.std.specs.Prelude.{List, ◌≡◌, true, is_some};
    ghost use Rattle.message_layouts.specs.Controls.{Control, further_in};
    ghost use Rattle.message_layouts.specs.Walks.{messages_in};

    ghost Value = { List Control };

    ghost view = { λ c. messages_in c.rest.now };

    ghost invariant = { λ c. is_some (further_in 8 c.rest.now) ≡ true };
}

/// The message of the first header.
fn first_message(bytes: &[u8]) -> NativeControl<'_>
    requires low { 16 ≤ told_length 8 bytes.now }
    requires high { told_length 8 bytes.now ≤ length bytes.now }
    ensures { control_of result ≡ first_control 8 bytes.now }
{
    let told = LittleEndian::read_u64(bytes) as usize;
    NativeControl {
        level: LittleEndian::read_u32(&bytes[8..]),
        kind: LittleEndian::read_u32(&bytes[12..]),
        content: &bytes[NATIVE_HEADER..told],
    }
}

/// Where the next header stands, or the end of the bytes.
fn next_place(bytes: &[u8]) -> usize
    requires low { 16 ≤ told_length 8 bytes.now }
    requires high { told_length 8 bytes.now ≤ length bytes.now }
    ensures place { drop result bytes.now ≡ drop (padded 8 (told_length 8 bytes.now)) bytes.now }
    ensures inside { result ≤ length bytes.now }
{
    let told = LittleEndian::read_u64(bytes) as usize;
    padded_8(told).min(bytes.len())
}

impl<'a> NativeControls<'a> {
    /// The messages of bytes that are those of a list.
    pub fn new(bytes: &'a [u8]) -> NativeControls<'a>
        requires { is_some (controls_of 8 bytes.now) ≡ true }
        ensures { controls_of 8 bytes.now ≡ Some result }
    {
        NativeControls { rest: bytes }
    }

    /// The first of the messages that are left, or none where there is none.
    pub fn next(&mut self) -> Option<NativeControl<'a>>
        ensures first { option_map control_of result ≡ slice_get self.old 0 }
        ensures others { self.new ≡ drop 1 self.old }
    {
        let bytes = self.rest;
        if bytes.len() < NATIVE_HEADER {
            return None;
        }
        self.rest = &bytes[next_place(bytes)..];
        Some(first_message(bytes))
    }
}
