//! A message and its bytes.

ghost use Rattle.std.specs.Prelude.{◌≡◌, ◌≤◌, length, take, drop};
ghost use Rattle.socket_queues.specs.Queues.{carries, has_rights};

use crate::names::SocketName;
use kernel_values::Credentials;
use std::collections::LinkedList;
use std::marker::Model;

/// The bytes of a message, which are taken from the front. A contract sees those that are left.
#[derive(Debug, Drop)]
pub struct MessageBytes {
    items: Vec<u8>,
    taken: usize,
}

impl Model for MessageBytes {
    ghost use Rattle.std.specs.Prelude.{ℕ, ◌≤◌, List, drop, length};

    ghost Value = { List ℕ };

    ghost view = { λ b. drop b.taken b.items.items };

    ghost invariant = { λ b. b.taken ≤ length b.items.items };
}

impl MessageBytes {
    /// These bytes.
    pub fn new(items: Vec<u8>) -> MessageBytes
        ensures { result ≡ items.items }
    {
        MessageBytes { items, taken: 0 }
    }

    /// How many are left.
    pub fn len(&self) -> usize
        ensures { result ≡ length self.now }
    {
        self.items.len() - self.taken
    }

    /// Those that are left.
    pub fn as_slice(&self) -> &[u8]
        ensures { result.now ≡ self.now }
    {
        &self.items[self.taken..]
    }

    /// Moves the first ones, as many as `into` holds.
    pub(crate) fn take(&mut self, into: &mut [u8])
        requires { length into.old ≤ length self.old }
        ensures bytes { into.new ≡ take (length into.old) self.old }
        ensures left { self.new ≡ drop (length into.old) self.old }
    {
        into.copy_from_slice(&self.items[self.taken..self.taken + into.len()]);
        self.taken += into.len();
    }
}

/// A message that waits.
#[derive(Debug, Drop)]
pub struct Message {
    pub bytes: MessageBytes,
    /// The serial numbers of the open files that it carries (`SCM_RIGHTS` of `unix(7)`).
    pub rights: LinkedList<u64>,
    /// Whose it is (`SCM_CREDENTIALS` of `unix(7)`).
    pub sender: Credentials,
    /// The name that its sender had when it was sent.
    pub name: SocketName,
}

impl Message {
    /// Whether it carries open files.
    pub fn has_rights(&self) -> bool
        ensures { result ≡ has_rights self.now }
    {
        self.rights.len() != 0
    }

    /// Whether it carries the open file of a serial number.
    pub fn carries(&self, serial: u64) -> bool
        ensures { result ≡ carries self.now serial }
    {
        self.rights.contains(&serial)
    }
}
