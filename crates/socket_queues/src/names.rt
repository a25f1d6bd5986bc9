//! The names of sockets.

ghost use Rattle.std.specs.Prelude.{◌≡◌, ◌≤◌, length};

use kernel_values::Name;
use std::marker::Model;

/// The name of a socket, at most 108 bytes (`UNIX_PATH_MAX` of `include/uapi/linux/un.h`). An unnamed one has none.
/// A contract sees the list of its bytes.
#[derive(Debug, Drop)]
pub struct SocketName {
    name: Name,
}

impl Model for SocketName {
    ghost use Rattle.std.specs.Prelude.{ℕ, List, ◌≤◌, length};

    ghost Value = { List ℕ };

    ghost view = { λ n. n.name };

    ghost invariant = { λ n. length n.name ≤ 108 };
}

impl SocketName {
    /// The name of these bytes.
    pub fn new(bytes: &[u8]) -> SocketName
        requires { length bytes.now ≤ 108 }
        ensures { result ≡ bytes.now }
    {
        SocketName {
            name: Name::new(bytes),
        }
    }

    /// The bytes of the name.
    pub fn as_slice(&self) -> &[u8]
        ensures bytes { result.now ≡ self.now }
        ensures limit { length result.now ≤ 108 }
    {
        self.name.as_slice()
    }

    /// The same name once more. It takes no memory.
    pub fn copied(&self) -> SocketName
        ensures { result ≡ self.now }
    {
        SocketName::new(self.as_slice())
    }

    /// The name as the kernel's answers have it. It takes no memory.
    pub fn to_name(&self) -> Name
        ensures { result ≡ self.now }
    {
        Name::new(self.as_slice())
    }
}
