//! What a process may do with a page.

ghost use Rattle.std.specs.Prelude.{◌≡◌};
ghost use Rattle.user_memory.specs.Rights.{allows_stores};

/// What a process may do with a mapped page.
#[derive(Clone, Copy, Debug, PartialEq, Eq)]
pub enum Rights {
    /// Its bytes may be read.
    Read,
    /// Its bytes may be read and stored to.
    ReadWrite,
}

impl Rights {
    /// Whether a page with these rights may be stored to.
    pub(crate) fn allow_stores(self) -> bool
        ensures { result ≡ allows_stores self }
    {
        self == Rights::ReadWrite
    }
}
