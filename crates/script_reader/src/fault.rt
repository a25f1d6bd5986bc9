//! Why reading a script ended.

ghost use Rattle.std.specs.Prelude.{◌≡◌, Some};
ghost use Rattle.script_reader.specs.Causes.{cause_text};

use std::fmt;
use thiserror::Error;

/// Why a line is bad: the first of these that holds.
#[derive(Clone, Copy, Debug, PartialEq, Eq)]
pub enum LineCause {
    /// More than 16,384 bytes.
    Long,
    /// The stream ends behind bytes of the line.
    Unended,
    /// The first line that isn't passed over is no header, or the stream ends without one.
    Header,
    /// The first field is the name of no line, or the line is a second header.
    Word,
    /// The number of fields isn't that of the line.
    Count,
    /// A field isn't of its spelling or range.
    Field,
    /// A line of the image after an event.
    Order,
    /// A second `clock`, `who`, `usage` or `restorer`, a page that is mapped already or is one too many, or a poke
    /// outside the pages mapped above it. A directory or a file with inode 2 or one of an earlier line, at a path that
    /// is there already, or whose parent isn't there or is a file. Bytes of what is no file, or past its size. A lock of what is no file.
    Image,
}

impl LineCause {
    /// The word that a report has for it.
    pub fn word(&self) -> &'static str
        ensures { result.now ≡ cause_text self.now }
    {
        match self {
            LineCause::Long => "long",
            LineCause::Unended => "unended",
            LineCause::Header => "header",
            LineCause::Word => "word",
            LineCause::Count => "count",
            LineCause::Field => "field",
            LineCause::Order => "order",
            LineCause::Image => "image",
        }
    }
}

impl fmt::Display for LineCause {
    ghost output = { λ cause. Some (cause_text cause) };

    fn fmt<W: fmt::Write>(&self, f: &mut fmt::Formatter<W>) -> fmt::Result {
        f.write_str(self.word())
    }
}

/// Why a script gives no further record.
#[derive(Clone, Copy, Debug, PartialEq, Eq, Error)]
pub enum ScriptFault {
    /// The first bad line, counted from 1.
    #[error("line {line} is bad: {cause}")]
    BadLine { line: u64, cause: LineCause },
    /// A read of the source failed.
    #[error("a read failed")]
    ReadFault,
    /// The stream goes on past 2^28 bytes, and no bad line stands before that.
    #[error("the script is too large")]
    TooLarge,
    /// Memory ran out.
    #[error("out of memory")]
    OutOfMemory,
}
