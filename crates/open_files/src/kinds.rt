//! What an open file is of.

ghost use Rattle.std.specs.Prelude.{◌≡◌};
ghost use Rattle.open_files.specs.Kinds.{is_of_datagrams, is_of_directory, is_of_file, is_of_pipe, is_of_rules, is_of_socket, is_reader, is_writer, lacks_position};

use kernel_values::OpenKind;

/// Whether an open file is of a directory.
pub fn is_of_directory(kind: OpenKind) -> bool
    ensures { result ≡ is_of_directory kind }
{
    match kind {
        OpenKind::Directory => true,
        OpenKind::File | OpenKind::PipeRead | OpenKind::PipeWrite => false,
        OpenKind::Stream | OpenKind::Datagram | OpenKind::RuleSocket => false,
    }
}

/// Whether an open file is an end of a pipe.
pub fn is_of_pipe(kind: OpenKind) -> bool
    ensures { result ≡ is_of_pipe kind }
{
    match kind {
        OpenKind::PipeRead | OpenKind::PipeWrite => true,
        OpenKind::File | OpenKind::Directory => false,
        OpenKind::Stream | OpenKind::Datagram | OpenKind::RuleSocket => false,
    }
}

/// Whether an open file is of a file with bytes.
pub fn is_of_file(kind: OpenKind) -> bool
    ensures { result ≡ is_of_file kind }
{
    match kind {
        OpenKind::File => true,
        OpenKind::Directory | OpenKind::PipeRead | OpenKind::PipeWrite => false,
        OpenKind::Stream | OpenKind::Datagram | OpenKind::RuleSocket => false,
    }
}

/// Whether an open file is a socket.
pub fn is_of_socket(kind: OpenKind) -> bool
    ensures { result ≡ is_of_socket kind }
{
    match kind {
        OpenKind::Stream | OpenKind::Datagram | OpenKind::RuleSocket => true,
        OpenKind::File | OpenKind::Directory => false,
        OpenKind::PipeRead | OpenKind::PipeWrite => false,
    }
}

/// Whether an open file is a socket of rule tables.
pub(crate) fn is_of_rules(kind: OpenKind) -> bool
    ensures { result ≡ is_of_rules kind }
{
    match kind {
        OpenKind::RuleSocket => true,
        OpenKind::File | OpenKind::Directory | OpenKind::Stream | OpenKind::Datagram => false,
        OpenKind::PipeRead | OpenKind::PipeWrite => false,
    }
}

/// Whether an open file is a datagram socket.
pub(crate) fn is_of_datagrams(kind: OpenKind) -> bool
    ensures { result ≡ is_of_datagrams kind }
{
    match kind {
        OpenKind::Datagram => true,
        OpenKind::File | OpenKind::Directory | OpenKind::Stream | OpenKind::RuleSocket => false,
        OpenKind::PipeRead | OpenKind::PipeWrite => false,
    }
}

/// Whether an open file has no position: a pipe or a socket.
pub fn lacks_position(kind: OpenKind) -> bool
    ensures { result ≡ lacks_position kind }
{
    is_of_pipe(kind) || is_of_socket(kind)
}

/// Whether an open file is the end of a pipe that is read from.
pub(crate) fn is_reader(kind: OpenKind) -> bool
    ensures { result ≡ is_reader kind }
{
    match kind {
        OpenKind::PipeRead => true,
        OpenKind::File | OpenKind::Directory | OpenKind::PipeWrite => false,
        OpenKind::Stream | OpenKind::Datagram | OpenKind::RuleSocket => false,
    }
}

/// Whether an open file is the end of a pipe that is written to.
pub(crate) fn is_writer(kind: OpenKind) -> bool
    ensures { result ≡ is_writer kind }
{
    match kind {
        OpenKind::PipeWrite => true,
        OpenKind::File | OpenKind::Directory | OpenKind::PipeRead => false,
        OpenKind::Stream | OpenKind::Datagram | OpenKind::RuleSocket => false,
    }
}
