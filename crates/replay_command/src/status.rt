//! How a run ends.

ghost use Rattle.std.specs.Prelude.{◌≡◌};
ghost use Rattle.replay_command.specs.Codes.{code};

/// How the program ends.
#[derive(Clone, Copy, Debug, PartialEq, Eq)]
pub enum Status {
    /// The command did all of its work.
    Done,
    /// The words of the command line are those of no command. Nothing was read or written.
    BadWords,
    /// A line of the script is bad, and the report ends with the line that tells which.
    BadLine,
    /// A read failed.
    ReadFault,
    /// A write failed. What was written is a front of the report.
    WriteFault,
    /// Memory ran out.
    OutOfMemory,
    /// The script has more than 2^28 bytes.
    TooLarge,
}

impl Status {
    /// The exit status of a program that ends so: 0 for `Done`, and 1 to 6 for the others in their order.
    pub fn code(&self) -> u8
        ensures { result ≡ code self.now }
    {
        match self {
            Status::Done => 0,
            Status::BadWords => 1,
            Status::BadLine => 2,
            Status::ReadFault => 3,
            Status::WriteFault => 4,
            Status::OutOfMemory => 5,
            Status::TooLarge => 6,
        }
    }
}
