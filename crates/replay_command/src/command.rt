//! The commands that are built, by the words of a command line.

ghost use Rattle.std.specs.Prelude.{◌≡◌};
ghost use Rattle.replay_command.specs.Answers.{command_of};

use io_edge::Words;

/// What a command line asks for.
#[derive(Clone, Copy, Debug, PartialEq, Eq)]
pub enum Command {
    /// Run a script and write its report.
    Run,
    /// Tell whether a script is good, or its first bad line.
    Check,
}

/// The command of the words of a command line, where they are spelled as one that is built.
#[tactic(auto, unfolding(crate::specs::Answers::command_of))]
pub fn command_in(words: &Words) -> Option<Command>
    ensures { result ≡ command_of words.now }
{
    if words.len() != 1 {
        return None;
    }
    let word = words.word(0);
    if word == b"run".as_slice() {
        return Some(Command::Run);
    }
    if word == b"check".as_slice() {
        return Some(Command::Check);
    }
    None
}
