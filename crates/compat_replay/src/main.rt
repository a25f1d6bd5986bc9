//! The program: its words, standard input and standard output.
#![tactic(auto)]

use io_edge::{StdinSource, StdoutSink, Words};
use replay_command::{Status, replay};
use std::alloc::Global;
use std::process::ExitCode;
use std::rt::Env;
use std::{env, io};

/// The words after the program's name, or none where memory is wanting. Where an argument isn't UTF-8 they are one
/// empty word, which is no command.
fn words_of<R: Env + AllocGlobal>(rt: &R) -> Option<Words> {
    let mut words = Words::new(rt.alloc());
    let args = match env::args(rt) {
        Ok(args) => args,
        Err(error) => {
            if error.kind() != io::ErrorKind::InvalidData || words.push(b"").is_err() {
                return None;
            }
            return Some(words);
        }
    };
    for word in args.skip(1) {
        if words.push(word.as_bytes()).is_err() {
            return None;
        }
    }
    Some(words)
}

fn main(rt: HostRuntime) -> ExitCode {
    let Some(words) = words_of(&rt) else {
        return ExitCode::from(Status::OutOfMemory.code());
    };
    let mut source = StdinSource::new(rt.reader());
    let mut sink = StdoutSink::new(io::writer(&rt));
    let status = replay(rt.alloc(), &words, &mut source, &mut sink);
    ExitCode::from(status.code())
}
