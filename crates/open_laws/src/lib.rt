//! Laws of open files: what holds in every state of them in which no socket was made, what keeps it, and what follows. Such a
//! state is called sound here. A function here has no code: its contract is the law, proved of every state that meets the
//! premises that the law names.
#![tactic(auto)]

ghost use Rattle.open_laws.specs.Laws.{ChangedIsSound, CopyHasNewNumber, CountedIsSound, DescriptorHasOpenFile, DrainedIsSound, DuplicateIsSound, GoneIsSound, InstalledIsSound, MadePipeIsSound, NamedIsSound, NextSerialIsFree, NothingOpenIsSound, PairHasNewNumbers, PipeHasAnEnd, ReadPipeIsSound, SetFdFlagsIsSound, SetOpenFlagsIsSound, TakenIsSound, UnnamedIsSound, WritePipeIsSound};

/// What is open at first, nothing, is sound.
pub fn nothing_open_is_sound()
    ensures { NothingOpenIsSound }
{}

/// Things that are counted keep the open files sound, where there is room for them.
pub fn counted_is_sound()
    ensures { CountedIsSound }
{}

/// An open file of its own at a free number keeps them sound, where its inode is a pipe just when it is an end of one.
pub fn installed_is_sound()
    ensures { InstalledIsSound }
{}

/// A pipe that is made at the numbers it would get keeps them sound, where no open file has its inode.
pub fn made_pipe_is_sound()
    ensures { MadePipeIsSound }
{}

/// A descriptor of an open file that is there keeps them sound, at a free number or in the place of one of the same open
/// file.
pub fn named_is_sound()
    ensures { NamedIsSound }
{}

/// F_DUPFD, F_DUPFD_CLOEXEC and dup keep them sound, whatever they answer.
pub fn duplicate_is_sound()
    ensures { DuplicateIsSound }
{}

/// F_SETFD keeps them sound, whatever it answers.
pub fn set_fd_flags_is_sound()
    ensures { SetFdFlagsIsSound }
{}

/// Other flags of an open file, and another position in range, keep them sound.
pub fn changed_is_sound()
    ensures { ChangedIsSound }
{}

/// F_SETFL keeps them sound, whatever it answers.
pub fn set_open_flags_is_sound()
    ensures { SetOpenFlagsIsSound }
{}

/// A read from a pipe keeps them sound.
pub fn read_pipe_is_sound()
    ensures { ReadPipeIsSound }
{}

/// A write to a pipe keeps them sound: no more bytes wait than a pipe holds.
pub fn write_pipe_is_sound()
    ensures { WritePipeIsSound }
{}

/// Bytes taken out of a pipe keep them sound.
pub fn taken_is_sound()
    ensures { TakenIsSound }
{}

/// A descriptor that goes keeps them sound, where something else holds its open file.
pub fn unnamed_is_sound()
    ensures { UnnamedIsSound }
{}

/// The last descriptor of an open file that is no end of a pipe keeps them sound where it goes with the open file.
pub fn gone_is_sound()
    ensures { GoneIsSound }
{}

/// The same of any open file, where its pipe goes with the last open file of it.
pub fn drained_is_sound()
    ensures { DrainedIsSound }
{}

/// A descriptor that is open has an open file: no call is refused for want of one.
pub fn descriptor_has_open_file()
    ensures { DescriptorHasOpenFile }
{}

/// The next serial number is no open file's.
pub fn next_serial_is_free()
    ensures { NextSerialIsFree }
{}

/// A pipe has a reader or a writer.
pub fn pipe_has_an_end()
    ensures { PipeHasAnEnd }
{}

/// The number of a copy is free, no less than the least asked for, and below the limit.
pub fn copy_has_new_number()
    ensures { CopyHasNewNumber }
{}

/// The two numbers of a pipe's ends are free, below the limit, and the second is greater than the first.
pub fn pair_has_new_numbers()
    ensures { PairHasNewNumbers }
{}
