//! Laws of files that say what a caller of the kernel relies on, above the definitions of the operations. A function here has no
//! code: its contract is the law, proved of every state that meets the premises that the law names.
#![tactic(auto)]

ghost use Rattle.file_laws.specs.Bytes.{WrittenBytesReadBack};
ghost use Rattle.file_laws.specs.Copies.{ClosedCopyLeavesTheOthers, CopyNamesTheSame};
ghost use Rattle.file_laws.specs.Listings.{AllNamesAreListed};
ghost use Rattle.file_laws.specs.Names.{MadeDirectoryResolves, RenamedNameMoves};

/// What was written at an offset is what a read there gives: by a descriptor that reads too, without O_APPEND, of a file that is
/// there.
pub fn written_bytes_read_back()
    ensures { WrittenBytesReadBack }
{}

/// A copy of a descriptor names the same open file, and the other descriptors stay.
pub fn copy_names_the_same()
    ensures { CopyNamesTheSame }
{}

/// A copy that is closed leaves the other descriptors, their open files and all bytes as before the copy.
pub fn closed_copy_leaves_the_others()
    ensures { ClosedCopyLeavesTheOthers }
{}

/// The entries of a directory told one after another are `.`, `..` and all of its names, where these stand by ascending position
/// behind 2.
pub fn all_names_are_listed()
    ensures { AllNamesAreListed }
{}

/// A directory that was made is where its path leads, and it is a new one, where the next numbers weren't in use.
pub fn made_directory_resolves()
    ensures { MadeDirectoryResolves }
{}

/// After rename the new name means what the old one meant. The old one means nothing then, unless both meant one inode before.
/// Each name stands once in its directory.
pub fn renamed_name_moves()
    ensures { RenamedNameMoves }
{}
