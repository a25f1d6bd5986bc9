//! What holds in every state of the file tree, and that each operation keeps it. A function here has no code: its contract is the
//! law, proved of every tree that meets the premises that the law names, which are those that the operation's refusals leave.
#![tactic(auto)]

ghost use Rattle.tree_laws.specs.Changing.{EmptiedFileKeepsSound, EndKeepsSound, LengthKeepsSound, LockKeepsSound, TimesKeepSound, UnlockingKeepsSound, WorkingKeepsSound, WrittenBytesKeepSound};
ghost use Rattle.tree_laws.specs.Making.{FreshTreeIsSound, GivenNumberKeepsSound, ImageBytesKeepSound, ImageDirectoryKeepsSound, ImageFileKeepsSound, ImageLockKeepsSound, MadeDirectoryKeepsSound, MadeFileKeepsSound, SoundTreeStaysSound};
ghost use Rattle.tree_laws.specs.Reading.{DirectoriesAreShallow, DirectoryStandsOnce, FixedNamesMeanDirectories, LinksAreNotCut, ListedPositionsAreNarrow, NamedInodeIsThere, NamesAreListable, NextInodeIsNew, NextPositionIsFree, NoDirectoryLiesInItself, OutsideIsNowhereInside, StepsLeadToDirectory};
ghost use Rattle.tree_laws.specs.Removing.{LettingGoKeepsSound, RemovedDirectoryKeepsSound, RenamedTreeStaysSound, UnnamedFileKeepsSound};
ghost use Rattle.tree_laws.specs.Runs.{MadeTreesAreSound};

/// Every tree that lines of the image and operations make, in any order, is sound: the laws below, one after another.
pub fn made_trees_are_sound()
    ensures { MadeTreesAreSound }
{}

/// The tree is sound at first, when nothing was made.
pub fn fresh_tree_is_sound()
    ensures { FreshTreeIsSound }
{}

/// A tree in which so many things were made is sound where more are counted.
pub fn sound_tree_stays_sound()
    ensures { SoundTreeStaysSound }
{}

/// A directory of the image keeps the tree sound, where its path and its number are free and no number was given yet. It counts as
/// one thing.
pub fn image_directory_keeps_sound()
    ensures { ImageDirectoryKeepsSound }
{}

/// A file of the image keeps the tree sound, as a directory does.
pub fn image_file_keeps_sound()
    ensures { ImageFileKeepsSound }
{}

/// Bytes of the image keep the tree sound.
pub fn image_bytes_keep_sound()
    ensures { ImageBytesKeepSound }
{}

/// A lock of another process keeps the tree sound.
pub fn image_lock_keeps_sound()
    ensures { ImageLockKeepsSound }
{}

/// An inode number that was given to what stands in no directory keeps the tree sound. It counts as one thing.
pub fn given_number_keeps_sound()
    ensures { GivenNumberKeepsSound }
{}

/// A file that is made where a name is missing keeps the tree sound. It counts as one thing, with its name.
pub fn made_file_keeps_sound()
    ensures { MadeFileKeepsSound }
{}

/// A directory that is made where a name is missing keeps the tree sound, as a file does.
pub fn made_directory_keeps_sound()
    ensures { MadeDirectoryKeepsSound }
{}

/// Bytes that are written to a file within 2^40 bytes keep the tree sound.
pub fn written_bytes_keep_sound()
    ensures { WrittenBytesKeepSound }
{}

/// A file that loses its bytes keeps the tree sound.
pub fn emptied_file_keeps_sound()
    ensures { EmptiedFileKeepsSound }
{}

/// Another length of at most 2^40 bytes keeps the tree sound.
pub fn length_keeps_sound()
    ensures { LengthKeepsSound }
{}

/// An end of at most 2^40 bytes, up to which a file reaches, keeps the tree sound.
pub fn end_keeps_sound()
    ensures { EndKeepsSound }
{}

/// Other times of an inode keep the tree sound.
pub fn times_keep_sound()
    ensures { TimesKeepSound }
{}

/// A lock that the process sets keeps the tree sound.
pub fn lock_keeps_sound()
    ensures { LockKeepsSound }
{}

/// Locks that the process loses on a file keep the tree sound.
pub fn unlocking_keeps_sound()
    ensures { UnlockingKeepsSound }
{}

/// Another working directory keeps the tree sound.
pub fn working_keeps_sound()
    ensures { WorkingKeepsSound }
{}

/// A file that loses its name, held by an open file or not, keeps the tree sound.
pub fn unnamed_file_keeps_sound()
    ensures { UnnamedFileKeepsSound }
{}

/// What goes since no open file has it any more keeps the tree sound.
pub fn letting_go_keeps_sound()
    ensures { LettingGoKeepsSound }
{}

/// A directory without names, that is neither the working one nor held, keeps the tree sound when it is removed.
pub fn removed_directory_keeps_sound()
    ensures { RemovedDirectoryKeepsSound }
{}

/// A name that moves keeps the tree sound, whatever it replaces, where no refusal of rename stands against it. It counts as one
/// thing.
pub fn renamed_tree_stays_sound()
    ensures { RenamedTreeStaysSound }
{}

/// The next inode number is nobody's, it is one of those that can be given, and it fits 32 bits.
pub fn next_inode_is_new()
    ensures { NextInodeIsNew }
{}

/// The next position in a directory is free.
pub fn next_position_is_free()
    ensures { NextPositionIsFree }
{}

/// The names of a directory stand by ascending position behind 2, and each once.
pub fn names_are_listable()
    ensures { NamesAreListable }
{}

/// Positions that a listing tells are at most 2^31 - 1.
pub fn listed_positions_are_narrow()
    ensures { ListedPositionsAreNarrow }
{}

/// A directory other than the root never lies in itself, however far up.
pub fn no_directory_lies_in_itself()
    ensures { NoDirectoryLiesInItself }
{}

/// A directory other than the root has one name, in the directory that it lies in.
pub fn directory_stands_once()
    ensures { DirectoryStandsOnce }
{}

/// The root is fewer steps away from a directory than there are directories.
pub fn directories_are_shallow()
    ensures { DirectoriesAreShallow }
{}

/// What isn't found inside a directory, within as many steps as there are directories, isn't inside at all.
pub fn outside_is_nowhere_inside()
    ensures { OutsideIsNowhereInside }
{}

/// The links of a directory are its name, its `.` and the `..` of each directory in it, and their number isn't cut.
pub fn links_are_not_cut()
    ensures { LinksAreNotCut }
{}

/// What a name means in a directory is there.
pub fn named_inode_is_there()
    ensures { NamedInodeIsThere }
{}

/// The steps of a path from a directory lead to one, where its last name could be looked up.
pub fn steps_lead_to_directory()
    ensures { StepsLeadToDirectory }
{}

/// No name, `.` and `..` mean directories.
pub fn fixed_names_mean_directories()
    ensures { FixedNamesMeanDirectories }
{}
