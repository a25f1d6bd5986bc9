//! Laws of files: what the tree of files and the open files owe each other in every state in which no socket was made, and that
//! each operation on files and pipes keeps it, whatever it answers. A state in which they do is called sound here. A function here
//! has no code: its contract is the law, proved of every state that meets the premises that the law names.
#![tactic(auto)]

ghost use Rattle.sound_files.specs.Laws.{AllocateIsSound, ChangeDirectoryIsSound, CloseAllIsSound, CloseIsSound, CopyIsSound, DuplicateToIsSound, FreshFilesAreSound, FreshTreeIsWhole, ImageBytesIsSound, ImageDirectoryIsSound, ImageFileIsSound, ImageLockIsSound, MakeDirectoryIsSound, OpenIsSound, PipeIsSound, ReadIsSound, RemoveDirectoryIsSound, RemoveIsSound, RenameIsSound, SeekIsSound, SendFileIsSound, SetFdFlagsIsSound, SetLockIsSound, SetOpenFlagsIsSound, SetTimesIsSound, TruncateIsSound, TruncateOpenIsSound, UnlinkIsSound, WriteIsSound};

/// The state at first is sound.
pub fn fresh_files_are_sound()
    ensures { FreshFilesAreSound }
{}

/// What the laws ask of the tree holds at first.
pub fn fresh_tree_is_whole()
    ensures { FreshTreeIsWhole }
{}

/// close keeps files sound, with all that ends with the last descriptor of an open file.
pub fn close_is_sound()
    ensures { CloseIsSound }
{}

/// So does the closing of all descriptors where a process ends.
pub fn close_all_is_sound()
    ensures { CloseAllIsSound }
{}

/// dup2 and dup3 keep files sound, also where they close what was open at the new number.
pub fn duplicate_to_is_sound()
    ensures { DuplicateToIsSound }
{}

/// dup, F_DUPFD and F_DUPFD_CLOEXEC keep files sound.
pub fn copy_is_sound()
    ensures { CopyIsSound }
{}

/// F_SETFD keeps files sound.
pub fn set_fd_flags_is_sound()
    ensures { SetFdFlagsIsSound }
{}

/// F_SETFL keeps files sound.
pub fn set_open_flags_is_sound()
    ensures { SetOpenFlagsIsSound }
{}

/// lseek keeps files sound: no position leaves its range.
pub fn seek_is_sound()
    ensures { SeekIsSound }
{}

/// read and pread64 keep files sound, of files and of pipes, where no file is longer than one may be.
pub fn read_is_sound()
    ensures { ReadIsSound }
{}

/// write and pwrite64 keep files sound, of files and of pipes.
pub fn write_is_sound()
    ensures { WriteIsSound }
{}

/// sendfile keeps files sound, where no file is longer than one may be.
pub fn send_file_is_sound()
    ensures { SendFileIsSound }
{}

/// truncate keeps files sound.
pub fn truncate_is_sound()
    ensures { TruncateIsSound }
{}

/// ftruncate keeps files sound.
pub fn truncate_open_is_sound()
    ensures { TruncateOpenIsSound }
{}

/// fallocate keeps files sound.
pub fn allocate_is_sound()
    ensures { AllocateIsSound }
{}

/// utimensat keeps files sound.
pub fn set_times_is_sound()
    ensures { SetTimesIsSound }
{}

/// F_SETLK and F_SETLKW keep files sound.
pub fn set_lock_is_sound()
    ensures { SetLockIsSound }
{}

/// chdir keeps files sound.
pub fn change_directory_is_sound()
    ensures { ChangeDirectoryIsSound }
{}

/// pipe and pipe2 keep files sound, where the next inode number is fresh.
pub fn pipe_is_sound()
    ensures { PipeIsSound }
{}

/// open and openat keep files sound in every case: what is there is opened, is cut, or a file is made.
pub fn open_is_sound()
    ensures { OpenIsSound }
{}

/// mkdir and mkdirat keep files sound, where the next inode number is fresh.
pub fn make_directory_is_sound()
    ensures { MakeDirectoryIsSound }
{}

/// unlink keeps files sound: a file that is open stays without its name.
pub fn unlink_is_sound()
    ensures { UnlinkIsSound }
{}

/// rmdir keeps files sound: no directory that is open goes.
pub fn remove_directory_is_sound()
    ensures { RemoveDirectoryIsSound }
{}

/// unlinkat keeps files sound.
pub fn remove_is_sound()
    ensures { RemoveIsSound }
{}

/// rename keeps files sound, also where the new name meant what is open.
pub fn rename_is_sound()
    ensures { RenameIsSound }
{}

/// A directory of the image keeps files sound, before anything is open.
pub fn image_directory_is_sound()
    ensures { ImageDirectoryIsSound }
{}

/// So does a file of the image.
pub fn image_file_is_sound()
    ensures { ImageFileIsSound }
{}

/// The bytes of a file of the image keep files sound.
pub fn image_bytes_is_sound()
    ensures { ImageBytesIsSound }
{}

/// A lock of the image keeps files sound.
pub fn image_lock_is_sound()
    ensures { ImageLockIsSound }
{}
