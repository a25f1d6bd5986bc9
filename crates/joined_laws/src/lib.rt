//! Laws that join those of the tree and those of the open files. A function here has no code: its contract is the law.
#![tactic(auto)]

ghost use Rattle.joined_laws.specs.Whole.{MadeTreesAreWhole, SoundTreesAreWhole};

/// A sound tree is all that the laws of `sound_files` ask of a tree: so these premises hold wherever the tree is sound.
pub fn sound_trees_are_whole()
    ensures { SoundTreesAreWhole }
{}

/// So it holds of every tree that lines of the image and operations make, in any order.
pub fn made_trees_are_whole()
    ensures { MadeTreesAreWhole }
{}
