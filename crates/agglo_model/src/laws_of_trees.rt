//! Laws over tree files, each a function that does nothing and whose contract is the law.
ghost use Rattle.agglo_model.specs.TreeLaws.{SoundFilesAreOfTrees, SoundFilesHoldTrees, TreesReadBack};

/// What bytes without a flaw hold is a merge tree: its axes are within the limits, and its merges are
/// lawful.
pub fn sound_files_hold_trees()
    ensures { SoundFilesHoldTrees }
{}

/// The tree file of a merge tree, if the two numbers of its threshold are below 2^32, has no flaw and holds that
/// tree.
pub fn trees_read_back()
    ensures { TreesReadBack }
{}

/// Bytes without a flaw are the tree file of the tree that they hold.
#[tactic(auto, using(crate::proofs::TreesWritten::sound_files_are_of_trees))]
pub fn sound_files_are_of_trees()
    ensures { SoundFilesAreOfTrees }
{}
