//! Worked examples of volumes cut into chunks.
#![tactic(auto, unfolding(crate::specs::Cutting::cells_on, crate::specs::Cutting::last_level, crate::specs::Cutting::level_of, crate::specs::Cutting::sizes_flaw))]

ghost use Rattle.std.specs.Prelude.{◌≡◌, ◌∷◌, [], Some, None};
ghost use Rattle.agglo_model.specs.Axes.{Axes};
ghost use Rattle.agglo_model.specs.Cutting.{ChunkZero, TooManyLeaves, artificial_faces, cells_at, child, child_count, chunking, high_corner, last_level, leaf_of, low_corner, node_count, parent, root, sizes_flaw};
ghost use Rattle.agglo_model.specs.CuttingExamples.{cut_cube, cut_row};

/// Four voxels in leaves of one: each level has half the nodes.
pub fn levels_of_single_voxels()
    ensures last { last_level (cut_row 4 1) ≡ 2 }
    ensures nodes { (cells_at (cut_row 4 1) 0 ≡ 4) × (cells_at (cut_row 4 1) 1 ≡ 2) × (cells_at (cut_row 4 1) 2 ≡ 1) }
    ensures total { (node_count (cut_row 4 1) ≡ 7) × (root (cut_row 4 1) ≡ 6) }
{}

/// A leaf size above its axis is taken as the axis, so one leaf holds all and is the root.
pub fn one_leaf()
    ensures same { cut_row 4 9 ≡ cut_row 4 4 }
    ensures last { (last_level (cut_row 4 9) ≡ 0) × (node_count (cut_row 4 9) ≡ 1) × (root (cut_row 4 9) ≡ 0) }
    ensures alone { (parent (cut_row 4 9) 0 ≡ None) × (child_count (cut_row 4 9) 0 ≡ 0) × (artificial_faces (cut_row 4 9) 0 ≡ 0) }
{}

/// Eight voxels in leaves of six: the second leaf is cut off at the end.
pub fn cells_of_two_leaves()
    ensures nodes { (last_level (cut_row 8 6) ≡ 1) × (node_count (cut_row 8 6) ≡ 3) × (root (cut_row 8 6) ≡ 2) }
    ensures first { (low_corner (cut_row 8 6) 0 ≡ 0 ∷ 0 ∷ 0 ∷ []) × (high_corner (cut_row 8 6) 0 ≡ 6 ∷ 1 ∷ 1 ∷ []) }
    ensures second { (low_corner (cut_row 8 6) 1 ≡ 6 ∷ 0 ∷ 0 ∷ []) × (high_corner (cut_row 8 6) 1 ≡ 8 ∷ 1 ∷ 1 ∷ []) }
    ensures whole { (low_corner (cut_row 8 6) 2 ≡ 0 ∷ 0 ∷ 0 ∷ []) × (high_corner (cut_row 8 6) 2 ≡ 8 ∷ 1 ∷ 1 ∷ []) }
    ensures faces { (artificial_faces (cut_row 8 6) 0 ≡ 2) × (artificial_faces (cut_row 8 6) 1 ≡ 1) × (artificial_faces (cut_row 8 6) 2 ≡ 0) }
{}

/// Their family: the root has both leaves as children.
pub fn family_of_two_leaves()
    ensures parents { (parent (cut_row 8 6) 0 ≡ Some 2) × (parent (cut_row 8 6) 1 ≡ Some 2) × (parent (cut_row 8 6) 2 ≡ None) }
    ensures counts { (child_count (cut_row 8 6) 0 ≡ 0) × (child_count (cut_row 8 6) 2 ≡ 2) }
    ensures children { (child (cut_row 8 6) 2 0 ≡ 0) × (child (cut_row 8 6) 2 1 ≡ 1) }
    ensures leaves { (leaf_of (cut_row 8 6) 5 ≡ 0) × (leaf_of (cut_row 8 6) 6 ≡ 1) }
{}

/// A cube of eight voxels a side in leaves of three a side: three cells an axis, then two, then one.
pub fn levels_of_a_cube()
    ensures last { (last_level (cut_cube 8 3) ≡ 2) × (node_count (cut_cube 8 3) ≡ 36) }
    ensures nodes { (cells_at (cut_cube 8 3) 0 ≡ 27) × (cells_at (cut_cube 8 3) 1 ≡ 8) × (cells_at (cut_cube 8 3) 2 ≡ 1) }
    ensures middle { (parent (cut_cube 8 3) 13 ≡ Some 27) × (artificial_faces (cut_cube 8 3) 13 ≡ 63) }
    ensures corner { (low_corner (cut_cube 8 3) 26 ≡ 6 ∷ 6 ∷ 6 ∷ []) × (high_corner (cut_cube 8 3) 26 ≡ 8 ∷ 8 ∷ 8 ∷ []) }
    ensures full { (child_count (cut_cube 8 3) 27 ≡ 8) × (child (cut_cube 8 3) 27 7 ≡ 13) }
    ensures thin { (child_count (cut_cube 8 3) 28 ≡ 4) × (child (cut_cube 8 3) 28 1 ≡ 5) × (child (cut_cube 8 3) 28 2 ≡ 11) }
{}

/// The most leaves that a cutting may have, and its seven levels.
pub fn levels_of_the_most_leaves()
    ensures sound { sizes_flaw (cut_cube 64 1).axes (1 ∷ 1 ∷ 1 ∷ []) ≡ None }
    ensures last { last_level (cut_cube 64 1) ≡ 6 }
    ensures nodes { (cells_at (cut_cube 64 1) 0 ≡ 262144) × (cells_at (cut_cube 64 1) 1 ≡ 32768) × (cells_at (cut_cube 64 1) 5 ≡ 8) }
    ensures total { node_count (cut_cube 64 1) ≡ 299593 }
{}

/// Each flaw of leaf sizes: the first size of 0, and one layer more than the most leaves.
pub fn flaws_of_sizes()
    ensures zero { sizes_flaw (cut_cube 64 1).axes (1 ∷ 0 ∷ 0 ∷ []) ≡ Some (ChunkZero 1) }
    ensures many { sizes_flaw (record { nx = 64; ny = 64; nz = 65 }) (1 ∷ 1 ∷ 1 ∷ []) ≡ Some (TooManyLeaves 266240) }
    ensures zero_first { sizes_flaw (record { nx = 64; ny = 64; nz = 65 }) (1 ∷ 1 ∷ 0 ∷ []) ≡ Some (ChunkZero 2) }
{}
