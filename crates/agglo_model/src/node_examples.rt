//! Worked examples of the nodes of a cut volume. Each function has no body: its contract is the claim,
//! and the proof computes it.
#![tactic(auto, unfolding(crate::specs::Cutting::cells_on, crate::specs::Cutting::last_level, crate::specs::Cutting::level_of))]

ghost use Rattle.std.specs.Prelude.{◌≡◌, ◌∷◌, [], true, false};
ghost use Rattle.agglo_model.specs.Connected.{AreConnected};
ghost use Rattle.agglo_model.specs.Freezing.{IsFrozen, occurs_in, touched_faces};
ghost use Rattle.agglo_model.specs.Greedy.{IsMutual};
ghost use Rattle.agglo_model.specs.GreedyExamples.{mean_of};
ghost use Rattle.agglo_model.specs.CuttingExamples.{cut_row};
ghost use Rattle.agglo_model.specs.Joining.{is_crossing};
ghost use Rattle.agglo_model.specs.NodeExamples.{cut_pairs, cut_six, four_pairs, merge_1_3, merge_5_7, pair_labels, pair_residues, pair_works, pairs_after_leaves, pairs_after_root, region, six_labels, six_pairs, three_voxels, two_regions};
ghost use Rattle.agglo_model.specs.Segmentation.{level_count};
ghost use Rattle.agglo_model.specs.Settling.{IsLeft};
ghost use Rattle.agglo_model.specs.Work.{AreWorks, IsFirstNodeStep, IsOrderedWork, IsPassed, IsReciprocal, IsWork, labels_after};

/// A name is frozen where it touches the face between the two leaves; in the root there is none.
pub fn names_at_a_face()
    ensures first { (touched_faces cut_pairs 0 pair_labels 5 ≡ 2) × (touched_faces cut_pairs 0 pair_labels 3 ≡ 0) × (touched_faces cut_pairs 0 pair_labels 1 ≡ 0) }
    ensures second { touched_faces cut_pairs 1 pair_labels 7 ≡ 1 }
    ensures whole { (touched_faces cut_pairs 2 pair_labels 5 ≡ 0) × (touched_faces cut_pairs 2 pair_labels 7 ≡ 0) }
    ensures occur { (occurs_in cut_pairs 0 pair_labels 5 ≡ true) × (occurs_in cut_pairs 0 pair_labels 7 ≡ false) }
    ensures frozen { IsFrozen cut_pairs 0 pair_labels 5 }
    ensures free { ¬ (IsFrozen cut_pairs 0 pair_labels 3) }
{}

/// A pair that is reciprocal in the volume is none of a leaf in which its names are frozen or missing.
pub fn frozen_pair_waits()
    ensures mutual { IsMutual four_pairs (mean_of 100 1) pairs_after_leaves 5 7 }
    ensures first { ¬ (IsReciprocal four_pairs (mean_of 100 1) cut_pairs 0 pairs_after_leaves 5 7) }
    ensures second { ¬ (IsReciprocal four_pairs (mean_of 100 1) cut_pairs 1 pairs_after_leaves 5 7) }
    ensures root { IsReciprocal four_pairs (mean_of 100 1) cut_pairs 2 pairs_after_leaves 5 7 }
{}

/// The works of the three nodes at the threshold 100, and the labels that they leave.
pub fn works_of_three_nodes()
    ensures works { AreWorks four_pairs (mean_of 100 1) cut_pairs pair_labels pair_works }
    ensures leaves { labels_after pair_labels pair_works 1 ≡ pairs_after_leaves }
    ensures last { labels_after pair_labels pair_works 2 ≡ pairs_after_root }
{}

/// Of two reciprocal pairs in the first leaf the one of the greater mean is merged first, though its names are
/// greater. The pair of 9 and 11 has a greater mean still, but 9 is frozen there.
pub fn first_pair_of_a_leaf()
    ensures ordered { IsOrderedWork six_pairs (mean_of 50 1) cut_six 0 six_labels (merge_5_7 ∷ merge_1_3 ∷ []) }
    ensures elsewhere { IsMutual six_pairs (mean_of 50 1) six_labels 9 11 }
{}

/// The same merges in the other order are a work of the leaf, but not the one in pair order: the first of them is
/// that of a reciprocal pair, and not of the first.
pub fn second_pair_of_a_leaf()
    ensures work { IsWork six_pairs (mean_of 50 1) cut_six 0 six_labels (merge_1_3 ∷ merge_5_7 ∷ []) }
    ensures broken { ¬ IsFirstNodeStep six_pairs (mean_of 50 1) cut_six 0 six_labels merge_1_3 }
    ensures refused { ¬ IsOrderedWork six_pairs (mean_of 50 1) cut_six 0 six_labels (merge_1_3 ∷ merge_5_7 ∷ []) }
{}

/// After the work of the first leaf the name 1 has a contact of mean 90 alone and is dropped, while 5 is
/// passed to the root, since it is frozen.
pub fn dropped_and_passed()
    ensures dropped { ¬ (IsPassed four_pairs (mean_of 100 1) cut_pairs 0 pairs_after_leaves 1) }
    ensures passed { IsPassed four_pairs (mean_of 100 1) cut_pairs 0 pairs_after_leaves 5 }
    ensures lower { IsPassed four_pairs (mean_of 90 1) cut_pairs 0 pairs_after_leaves 1 }
{}

/// A name in two parts is not connected.
pub fn name_in_two_parts()
    ensures { ¬ (AreConnected three_voxels (1 ∷ 2 ∷ 1 ∷ [])) }
{}

/// Each level counts the merges of its nodes by themselves, and the names that they pass by themselves.
pub fn counts_of_two_levels()
    ensures leaves { level_count cut_pairs pair_works pair_residues 0 ≡ record { nodes = 2; merges = 1; passed = 2 } }
    ensures root { level_count cut_pairs pair_works pair_residues 1 ≡ record { nodes = 1; merges = 1; passed = 0 } }
{}

/// Of two regions in contact both are left where the contact reaches the threshold, and else only the one
/// that is held back.
pub fn regions_that_are_left()
    ensures reached { IsLeft (mean_of 90 1) 0 two_regions (region 1 0) × IsLeft (mean_of 90 1) 0 two_regions (region 5 2) }
    ensures dropped { (¬ IsLeft (mean_of 91 1) 0 two_regions (region 1 0)) × (¬ IsLeft (mean_of 91 1) 0 two_regions (region 5 2)) }
    ensures held_back { IsLeft (mean_of 91 1) 2 two_regions (region 5 2) }
    ensures free { ¬ IsLeft (mean_of 91 1) 2 two_regions (region 1 0) }
{}

/// Three voxels in leaves of two: one edge lies inside the first leaf, and the other leads to the second.
pub fn edges_between_leaves()
    ensures inside { is_crossing (cut_row 3 2) 2 3 ≡ false }
    ensures across { is_crossing (cut_row 3 2) 2 6 ≡ true }
    ensures in_a_leaf { is_crossing (cut_row 3 2) 0 6 ≡ false }
{}
