//! Worked tree files: each function has no body, its contract is the claim, and the proof computes it.
ghost use Rattle.std.specs.Prelude.{◌≡◌, [], ◌∷◌, ◌++◌, codes, replicate, take, drop, None, Some};
ghost use Rattle.agglo_model.specs.Axes.{AxisLarge, AxisZero};
ghost use Rattle.agglo_model.specs.GreedyExamples.{mean_of, merge_of, row_tree_bytes};
ghost use Rattle.agglo_model.specs.TreeExamples.{header_with, row_file, row_merges, row_tree};
ghost use Rattle.agglo_model.specs.TreeFile.{BadAxes, BadContact, BadNames, Below, Count, Denominator, Magic, Order, ShortHeader, Trailing, Truncated, tree_bytes, tree_flaw, tree_in};

/// Whole tree files have no flaw, and hold their trees.
pub fn sound_tree_files()
    ensures one { tree_flaw row_tree_bytes ≡ None }
    ensures held { (tree_in row_tree_bytes).merges ≡ merge_of 1 3 50 1 6 ∷ [] }
    ensures three { tree_flaw (tree_bytes row_tree) ≡ None }
    ensures held_three { tree_in (tree_bytes row_tree) ≡ row_tree }
{}

/// Each flaw of a header, in a file that has this flaw first.
pub fn flaws_of_tree_headers()
    ensures short { tree_flaw (take 31 row_tree_bytes) ≡ Some (ShortHeader 31) }
    ensures magic { tree_flaw (header_with (codes "AFFTRE02") 0 0 1 0 9) ≡ Some Magic }
    ensures zero { tree_flaw (header_with (codes "AFFTRE01") 8 0 0 0 9) ≡ Some (BadAxes (AxisZero 1)) }
    ensures large { tree_flaw (take 10 row_tree_bytes ++ 1 ∷ drop 11 row_tree_bytes) ≡ Some (BadAxes (AxisLarge 0)) }
    ensures denominator { tree_flaw (header_with (codes "AFFTRE01") 8 0 1 0 9) ≡ Some Denominator }
    ensures count { tree_flaw (header_with (codes "AFFTRE01") 8 0 1 1 8) ≡ Some (Count 8) }
{}

/// A body one byte too short, and one byte too long.
pub fn flaws_of_tree_bodies()
    ensures short { tree_flaw (take 63 row_tree_bytes) ≡ Some (Truncated 31) }
    ensures long { tree_flaw (row_tree_bytes ++ 0 ∷ []) ≡ Some Trailing }
{}

/// Names that no merge can have: background, a survivor above the absorbed name, a name above the
/// number of voxels, and names that were absorbed before.
pub fn flaws_of_names()
    ensures background { tree_flaw (row_file (merge_of 0 3 100 1 6 ∷ [])) ≡ Some (BadNames 0) }
    ensures same { tree_flaw (row_file (merge_of 3 3 100 1 6 ∷ [])) ≡ Some (BadNames 0) }
    ensures large { tree_flaw (row_file (merge_of 1 9 100 1 6 ∷ [])) ≡ Some (BadNames 0) }
    ensures survivor_gone { tree_flaw (row_file (merge_of 1 3 100 1 6 ∷ merge_of 3 5 90 1 12 ∷ [])) ≡ Some (BadNames 1) }
    ensures absorbed_twice { tree_flaw (row_file (merge_of 1 3 100 1 6 ∷ merge_of 2 3 90 1 12 ∷ [])) ≡ Some (BadNames 1) }
{}

/// Numbers that no contact has: no edge, more edges than the volume has, a sum above 255 an edge, and
/// a tie that is no edge number.
pub fn flaws_of_contacts()
    ensures no_edge { tree_flaw (row_file (merge_of 1 3 0 0 6 ∷ [])) ≡ Some (BadContact 0) }
    ensures many_edges { tree_flaw (row_file (merge_of 1 3 2500 25 6 ∷ [])) ≡ Some (BadContact 0) }
    ensures great_sum { tree_flaw (row_file (merge_of 1 3 256 1 6 ∷ [])) ≡ Some (BadContact 0) }
    ensures great_tie { tree_flaw (row_file (merge_of 1 3 100 1 24 ∷ [])) ≡ Some (BadContact 0) }
    ensures tie_of_eight_bytes { tree_flaw (row_file (merge_of 1 3 100 1 4294967302 ∷ [])) ≡ Some (BadContact 0) }
{}

/// Merges out of pair order: two exchanged, and two of the same rank. A mean below the threshold.
pub fn flaws_of_order()
    ensures exchanged { tree_flaw (row_file (merge_of 5 7 100 1 18 ∷ merge_of 1 3 100 1 6 ∷ [])) ≡ Some (Order 1) }
    ensures same_rank { tree_flaw (row_file (merge_of 1 3 100 1 6 ∷ merge_of 5 7 200 2 6 ∷ [])) ≡ Some (Order 1) }
    ensures below { tree_flaw (row_file (merge_of 1 3 100 1 6 ∷ merge_of 5 7 99 2 18 ∷ [])) ≡ Some (Below 1) }
{}

/// A record with several flaws has the first of them, and an earlier record comes first.
pub fn first_flaws_of_records()
    ensures names { tree_flaw (row_file (merge_of 0 3 0 0 6 ∷ merge_of 5 5 100 1 18 ∷ [])) ≡ Some (BadNames 0) }
    ensures contact { tree_flaw (row_file (merge_of 1 3 100 1 6 ∷ merge_of 5 7 600 2 18 ∷ [])) ≡ Some (BadContact 1) }
    ensures earlier { tree_flaw (row_file (merge_of 1 3 49 1 6 ∷ merge_of 5 5 100 1 18 ∷ [])) ≡ Some (Below 0) }
{}
