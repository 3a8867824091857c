//! Worked examples of greedy agglomeration. Each function has no body: its contract is the claim,
//! and the proof computes it. Where two rules are easily taken for each other, the example parts them.

ghost use Rattle.std.specs.Prelude.{◌≡◌, ℕ, [], ◌∷◌, true};
ghost use Rattle.agglo_model.specs.Axes.{Axes};
ghost use Rattle.agglo_model.specs.Grid.{affinity};
ghost use Rattle.agglo_model.specs.Contacts.{between, joins};
ghost use Rattle.agglo_model.specs.Greedy.{IsFirstPair, IsGreedyEnd, IsGreedyRun, IsGreedyStep, after_merges};
ghost use Rattle.agglo_model.specs.MergeTree.{tree_file};
ghost use Rattle.agglo_model.specs.GreedyExamples.{
  mean_of,
  merge_of,
  row_volume,
  row_tree_bytes,
  sheet_volume,
  sheet_labels,
  sheet_labels_1_5,
  sheet_labels_3_5,
};

/// A contact whose mean is just the threshold merges its two regions, and then nothing is left to merge.
pub fn merges_at_the_threshold()
    ensures run { IsGreedyRun (row_volume (200 ∷ 50 ∷ 180 ∷ [])) (mean_of 50 1)
        (1 ∷ 1 ∷ 3 ∷ 3 ∷ []) (merge_of 1 3 50 1 6 ∷ []) }
    ensures labels { after_merges (1 ∷ 1 ∷ 3 ∷ 3 ∷ []) (merge_of 1 3 50 1 6 ∷ [])
        ≡ 1 ∷ 1 ∷ 1 ∷ 1 ∷ [] }
    ensures file { tree_file (row_volume (200 ∷ 50 ∷ 180 ∷ [])).axes (mean_of 50 1)
        (merge_of 1 3 50 1 6 ∷ []) ≡ row_tree_bytes }
{}

/// A threshold that is greater by one leaves the two regions apart.
pub fn stops_below_the_threshold()
    ensures { IsGreedyRun (row_volume (200 ∷ 50 ∷ 180 ∷ [])) (mean_of 51 1)
        (1 ∷ 1 ∷ 3 ∷ 3 ∷ []) [] }
{}

/// The means 100/1 and 200/2 are equal, so the least contact edge decides, and not the lesser names.
pub fn equal_means_go_by_tie()
    ensures run { IsGreedyRun (sheet_volume 100 100) (mean_of 100 1) sheet_labels
        (merge_of 3 5 100 1 12 ∷ []) }
    ensures labels { after_merges sheet_labels (merge_of 3 5 100 1 12 ∷ []) ≡ sheet_labels_3_5 }
    ensures not_by_names { ¬ (IsFirstPair (sheet_volume 100 100) sheet_labels 1 5) }
    ensures refused { ¬ (IsGreedyStep (sheet_volume 100 100) (mean_of 100 1) sheet_labels (merge_of 1 5 200 2 30)) }
{}

/// Of the means 201/2 and 100/1 the first is greater. Whole quotients would not tell them apart.
pub fn means_are_not_rounded()
    ensures run { IsGreedyRun (sheet_volume 101 100) (mean_of 100 1) sheet_labels
        (merge_of 1 5 201 2 30 ∷ []) }
    ensures labels { after_merges sheet_labels (merge_of 1 5 201 2 30 ∷ []) ≡ sheet_labels_1_5 }
    ensures not_rounded { ¬ (IsFirstPair (sheet_volume 101 100) sheet_labels 3 5) }
    ensures refused { ¬ (IsGreedyStep (sheet_volume 101 100) (mean_of 100 1) sheet_labels (merge_of 3 5 100 1 12)) }
{}

/// After the first merge the one contact that is left has the mean 210/5, below the threshold of 50,
/// though edges of 90 are among those that it sums up. A list that goes on with it breaks one rule alone: that
/// merge is of the first pair, with its contact, and doesn't reach the threshold.
pub fn means_are_not_greatest_affinities()
    ensures run { IsGreedyRun (sheet_volume 90 90) (mean_of 50 1) sheet_labels
        (merge_of 3 5 100 1 12 ∷ []) }
    ensures strong_edge { joins (sheet_volume 90 90) sheet_labels_3_5 1 3 30 ≡ true }
    ensures its_affinity { affinity (sheet_volume 90 90) 30 ≡ 90 }
    ensures first { IsFirstPair (sheet_volume 90 90) sheet_labels_3_5 1 3 }
    ensures contact { between (sheet_volume 90 90) sheet_labels_3_5 1 3 ≡ (merge_of 1 3 210 5 6).contact }
    ensures broken { ¬ (IsGreedyStep (sheet_volume 90 90) (mean_of 50 1) sheet_labels_3_5 (merge_of 1 3 210 5 6)) }
    ensures refused { ¬ (IsGreedyRun (sheet_volume 90 90) (mean_of 50 1) sheet_labels
        (merge_of 3 5 100 1 12 ∷ merge_of 1 3 210 5 6 ∷ [])) }
{}

/// An edge of affinity 0, too weak for any basin, is a contact, and its mean reaches the threshold 0.
pub fn weak_edges_are_contacts()
    ensures run { IsGreedyRun (row_volume (200 ∷ 0 ∷ 200 ∷ [])) (mean_of 0 1)
        (1 ∷ 1 ∷ 3 ∷ 3 ∷ []) (merge_of 1 3 0 1 6 ∷ []) }
    ensures no_end { ¬ (IsGreedyEnd (row_volume (200 ∷ 0 ∷ 200 ∷ [])) (mean_of 0 1)
        (1 ∷ 1 ∷ 3 ∷ 3 ∷ [])) }
{}
