//! Worked examples: each definition at numbers that can be checked by hand.
ghost use Rattle.std.specs.Prelude.{◌≡◌, ℕ, ◌-◌, ◌^◌, ◌++◌, ◌∷◌, List, [], length, codes, drop, take, false, true};
ghost use Rattle.agglo_model.specs.Axes.{AxisLarge, AxisZero, TooMany, axes_flaw, higher_end, is_edge, lower_end};
ghost use Rattle.agglo_model.specs.Basins.{AreBasins, BackgroundIsUnlabelled, LabelsAgreeAlong, RootsNameBasins};
ghost use Rattle.agglo_model.specs.Count.{Rose};
ghost use Rattle.agglo_model.specs.EdgeOrder.{EdgeBefore, IsStrongAt};
ghost use Rattle.agglo_model.specs.Generated.{generated_volume};
ghost use Rattle.agglo_model.specs.Examples.{box, file_with, labels_by_higher, labels_of_halves, labels_on_background, one_edge, plateau, three_basins, two_arms, two_basins, two_basins_file, zeros};
ghost use Rattle.agglo_model.specs.LabelFile.{label_file};
ghost use Rattle.agglo_model.specs.Note.{basins_note};
ghost use Rattle.agglo_model.specs.Report.{report};
ghost use Rattle.agglo_model.specs.VolumeFile.{BadAxes, Channels, Magic, Reserved, ShortHeader, Trailing, Truncated, volume_bytes, volume_flaw, volume_in};

/// Two pairs of voxels, each with a strong edge: two basins, named by their first voxels.
pub fn basins_of_two_pairs()
    ensures { AreBasins two_basins 1 (1 ∷ 1 ∷ 3 ∷ 3 ∷ []) }
{}

/// With a higher `low` the weaker pair is background.
pub fn basins_above_a_threshold()
    ensures { AreBasins two_basins 190 (1 ∷ 1 ∷ 0 ∷ 0 ∷ []) }
{}

/// An edge of just `low` is strong and makes a basin; with a `low` that is greater by one it is weak.
pub fn basin_at_the_threshold()
    ensures strong { IsStrongAt one_edge 7 0 3 }
    ensures weak { ¬ IsStrongAt one_edge 8 0 3 }
    ensures basins { AreBasins one_edge 7 (1 ∷ 1 ∷ []) }
    ensures background { AreBasins one_edge 8 (0 ∷ 0 ∷ []) }
{}

/// Among equal bytes the edge with the smaller number is the better, so all lead to the first.
pub fn basins_of_a_plateau()
    ensures { AreBasins plateau 1 (1 ∷ 1 ∷ 1 ∷ 1 ∷ []) }
{}

/// Three basins in a flat volume.
pub fn three_flat_basins()
    ensures { AreBasins three_basins 1
        (1 ∷ 1 ∷ 3 ∷ 3 ∷ 5 ∷ 5 ∷ 1 ∷ 1 ∷ 1 ∷ 1 ∷ 5 ∷ 5 ∷ 1 ∷ 1 ∷ 1 ∷ 1 ∷ 5 ∷ 5 ∷ []) }
{}

/// A basin that surrounds another from three sides.
pub fn basin_with_two_arms()
    ensures { AreBasins two_arms 1 (1 ∷ 1 ∷ 1 ∷ 1 ∷ 1 ∷ 6 ∷ 6 ∷ 6 ∷ 1 ∷ 1 ∷ 1 ∷ 1 ∷ []) }
{}

/// Background that has labels, all else right: not basin labels.
pub fn labelled_background()
    ensures one_each { length labels_on_background ≡ 4 }
    ensures along { LabelsAgreeAlong two_basins 190 labels_on_background }
    ensures named { RootsNameBasins two_basins 190 labels_on_background }
    ensures broken { ¬ BackgroundIsUnlabelled two_basins 190 labels_on_background }
    ensures refused { ¬ AreBasins two_basins 190 labels_on_background }
{}

/// Two labels along one best edge, all else right: not basin labels.
pub fn divided_basin()
    ensures one_each { length labels_of_halves ≡ 4 }
    ensures background { BackgroundIsUnlabelled two_basins 1 labels_of_halves }
    ensures named { RootsNameBasins two_basins 1 labels_of_halves }
    ensures broken { ¬ LabelsAgreeAlong two_basins 1 labels_of_halves }
    ensures refused { ¬ AreBasins two_basins 1 labels_of_halves }
{}

/// A basin named by the higher voxel of its best edge, all else right: not basin labels.
pub fn misnamed_basin()
    ensures one_each { length labels_by_higher ≡ 4 }
    ensures background { BackgroundIsUnlabelled two_basins 1 labels_by_higher }
    ensures along { LabelsAgreeAlong two_basins 1 labels_by_higher }
    ensures broken { ¬ RootsNameBasins two_basins 1 labels_by_higher }
    ensures refused { ¬ AreBasins two_basins 1 labels_by_higher }
{}

/// A greater byte comes first, and among equal bytes the smaller number.
pub fn order_of_edges()
    ensures greater { EdgeBefore two_basins 9 6 }
    ensures not_less { ¬ EdgeBefore two_basins 6 9 }
    ensures tie { EdgeBefore plateau 3 6 }
    ensures not_later { ¬ EdgeBefore plateau 6 3 }
    ensures not_itself { ¬ EdgeBefore plateau 3 3 }
{}

/// Edges of a box of 2 by 3 by 4 voxels: at voxel 1 on x, at voxel 5 on y, at voxel 23 on z.
pub fn ends_of_edges()
    ensures x { (is_edge box 3 ≡ true) × (lower_end box 3 ≡ 0) × (higher_end 3 ≡ 1) }
    ensures y { (is_edge box 16 ≡ true) × (lower_end box 16 ≡ 3) × (higher_end 16 ≡ 5) }
    ensures z { (is_edge box 71 ≡ true) × (lower_end box 71 ≡ 17) × (higher_end 71 ≡ 23) }
{}

/// No edge: voxel 0 has no predecessor, voxel 1 none on y, voxel 6 none on x, voxel 4 none on z,
/// and 72 is past the last number.
pub fn numbers_without_an_edge()
    ensures first { (is_edge box 0 ≡ false) × (is_edge box 1 ≡ false) × (is_edge box 2 ≡ false) }
    ensures inner { (is_edge box 4 ≡ false) × (is_edge box 18 ≡ false) × (is_edge box 14 ≡ false) }
    ensures past { is_edge box 72 ≡ false }
{}

/// The label file of two basins of two voxels.
pub fn bytes_of_a_label_file()
    ensures { label_file two_basins.axes (1 ∷ 1 ∷ 3 ∷ 3 ∷ [])
        ≡ 65 ∷ 70 ∷ 70 ∷ 76 ∷ 65 ∷ 66 ∷ 48 ∷ 49 ∷ 4 ∷ 0 ∷ 0 ∷ 0 ∷ 1 ∷ 0 ∷ 0 ∷ 0
        ∷ 1 ∷ 0 ∷ 0 ∷ 0 ∷ 4 ∷ 0 ∷ 0 ∷ 0 ∷ 0 ∷ 0 ∷ 0 ∷ 0 ∷ 0 ∷ 0 ∷ 0 ∷ 0
        ∷ 1 ∷ 0 ∷ 0 ∷ 0 ∷ 1 ∷ 0 ∷ 0 ∷ 0 ∷ 3 ∷ 0 ∷ 0 ∷ 0 ∷ 3 ∷ 0 ∷ 0 ∷ 0 ∷ [] }
{}

/// What `basins` prints for them.
pub fn text_of_a_note()
    ensures { basins_note (1 ∷ 1 ∷ 3 ∷ 3 ∷ [])
        ≡ codes "voxels 4" ++ 10 ∷ codes "foreground 4" ++ 10 ∷ codes "basins 2" ++ 10 ∷ [] }
{}

/// Background is neither foreground nor a basin.
pub fn note_with_background()
    ensures { basins_note (1 ∷ 1 ∷ 0 ∷ 0 ∷ [])
        ≡ codes "voxels 4" ++ 10 ∷ codes "foreground 2" ++ 10 ∷ codes "basins 1" ++ 10 ∷ [] }
{}

/// The report on two basins that a leaf of one level has made one region.
pub fn text_of_a_report()
    ensures { report 4 2 1 (record { nodes = 1; merges = 1; passed = 0 } ∷ [])
        ≡ codes "voxels 4" ++ 10 ∷ codes "basins 2" ++ 10 ∷ codes "merges 1" ++ 10 ∷ codes "regions 1" ++ 10
        ∷ codes "level 0 nodes 1 merges 1 passed 0" ++ 10 ∷ [] }
{}

/// A count rises by one or more, and stands still at its last value alone.
pub fn counts_that_rose()
    ensures risen { Rose 3 4 × Rose 3 5 × Rose (2 ^ 64 - 2) (2 ^ 64 - 1) }
    ensures at_its_last { Rose (2 ^ 64 - 1) (2 ^ 64 - 1) }
    ensures not_risen { (¬ Rose 3 3) × (¬ Rose 3 2) × (¬ Rose (2 ^ 64 - 2) (2 ^ 64 - 2)) }
{}

/// A whole volume file has no flaw, and holds its volume.
pub fn sound_volume_file()
    ensures length { length two_basins_file ≡ 44 }
    ensures sound { volume_flaw two_basins_file ≡ None }
    ensures holds { volume_in two_basins_file ≡ two_basins }
{}

/// Each flaw of the header, in a file that has this flaw first.
pub fn flaws_of_headers()
    ensures short { volume_flaw (take 31 two_basins_file) ≡ Some (ShortHeader 31) }
    ensures magic { volume_flaw (file_with (codes "AFFLAB01") 4 0 1 0 4 zeros) ≡ Some Magic }
    ensures channels { volume_flaw (file_with (codes "AFFVOL01") 4 0 0 0 4 zeros) ≡ Some (Channels 4) }
    ensures reserved { volume_flaw (file_with (codes "AFFVOL01") 4 0 0 0 3 (0 ∷ 0 ∷ 0 ∷ 0 ∷ 0 ∷ 0 ∷ 0 ∷ 1 ∷ []))
        ≡ Some Reserved }
{}

/// Each flaw of the axes: 0 on y, 65,536 on x, and a product of 65,535 by 4,097.
pub fn flaws_of_axes()
    ensures zero { volume_flaw (file_with (codes "AFFVOL01") 4 0 0 0 3 zeros) ≡ Some (BadAxes (AxisZero 1)) }
    ensures large { axes_flaw (record { nx = 65536; ny = 1; nz = 1 }) ≡ Some (AxisLarge 0) }
    ensures many { volume_flaw (file_with (codes "AFFVOL01") 255 255 1 16 3 zeros) ≡ Some (BadAxes TooMany) }
{}

/// A body one byte too short, and one byte too long.
pub fn flaws_of_bodies()
    ensures short { volume_flaw (take 43 two_basins_file) ≡ Some (Truncated 11) }
    ensures long { volume_flaw (two_basins_file ++ 0 ∷ []) ≡ Some Trailing }
{}

/// The file of that volume holds it.
pub fn file_of_a_volume()
    ensures { volume_bytes two_basins ≡ two_basins_file }
{}

/// Nine bytes from the number 0, and the first three from 7.
pub fn generated_bytes()
    ensures zero { generated_volume 0 (record { nx = 3; ny = 1; nz = 1 }) ≡ record {
      axes = record { nx = 3; ny = 1; nz = 1 };
      bytes = 60 ∷ 71 ∷ 209 ∷ 170 ∷ 98 ∷ 159 ∷ 87 ∷ 163 ∷ 129 ∷ [];
    } }
    ensures seven { (generated_volume 7 (record { nx = 1; ny = 1; nz = 1 })).bytes ≡ 61 ∷ 233 ∷ 156 ∷ [] }
{}
