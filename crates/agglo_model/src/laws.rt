//! Laws over the definitions, each a function that does nothing and whose contract is the law. Basins of steepest
//! ascent with a lower threshold are after Zlateski and Seung, arXiv 1505.00249 (2015).
ghost use Rattle.agglo_model.specs.Laws.{BestIsWhereStrongIs, HasOneLabelling, LabelsAreBounded, NamesAreCounted, NamesNameVoxels};

/// Every volume has exactly one list of basin labels: there is one, and no other list with a label for each voxel
/// has the three properties.
pub fn one_labelling()
    ensures { HasOneLabelling }
{}

/// The name of a basin, less 1, is a voxel of the basin.
pub fn names_of_voxels()
    ensures { NamesNameVoxels }
{}

/// No label is above the number of voxels.
pub fn bounded_labels()
    ensures { LabelsAreBounded }
{}

/// There are as many basins as voxels whose label is their own number plus 1.
pub fn counted_names()
    ensures { NamesAreCounted }
{}

/// A voxel has no best edge exactly where no strong edge meets it.
pub fn best_where_strong()
    ensures { BestIsWhereStrongIs }
{}
