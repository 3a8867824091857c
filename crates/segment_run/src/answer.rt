use chunk_run::LevelCount;
use mean_fraction::Threshold;
use merge_tree::Merge;
use seg_base::Labels;

/// The settings of a segmentation.
#[derive(Clone, Copy)]
pub struct Settings {
    /// The least affinity that joins voxels to a basin.
    pub low: u8,
    /// The mean affinity from which on two regions are merged.
    pub threshold: Threshold,
    /// In how many lanes the nodes of a level are merged at a time, from 1 to 32; a number outside is taken as
    /// the nearest of these. Basins take as many threads as there are processors.
    pub workers: u32,
}

/// The segmentation of a volume: the label of each voxel, how many basins there were, the merges in pair order,
/// and what each level of the cutting did, from the leaves up.
#[derive(Drop)]
pub struct Answer {
    pub labels: Labels,
    pub basins: u32,
    pub merges: Vec<Merge>,
    pub levels: Vec<LevelCount>,
}
