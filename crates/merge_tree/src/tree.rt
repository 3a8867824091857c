ghost use Rattle.std.specs.Prelude.{◌≡◌};
ghost use Rattle.agglo_model.specs.MergeTree.{AreLawful};
ghost use Rattle.agglo_model.specs.TreeFile.{MergeTree, IsMergeTree};

use crate::merge::Merge;
use mean_fraction::Threshold;
use seg_base::Dims;
use std::marker::Model;

/// The merges of a volume, in pair order, with its axes and the threshold that they reach.
#[derive(Drop)]
pub struct Tree {
    dims: Dims,
    threshold: Threshold,
    merges: Vec<Merge>,
}

impl Model for Tree {
    ghost use Rattle.agglo_model.specs.TreeFile.{MergeTree, IsMergeTree};

    ghost Value = { MergeTree };

    ghost view = { λ tree. record { axes = tree.dims; threshold = tree.threshold; merges = tree.merges.items } };

    ghost invariant = { λ tree. IsMergeTree (record { axes = tree.dims; threshold = tree.threshold; merges = tree.merges.items }) };
}

impl Tree {
    /// The tree of these merges.
    pub fn of(dims: &Dims, threshold: Threshold, merges: Vec<Merge>) -> Tree
        requires { AreLawful dims.now threshold merges.items }
        ensures { result ≡ record { axes = dims.now; threshold = threshold; merges = merges.items } }
    {
        let _limits = (dims.voxels(), threshold.q());
        Tree {
            dims: *dims,
            threshold,
            merges,
        }
    }

    /// The axes of the volume.
    pub fn dims(&self) -> &Dims
        ensures value { result.now ≡ self.now.axes }
        ensures tree { IsMergeTree self.now }
    {
        &self.dims
    }

    /// The threshold, as it was given.
    pub fn threshold(&self) -> &Threshold
        ensures value { result.now ≡ self.now.threshold }
        ensures tree { IsMergeTree self.now }
    {
        &self.threshold
    }

    /// The merges, one after another.
    pub fn merges(&self) -> &[Merge]
        ensures value { result.now ≡ self.now.merges }
        ensures tree { IsMergeTree self.now }
    {
        &self.merges
    }
}
