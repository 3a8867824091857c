ghost use Rattle.std.specs.Prelude.{◌≡◌, ◌<◌, ◌≤◌, ◌^◌, IfOk, length, replicate, slice_index, slice_set};
ghost use Rattle.agglo_model.specs.Axes.{voxel_count};
ghost use Rattle.agglo_model.specs.LabelMap.{LabelMap, AreLabels, IsLabelled};

use crate::dims::Dims;
use agglo_model::Memory;
use std::alloc::Global;
use std::marker::Model;

/// One label for each voxel of a grid. No label is above 2^28.
#[derive(Drop)]
pub struct Labels {
    dims: Dims,
    list: Vec<u32>,
}

impl Model for Labels {
    ghost use Rattle.agglo_model.specs.LabelMap.{LabelMap, IsLabelled};

    ghost Value = { LabelMap };

    ghost view = { λ labels. record { axes = labels.dims; labels = labels.list.items } };

    ghost invariant = { λ labels. IsLabelled (record { axes = labels.dims; labels = labels.list.items }) };
}

impl Labels {
    /// The same label at each voxel.
    pub fn filled(alloc: Global, dims: &Dims, label: u32) -> Result<Labels, Memory>
        requires { label ≤ 2 ^ 28 }
        ensures { IfOk result (λ labels. labels ≡ record { axes = dims.now; labels = replicate (voxel_count dims.now) label }) }
    {
        let list = Vec::from_elem(alloc, label, dims.voxels() as usize)?;
        Ok(Labels { dims: *dims, list })
    }

    /// These labels, in the order of the voxels' numbers.
    pub fn of(dims: &Dims, list: Vec<u32>) -> Labels
        requires one_each { length list.items ≡ voxel_count dims.now }
        requires labels_fit { AreLabels list.items }
        ensures { result ≡ record { axes = dims.now; labels = list.items } }
    {
        let voxels = dims.voxels() as usize;
        prove!(list.len() == voxels);
        Labels { dims: *dims, list }
    }

    /// The axes of the grid.
    pub fn dims(&self) -> &Dims
        ensures value { result.now ≡ self.now.axes }
        ensures labelled { IsLabelled self.now }
    {
        &self.dims
    }

    /// The label of voxel `v`.
    pub fn get(&self, v: u32) -> u32
        requires { v < voxel_count self.now.axes }
        ensures value { result ≡ slice_index self.now.labels v }
        ensures labelled { IsLabelled self.now }
    {
        self.list[v as usize]
    }

    /// Gives voxel `v` another label.
    pub fn set(&mut self, v: u32, label: u32)
        requires voxel { v < voxel_count self.old.axes }
        requires label { label ≤ 2 ^ 28 }
        ensures { self.new ≡ record self.old { labels = slice_set self.old.labels v label } }
    {
        self.list[v as usize] = label;
    }

    /// The labels by themselves, in the order of the voxels' numbers.
    pub fn into_list(self) -> Vec<u32>
        ensures value { result.items ≡ self.labels }
        ensures labelled { IsLabelled self }
    {
        self.list
    }

    /// All labels, in the order of the voxels' numbers.
    pub fn list(&self) -> &[u32]
        ensures value { result.now ≡ self.now.labels }
        ensures labelled { IsLabelled self.now }
    {
        &self.list
    }
}
