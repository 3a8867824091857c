ghost use Rattle.std.specs.Prelude.{◌≡◌, ◌<◌, EachIndex, IfOk, length};
ghost use Rattle.agglo_model.specs.Axes.{voxel_count};
ghost use Rattle.agglo_model.specs.Basins.{label_of};
ghost use Rattle.agglo_model.specs.Grid.{IsWhole};
ghost use Rattle.edge_order.specs.Steps.{IsBestStep, LeadsTo};
ghost use Rattle.steepest_ascent.specs.Progress.{AreRightSoFar, GainsRightLabels, IsLabelOf};
ghost use Rattle.steepest_ascent.specs.Turns.{IsTurnAt};

use agglo_model::Memory;
use edge_order::{Step, best_steps};
use std::alloc::Global;
use std::marker::Model;
use volume_file::Volume;

/// How the ascent goes on from a voxel.
#[derive(Clone, Copy)]
pub enum Turn {
    /// The voxel is background.
    Stays,
    /// Its best edge is also that of the far end. This is the name of the basin.
    Ends(u32),
    /// Its best edge leads on to this voxel.
    Climbs(u32),
}

/// A volume with the best step of each of its voxels.
#[derive(Drop)]
pub struct Ascent<'a> {
    vol: &'a Volume,
    low: u8,
    /// How far the numbers of neighbours on the y axis lie apart.
    row: u32,
    /// How far the numbers of neighbours on the z axis lie apart.
    layer: u32,
    steps: Vec<Step>,
}

impl<'a> Model for Ascent<'a> {
    ghost use Rattle.steepest_ascent.specs.Terrain.{IsCharted, Terrain};

    ghost Value = { Terrain };

    ghost view = { λ ascent. record { grid = ascent.vol.now; low = ascent.low } };

    ghost invariant = { λ ascent.
        IsCharted (record { grid = ascent.vol.now; low = ascent.low }) ascent.row ascent.layer ascent.steps.items };
}

impl<'a> Ascent<'a> {
    /// Finds the best step of each voxel of the volume.
    pub fn of(alloc: Global, vol: &'a Volume, low: u8) -> Result<Ascent<'a>, Memory>
        ensures { IfOk result (λ ascent. ascent ≡ record { grid = vol.now; low = low }) }
    {
        let steps = best_steps(alloc, vol, low)?;
        let row = vol.dims().nx();
        let layer = row * vol.dims().ny();
        Ok(Ascent {
            vol,
            low,
            row,
            layer,
            steps,
        })
    }

    /// How the ascent goes on from voxel `v`.
    fn turn(&self, v: u32) -> Turn
        requires { v < voxel_count self.now.grid.axes }
        ensures turn { IsTurnAt self.now.grid self.now.low v result }
        ensures whole { IsWhole self.now.grid }
    {
        let step = self.steps[v as usize];
        if step == Step::Stay {
            return Turn::Stays;
        }
        let far = self.far_end(v, step);
        if self.steps[far as usize] == step.reversed() {
            Turn::Ends(v.min(far) + 1)
        } else {
            Turn::Climbs(far)
        }
    }

    /// The voxel to which the best step of voxel `v` leads.
    fn far_end(&self, v: u32, step: Step) -> u32
        requires voxel { v < voxel_count self.now.grid.axes }
        requires best { IsBestStep self.now.grid self.now.low v step }
        ensures leads { LeadsTo self.now.grid.axes v step result }
        ensures voxel { result < voxel_count self.now.grid.axes }
    {
        match step {
            Step::Stay => v,
            Step::BackX => v - 1,
            Step::BackY => v - self.row,
            Step::BackZ => v - self.layer,
            Step::OnX => v + 1,
            Step::OnY => v + self.row,
            Step::OnZ => v + self.layer,
        }
    }

    /// Gives each voxel its label. Those that have one keep it.
    pub fn settle_all(&self, labels: &mut [u32])
        requires one_each { length labels.old ≡ voxel_count self.now.grid.axes }
        requires right { AreRightSoFar self.now.grid self.now.low labels.old }
        ensures { EachIndex labels.new (λ v. IsLabelOf self.now.grid self.now.low v (label_of labels.new v)) }
    {
        for v in 0..self.vol.dims().voxels() {
            self.settle(labels, v);
        }
    }

    /// Gives voxel `v` its label, where it has none yet and is no background. Other voxels may gain
    /// theirs with it.
    fn settle(&self, labels: &mut [u32], v: u32)
        requires voxel { v < voxel_count self.now.grid.axes }
        requires one_each { length labels.old ≡ voxel_count self.now.grid.axes }
        requires right { AreRightSoFar self.now.grid self.now.low labels.old }
        ensures settled { IsLabelOf self.now.grid self.now.low v (label_of labels.new v) }
        ensures gains { GainsRightLabels self.now.grid self.now.low labels.old labels.new }
    {
        if labels[v as usize] != 0 {
            return;
        }
        let label = self.label(labels, v);
        if label != 0 {
            self.give(labels, v, label);
        }
    }

    /// The label of voxel `v`, found by ascent as far as the first voxel that has its label.
    fn label(&self, labels: &[u32], v: u32) -> u32
        requires voxel { v < voxel_count self.now.grid.axes }
        requires one_each { length labels.now ≡ voxel_count self.now.grid.axes }
        requires right { AreRightSoFar self.now.grid self.now.low labels.now }
        ensures { IsLabelOf self.now.grid self.now.low v result }
    {
        let mut here = v;
        loop {
            let label = labels[here as usize];
            if label != 0 {
                return label;
            }
            match self.turn(here) {
                Turn::Stays => return 0,
                Turn::Ends(name) => return name,
                Turn::Climbs(next) => here = next,
            }
        }
    }

    /// Gives its label to voxel `v`, and to those without a label to which the ascent from it leads.
    fn give(&self, labels: &mut [u32], v: u32, label: u32)
        requires voxel { v < voxel_count self.now.grid.axes }
        requires one_each { length labels.old ≡ voxel_count self.now.grid.axes }
        requires right { IsLabelOf self.now.grid self.now.low v label }
        ensures given { label_of labels.new v ≡ label }
        ensures gains { GainsRightLabels self.now.grid self.now.low labels.old labels.new }
    {
        labels[v as usize] = label;
        let mut here = v;
        while let Turn::Climbs(next) = self.turn(here) {
            if labels[next as usize] != 0 {
                return;
            }
            labels[next as usize] = label;
            here = next;
        }
    }
}
