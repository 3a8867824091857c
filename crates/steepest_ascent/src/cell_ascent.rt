ghost use Rattle.std.specs.Prelude.{◌≡◌, ◌≢◌, ℕ, ◌+◌, ◌<◌, ◌≤◌, EachIndex, IfOk, length, true};
ghost use Rattle.agglo_model.specs.Axes.{IsPlace, voxel_at, voxel_count};
ghost use Rattle.agglo_model.specs.Boxes.{IsBoxOf};
ghost use Rattle.agglo_model.specs.Grid.{IsWhole};
ghost use Rattle.edge_order.specs.Steps.{IsBestStep, LeadsTo, leads_within};
ghost use Rattle.edge_order.specs.declared.step.Step.TheVariants.{Stay};
ghost use Rattle.steepest_ascent.specs.CellEnds.{IsEndOf, IsInCell, end_at};
ghost use Rattle.steepest_ascent.specs.Charts.{AreEndsSoFar, GainsEnds, IsEndAt, StaysWithin, own_grid, step_of};
ghost use Rattle.steepest_ascent.specs.CellTurns.{EndsWithin, IsCellTurn, IsSpot};
ghost use Rattle.steepest_ascent.specs.declared.ends.End.TheVariants.{Background};

use crate::ends::End;
use agglo_model::Memory;
use edge_order::{Step, best_step, cell_steps};
use seg_base::{Cell, Dims};
use std::alloc::Global;
use std::marker::Model;
use volume_file::Volume;

/// A voxel of a cell, by its number there and its number in the volume.
#[derive(Clone, Copy)]
pub(crate) struct Spot {
    own: u32,
    voxel: u32,
}

/// How the ascent goes on from a voxel of a cell to another.
#[derive(Clone, Copy)]
pub(crate) enum CellTurn {
    /// The voxel is background.
    Stays,
    /// Its best edge is also that of this voxel, its far end.
    Ends(Spot),
    /// Its best edge leads on to this voxel.
    Climbs(Spot),
}

/// A cell of a volume with the best step of each of its voxels.
#[derive(Drop)]
pub(crate) struct CellAscent<'a> {
    vol: &'a Volume,
    low: u8,
    cell: Cell,
    /// The cell as a grid of its own.
    grid: Dims,
    steps: Vec<Step>,
}

impl<'a> Model for CellAscent<'a> {
    ghost use Rattle.steepest_ascent.specs.Charts.{Chart, IsCharted};

    ghost Value = { Chart };

    ghost view = { λ ascent. record {
      grid = ascent.vol.now;
      low = ascent.low;
      cell = ascent.cell;
      steps = ascent.steps.items;
    } };

    ghost invariant = { λ ascent. IsCharted (record {
      grid = ascent.vol.now;
      low = ascent.low;
      cell = ascent.cell;
      steps = ascent.steps.items;
    }) ascent.grid };
}

impl<'a> CellAscent<'a> {
    /// Finds the best step of each voxel of the cell.
    pub(crate) fn of(
        alloc: Global,
        vol: &'a Volume,
        low: u8,
        cell: &Cell,
    ) -> Result<CellAscent<'a>, Memory>
        requires { IsBoxOf vol.now.axes cell.now.lo cell.now.hi }
        ensures grid { IfOk result (λ ascent. ascent.grid ≡ vol.now) }
        ensures low { IfOk result (λ ascent. ascent.low ≡ low) }
        ensures cell { IfOk result (λ ascent. ascent.cell ≡ cell.now) }
    {
        let grid = cell.grid(vol.dims());
        let steps = cell_steps(alloc, vol, low, cell)?;
        Ok(CellAscent {
            vol,
            low,
            cell: *cell,
            grid,
            steps,
        })
    }

    /// Gives each voxel whose best edge leads out of the cell its end.
    pub(crate) fn mark_all(&self, ends: &mut [End])
        requires one_each { length ends.old ≡ voxel_count (own_grid self.now) }
        requires right { AreEndsSoFar self.now ends.old }
        ensures right { AreEndsSoFar self.now ends.new }
        ensures within { (i : ℕ) → StaysWithin self.now ends.new i }
    {
        for z in 0..self.grid.nz() {
            for y in 0..self.grid.ny() {
                self.mark_row(ends, y, z);
            }
        }
    }

    /// The same for the row of voxels at these coordinates in the cell.
    fn mark_row(&self, ends: &mut [End], y: u32, z: u32)
        requires in_y { y < (own_grid self.now).ny }
        requires in_z { z < (own_grid self.now).nz }
        requires one_each { length ends.old ≡ voxel_count (own_grid self.now) }
        ensures gains { GainsEnds self.now ends.old ends.new }
        ensures within { (x : ℕ) → x < (own_grid self.now).nx
            → StaysWithin self.now ends.new (voxel_at (own_grid self.now) x y z) }
    {
        let width = self.grid.nx();
        if 0 < y && y + 1 < self.grid.ny() && 0 < z && z + 1 < self.grid.nz() {
            self.mark(ends, 0, y, z);
            self.mark(ends, width - 1, y, z);
            return;
        }
        for x in 0..width {
            self.mark(ends, x, y, z);
        }
    }

    /// The same for the voxel at this place in the cell.
    fn mark(&self, ends: &mut [End], x: u32, y: u32, z: u32)
        requires place { IsPlace (own_grid self.now) x y z }
        requires one_each { length ends.old ≡ voxel_count (own_grid self.now) }
        ensures gains { GainsEnds self.now ends.old ends.new }
        ensures within { StaysWithin self.now ends.new (voxel_at (own_grid self.now) x y z) }
    {
        let i = self.grid.voxel(x, y, z);
        let step = self.steps[i as usize];
        if !step.leads_within(&self.grid, x, y, z) {
            let [from_x, from_y, from_z] = self.cell.lo;
            let v = self.vol.dims().voxel(from_x + x, from_y + y, from_z + z);
            ends[i as usize] = self.outer_end(v, step);
        }
    }

    /// The end of voxel `v` of the volume, whose best step leads out of the cell.
    fn outer_end(&self, v: u32, step: Step) -> End
        requires voxel { v < voxel_count self.now.grid.axes }
        requires best { IsBestStep self.now.grid self.now.low v step }
        requires moves { step ≢ Stay }
        requires leaves { (w : ℕ) → LeadsTo self.now.grid.axes v step w → ¬ (IsInCell self.now.grid.axes self.now.cell w) }
        ensures end { IsEndOf self.now.grid self.now.low self.now.cell v result }
        ensures known { result ≢ Background }
    {
        let far = step.far_end(self.vol.dims(), v);
        if best_step(self.vol, self.low, far) == step.reversed() {
            End::Root(v.min(far) + 1)
        } else {
            End::Exit(far)
        }
    }

    /// How the ascent goes on from a voxel of the cell, whose best step leads to another voxel of it.
    fn turn(&self, here: Spot) -> CellTurn
        requires spot { IsSpot self.now here }
        requires within { leads_within (own_grid self.now) here.own (step_of self.now here.own) ≡ true }
        ensures turn { IsCellTurn self.now here result }
        ensures whole { IsWhole self.now.grid }
    {
        let step = self.steps[here.own as usize];
        if step == Step::Stay {
            return CellTurn::Stays;
        }
        let far = Spot {
            own: step.far_end(&self.grid, here.own),
            voxel: step.far_end(self.vol.dims(), here.voxel),
        };
        if self.steps[far.own as usize] == step.reversed() {
            CellTurn::Ends(far)
        } else {
            CellTurn::Climbs(far)
        }
    }

    /// Gives each voxel its end. Those that have one keep it.
    pub(crate) fn settle_all(&self, ends: &mut [End])
        requires one_each { length ends.old ≡ voxel_count (own_grid self.now) }
        requires right { AreEndsSoFar self.now ends.old }
        requires within { (i : ℕ) → StaysWithin self.now ends.old i }
        ensures { EachIndex ends.new (λ i. IsEndAt self.now i (end_at ends.new i)) }
    {
        for z in 0..self.grid.nz() {
            for y in 0..self.grid.ny() {
                self.settle_row(ends, y, z);
            }
        }
    }

    /// The same for the row of voxels at these coordinates in the cell. Other voxels may gain their ends
    /// with them.
    fn settle_row(&self, ends: &mut [End], y: u32, z: u32)
        requires in_y { y < (own_grid self.now).ny }
        requires in_z { z < (own_grid self.now).nz }
        requires one_each { length ends.old ≡ voxel_count (own_grid self.now) }
        requires right { AreEndsSoFar self.now ends.old }
        requires within { (i : ℕ) → StaysWithin self.now ends.old i }
        ensures gains { GainsEnds self.now ends.old ends.new }
        ensures settled { (x : ℕ) → x < (own_grid self.now).nx
            → IsEndAt self.now (voxel_at (own_grid self.now) x y z) (end_at ends.new (voxel_at (own_grid self.now) x y z)) }
    {
        let [from_x, from_y, from_z] = self.cell.lo;
        let own = self.grid.voxel(0, y, z);
        let voxel = self.vol.dims().voxel(from_x, from_y + y, from_z + z);
        for x in 0..self.grid.nx() {
            let here = Spot {
                own: own + x,
                voxel: voxel + x,
            };
            self.settle(ends, here);
        }
    }

    /// Gives a voxel its end, where it has none yet and is no background. Other voxels may gain theirs
    /// with it.
    fn settle(&self, ends: &mut [End], here: Spot)
        requires spot { IsSpot self.now here }
        requires one_each { length ends.old ≡ voxel_count (own_grid self.now) }
        requires right { AreEndsSoFar self.now ends.old }
        requires within { (i : ℕ) → StaysWithin self.now ends.old i }
        ensures settled { IsEndAt self.now here.own (end_at ends.new here.own) }
        ensures gains { GainsEnds self.now ends.old ends.new }
    {
        let end = self.find(ends, here);
        if !end.is_background() {
            self.give(ends, here.own, end);
        }
    }

    /// The end of a voxel, found by ascent as far as the first that has its end. Where there is none,
    /// the voxels of the basin's strongest edge gain theirs.
    fn find(&self, ends: &mut [End], from: Spot) -> End
        requires spot { IsSpot self.now from }
        requires one_each { length ends.old ≡ voxel_count (own_grid self.now) }
        requires right { AreEndsSoFar self.now ends.old }
        requires within { (i : ℕ) → StaysWithin self.now ends.old i }
        ensures end { IsEndAt self.now from.own result }
        ensures gains { GainsEnds self.now ends.old ends.new }
    {
        let mut here = from;
        loop {
            let end = ends[here.own as usize];
            if !end.is_background() {
                return end;
            }
            match self.turn(here) {
                CellTurn::Stays => return End::Background,
                CellTurn::Ends(far) => return self.mark_root(ends, here, far),
                CellTurn::Climbs(next) => here = next,
            }
        }
    }

    /// Gives both voxels of an edge that is the best of both their end.
    fn mark_root(&self, ends: &mut [End], here: Spot, far: Spot) -> End
        requires whole { IsWhole self.now.grid }
        requires ends { EndsWithin self.now here far }
        requires spot { IsSpot self.now here }
        requires one_each { length ends.old ≡ voxel_count (own_grid self.now) }
        ensures end { IsEndAt self.now here.own result }
        ensures gains { GainsEnds self.now ends.old ends.new }
    {
        let end = End::Root(here.voxel.min(far.voxel) + 1);
        ends[here.own as usize] = end;
        ends[far.own as usize] = end;
        end
    }

    /// Gives its end to voxel `i` of the cell, and to those without one to which the ascent from it leads.
    fn give(&self, ends: &mut [End], i: u32, end: End)
        requires voxel { i < voxel_count (own_grid self.now) }
        requires one_each { length ends.old ≡ voxel_count (own_grid self.now) }
        requires within { (k : ℕ) → StaysWithin self.now ends.old k }
        requires right { IsEndAt self.now i end }
        requires known { end ≢ Background }
        ensures given { end_at ends.new i ≢ Background }
        ensures gains { GainsEnds self.now ends.old ends.new }
    {
        let mut here = i;
        while ends[here as usize].is_background() {
            ends[here as usize] = end;
            here = self.steps[here as usize].far_end(&self.grid, here);
        }
    }
}
