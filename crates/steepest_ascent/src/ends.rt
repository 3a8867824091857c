ghost use Rattle.std.specs.Prelude.{◌≡◌, ◌<◌, ◌↔◌, IsTrue, length, slice_set};
ghost use Rattle.agglo_model.specs.Axes.{voxel_count};
ghost use Rattle.agglo_model.specs.Boxes.{box_grid};
ghost use Rattle.steepest_ascent.specs.CellEnds.{end_at};
ghost use Rattle.steepest_ascent.specs.declared.ends.End.TheVariants.{Background};

use seg_base::{Cell, Dims};
use std::marker::Model;

/// What the ascent from a voxel comes to, as far as it goes within a cell.
#[derive(Clone, Copy)]
pub enum End {
    /// The voxel has no best edge.
    Background,
    /// The ascent ends, at the basin of this name.
    Root(u32),
    /// It leaves the cell, and goes on from this voxel.
    Exit(u32),
}

const _: () = prove!(size_of::<End>() == 8);

impl End {
    /// Whether the voxel has no best edge.
    pub(crate) fn is_background(self) -> bool
        ensures { IsTrue result ↔ (self ≡ Background) }
    {
        matches!(self, End::Background)
    }
}

/// What the ascents from all voxels of a cell come to.
#[derive(Drop)]
pub struct Ends {
    cell: Cell,
    grid: Dims,
    list: Vec<End>,
}

impl Model for Ends {
    ghost use Rattle.std.specs.Prelude.{◌≡◌, length};
    ghost use Rattle.agglo_model.specs.Axes.{voxel_count};
    ghost use Rattle.agglo_model.specs.Boxes.{box_grid};
    ghost use Rattle.steepest_ascent.specs.CellEnds.{CellEnds};

    ghost Value = { CellEnds };

    ghost view = { λ ends. record { cell = ends.cell; ends = ends.list.items } };

    ghost invariant = { λ ends. (ends.grid ≡ box_grid ends.cell.lo ends.cell.hi)
        × (length ends.list.items ≡ voxel_count (box_grid ends.cell.lo ends.cell.hi)) };
}

impl Ends {
    /// These ends of the voxels of a cell, with x fastest, then y, then z. The grid is the cell's own.
    pub(crate) fn of(cell: &Cell, grid: &Dims, list: Vec<End>) -> Ends
        requires own { grid.now ≡ box_grid cell.now.lo cell.now.hi }
        requires one_each { length list.items ≡ voxel_count (box_grid cell.now.lo cell.now.hi) }
        ensures { result ≡ record { cell = cell.now; ends = list.items } }
    {
        Ends {
            cell: *cell,
            grid: *grid,
            list,
        }
    }

    /// The cell.
    pub fn cell(&self) -> &Cell
        ensures { result.now ≡ self.now.cell }
    {
        &self.cell
    }

    /// The cell as a grid of its own.
    pub fn grid(&self) -> &Dims
        ensures { result.now ≡ box_grid self.now.cell.lo self.now.cell.hi }
    {
        &self.grid
    }

    /// The end of voxel `i` of the cell, with x fastest, then y, then z.
    pub fn get(&self, i: u32) -> End
        requires { i < voxel_count (box_grid self.now.cell.lo self.now.cell.hi) }
        ensures { result ≡ end_at self.now.ends i }
    {
        self.list[i as usize]
    }

    /// Gives a voxel of the cell, by its number there, this end.
    pub fn put(&mut self, voxel: u32, end: End)
        requires { voxel < voxel_count (box_grid self.old.cell.lo self.old.cell.hi) }
        ensures { self.new ≡ record { cell = self.old.cell; ends = slice_set self.old.ends voxel end } }
    {
        self.list[voxel as usize] = end;
    }
}
