ghost use Rattle.std.specs.Prelude.{◌≡◌, IfOk};
ghost use Rattle.agglo_model.specs.Boxes.{IsBoxOf};
ghost use Rattle.steepest_ascent.specs.CellEnds.{IsClimb};

use crate::cell_ascent::CellAscent;
use crate::ends::{End, Ends};
use agglo_model::Memory;
use seg_base::Cell;
use std::alloc::Global;
use volume_file::Volume;

/// What the ascent from each voxel of a cell comes to within the cell, with x fastest, then y, then z. The
/// ascent is that of Zlateski and Seung, arXiv 1505.00249 (2015). The only error is want of memory.
pub fn climb(alloc: Global, vol: &Volume, low: u8, cell: &Cell) -> Result<Ends, Memory>
    requires { IsBoxOf vol.now.axes cell.now.lo cell.now.hi }
    ensures cell { IfOk result (λ ends. ends.cell ≡ cell.now) }
    ensures climb { IfOk result (λ ends. IsClimb vol.now low ends) }
{
    let grid = cell.grid(vol.dims());
    let ascent = CellAscent::of(alloc, vol, low, cell)?;
    let mut ends = Vec::from_elem(alloc, End::Background, grid.voxels() as usize)?;
    ascent.mark_all(&mut ends);
    ascent.settle_all(&mut ends);
    Ok(Ends::of(cell, &grid, ends))
}
