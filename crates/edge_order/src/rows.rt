ghost use Rattle.std.specs.Prelude.{◌≡◌, ℕ, ◌+◌, ◌*◌, ◌<◌, ◌≤◌, ◌++◌, ◌&&◌, EachIndex, IfOk, IsTrue, length, map, nat_le, nat_lt, slice_index};
ghost use Rattle.agglo_model.specs.Axes.{voxel_at, voxel_count};
ghost use Rattle.agglo_model.specs.Boxes.{IsBoxOf, box_grid};
ghost use Rattle.edge_order.specs.Keys.{AreRowKeys, key, raised, step_of_key};
ghost use Rattle.edge_order.specs.Steps.{AreBestSteps, AreBoxSteps};

use crate::step::Step;
use agglo_model::Memory;
use seg_base::Cell;
use std::alloc::Global;
use volume_file::Volume;

/// The step along the best edge of each voxel, in order of number.
pub fn best_steps(alloc: Global, vol: &Volume, low: u8) -> Result<Vec<Step>, Memory>
    ensures one_each { IfOk result (λ steps. length steps.items ≡ voxel_count vol.now.axes) }
    ensures best { IfOk result (λ steps. AreBestSteps vol.now low steps.items) }
{
    cell_steps(alloc, vol, low, &Cell::whole(vol.dims()))
}

/// The step along the best edge of each voxel of a cell, with x fastest, then y, then z.
pub fn cell_steps(alloc: Global, vol: &Volume, low: u8, cell: &Cell) -> Result<Vec<Step>, Memory>
    requires { IsBoxOf vol.now.axes cell.now.lo cell.now.hi }
    ensures one_each { IfOk result (λ steps. length steps.items ≡ voxel_count (box_grid cell.now.lo cell.now.hi)) }
    ensures best { IfOk result (λ steps. AreBoxSteps vol.now low cell.now.lo cell.now.hi steps.items) }
{
    let grid = cell.grid(vol.dims());
    let mut steps = Vec::with_capacity(alloc, grid.voxels() as usize)?;
    let mut keys = Vec::from_elem(alloc, 0, grid.nx() as usize)?;
    for z in 0..grid.nz() {
        for y in 0..grid.ny() {
            push_row(&mut steps, &mut keys, vol, low, cell, y, z)?;
        }
    }
    Ok(steps)
}

/// Appends the steps of the row of voxels at these coordinates in the cell. The keys are room for its
/// own.
fn push_row(
    steps: &mut Vec<Step>,
    keys: &mut [u16],
    vol: &Volume,
    low: u8,
    cell: &Cell,
    y: u32,
    z: u32,
) -> Result<(), Memory>
    requires in_volume { IsBoxOf vol.now.axes cell.now.lo cell.now.hi }
    requires in_y { y < (box_grid cell.now.lo cell.now.hi).ny }
    requires in_z { z < (box_grid cell.now.lo cell.now.hi).nz }
    requires room { length keys.old ≡ (box_grid cell.now.lo cell.now.hi).nx }
    requires so_far { length steps.old.items ≡ voxel_at (box_grid cell.now.lo cell.now.hi) 0 y z }
    requires best { AreBoxSteps vol.now low cell.now.lo cell.now.hi steps.old.items }
    ensures a_row { IfOk result (λ _. length steps.new.items ≡ length steps.old.items + (box_grid cell.now.lo cell.now.hi).nx) }
    ensures still_best { IfOk result (λ _. AreBoxSteps vol.now low cell.now.lo cell.now.hi steps.new.items) }
{
    let [from_x, from_y, from_z] = cell.lo;
    find_keys(keys, vol, from_x, from_y + y, from_z + z);
    for key in keys.iter() {
        steps.push(Step::of_key(*key, low))?;
    }
    Ok(())
}

/// The greatest key of each voxel of the row from this place on, as many as there are keys.
fn find_keys(keys: &mut [u16], vol: &Volume, x: u32, y: u32, z: u32)
    requires some { 0 < length keys.old }
    requires in_x { x + length keys.old ≤ vol.now.axes.nx }
    requires in_y { y < vol.now.axes.ny }
    requires in_z { z < vol.now.axes.nz }
    ensures { AreRowKeys vol.now x y z keys.new }
{
    let dims = vol.dims();
    let bytes = vol.bytes();
    let first = 3 * dims.voxel(x, y, z) as usize;
    let row = 3 * dims.nx() as usize;
    let layer = row * dims.ny() as usize;
    let width = keys.len();
    let from = 1usize.saturating_sub(x as usize);
    let to = width.min((dims.nx() - 1 - x) as usize);
    keys.fill(0);
    raise(keys, bytes, first, Step::BackX, from, width);
    raise_all(keys, bytes, first + 1, Step::BackY, y > 0);
    raise_all(keys, bytes, first + 2, Step::BackZ, z > 0);
    raise(keys, bytes, first + 3, Step::OnX, 0, to);
    raise_all(keys, bytes, first + row + 1, Step::OnY, y + 1 < dims.ny());
    raise_all(keys, bytes, first + layer + 2, Step::OnZ, z + 1 < dims.nz());
}

/// Raises the keys to those of the edges at this step, where there are such edges. The edge of the
/// first voxel has the number `first`.
fn raise_all(keys: &mut [u16], bytes: &[u8], first: usize, step: Step, exist: bool)
    requires { IsTrue exist → first + 3 * length keys.old ≤ length bytes.now + 2 }
    ensures { EachIndex keys.new (λ x. slice_index keys.new x
        ≡ raised (slice_index keys.old x) exist (key (slice_index bytes.now (first + 3 * x)) step)) }
{
    if exist {
        let width = keys.len();
        raise(keys, bytes, first, step, 0, width);
    }
}

/// The same for the voxels from `from` up to, but not including, `to`.
fn raise(keys: &mut [u16], bytes: &[u8], first: usize, step: Step, from: usize, to: usize)
    requires ascending { from ≤ to }
    requires within { to ≤ length keys.old }
    requires covered { first + 3 * to ≤ length bytes.now + 2 }
    ensures { EachIndex keys.new (λ x. slice_index keys.new x
        ≡ raised (slice_index keys.old x) (nat_le from x && nat_lt x to) (key (slice_index bytes.now (first + 3 * x)) step)) }
{
    for x in from..to {
        keys[x] = keys[x].max(step.key(bytes[first + 3 * x]));
    }
}
