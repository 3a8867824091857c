//! A box gone over in small blocks: what lies near to each other comes soon after one another, so that most edges
//! of the grid between two regions are added up before the region graph's edge is forgotten.

ghost use Rattle.std.specs.Prelude.{◌≡◌, ℕ, ◌+◌, ◌*◌, ◌^◌, ◌<◌, ◌≤◌, IfOk, slice_index, slice_set};
ghost use Rattle.agglo_model.specs.PairOrder.{most_edges};
ghost use Rattle.region_graph.specs.Boxes.{GainsContacts, IsBlock, ends_above, raised_low, volume_of};
ghost use Rattle.region_graph.specs.Lists.{count_of};

use crate::contacts::gather;
use crate::graph::Edge;
use crate::recent::Recent;
use crate::site::Site;
use agglo_model::Memory;
use seg_base::Cell;

/// How long a block is at most on each axis.
const SIDE: u32 = 16;

/// Adds the contacts of the edges whose higher ends lie in a block and whose lower ends lie in the box that it is
/// a part of.
pub(crate) fn gather_blocks(
    edges: &mut Vec<Edge>,
    recent: &mut Recent,
    site: &Site,
    outer: &Cell,
    block: &Cell,
) -> Result<(), Memory>
    requires part { IsBlock site.now.grid.axes outer.now.lo block.now.lo block.now.hi }
    requires room { count_of edges.old.items + 3 * volume_of block.now.lo block.now.hi ≤ most_edges }
    ensures gains { IfOk result (λ _. GainsContacts site.now.grid site.now.labels
        (ends_above site.now.grid.axes outer.now.lo block.now.lo block.now.hi) edges.old.items edges.new.items) }
    ensures count { IfOk result (λ _. count_of edges.new.items ≤ count_of edges.old.items + 3 * volume_of block.now.lo block.now.hi) }
{
    let axis = widest(block);
    let low = block.lo[axis as usize];
    let high = block.hi[axis as usize];
    if high - low <= SIDE {
        return gather_block(edges, recent, site, outer, block);
    }
    let middle = low + (high - low) / 2;
    let lower = up_to(block, axis, middle);
    gather_blocks(edges, recent, site, outer, &lower)?;
    let upper = from_on(block, axis, middle);
    gather_blocks(edges, recent, site, outer, &upper)?;
    Ok(())
}

/// The same, one axis after the other.
fn gather_block(
    edges: &mut Vec<Edge>,
    recent: &mut Recent,
    site: &Site,
    outer: &Cell,
    block: &Cell,
) -> Result<(), Memory>
    requires part { IsBlock site.now.grid.axes outer.now.lo block.now.lo block.now.hi }
    requires room { count_of edges.old.items + 3 * volume_of block.now.lo block.now.hi ≤ most_edges }
    ensures gains { IfOk result (λ _. GainsContacts site.now.grid site.now.labels
        (ends_above site.now.grid.axes outer.now.lo block.now.lo block.now.hi) edges.old.items edges.new.items) }
    ensures count { IfOk result (λ _. count_of edges.new.items ≤ count_of edges.old.items + 3 * volume_of block.now.lo block.now.hi) }
{
    for axis in 0..3 {
        gather(edges, recent, site, axis, &raised(outer, block, axis))?;
    }
    Ok(())
}

/// The axis on which a block is longest.
fn widest(block: &Cell) -> u32
    requires { (axis : ℕ) → axis < 3 → slice_index block.now.lo axis < slice_index block.now.hi axis }
    ensures { result < 3 }
{
    let x = block.hi[0] - block.lo[0];
    let y = block.hi[1] - block.lo[1];
    let z = block.hi[2] - block.lo[2];
    if x >= y && x >= z {
        0
    } else if y >= z {
        1
    } else {
        2
    }
}

/// The voxels of a block with a voxel below them on an axis in the box that it is a part of.
fn raised(outer: &Cell, block: &Cell, axis: u32) -> Cell
    requires axis { axis < 3 }
    requires below { slice_index outer.now.lo axis < slice_index block.now.hi axis }
    ensures { result ≡ record block.now { lo = raised_low outer.now.lo block.now.lo axis } }
{
    let mut part = *block;
    part.lo[axis as usize] = block.lo[axis as usize].max(outer.lo[axis as usize] + 1);
    part
}

/// The part of a block below a coordinate of an axis.
fn up_to(block: &Cell, axis: u32, end: u32) -> Cell
    requires axis { axis < 3 }
    ensures { result ≡ record block.now { hi = slice_set block.now.hi axis end } }
{
    let mut part = *block;
    part.hi[axis as usize] = end;
    part
}

/// The part of a block from a coordinate of an axis on.
fn from_on(block: &Cell, axis: u32, start: u32) -> Cell
    requires axis { axis < 3 }
    ensures { result ≡ record block.now { lo = slice_set block.now.lo axis start } }
{
    let mut part = *block;
    part.lo[axis as usize] = start;
    part
}
