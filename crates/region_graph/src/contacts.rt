ghost use Rattle.std.specs.Prelude.{◌≡◌, ℕ, ◌+◌, ◌-◌, ◌<◌, ◌≤◌, IfOk, slice_index};
ghost use Rattle.agglo_model.specs.Axes.{coordinate, voxel_count};
ghost use Rattle.agglo_model.specs.PairOrder.{most_edges};
ghost use Rattle.region_graph.specs.Boxes.{GainsContacts, IsBox, ends_among, in_box, in_run, volume_of};
ghost use Rattle.region_graph.specs.Lists.{count_of};

use crate::graph::Edge;
use crate::recent::Recent;
use crate::site::Site;
use crate::sums::add_edge_at;
use agglo_model::Memory;
use seg_base::Cell;

/// Adds the contacts of the edges on an axis (0 is x, 1 is y, 2 is z) whose higher ends lie in a box. No voxel of
/// the box lies at the volume's low border on that axis. The list is in no order, and names come again in it.
/// Where there is no memory, some contacts were added and others not.
pub fn add_contacts(
    edges: &mut Vec<Edge>,
    site: &Site,
    axis: u32,
    cell: &Cell,
) -> Result<(), Memory>
    requires axis { axis < 3 }
    requires cell_fits { IsBox site.now.grid.axes cell.now.lo cell.now.hi }
    requires inner { 0 < slice_index cell.now.lo axis }
    requires room { count_of edges.old.items + voxel_count site.now.grid.axes ≤ most_edges }
    ensures gains { IfOk result (λ _. GainsContacts site.now.grid site.now.labels
        (ends_among axis (in_box site.now.grid.axes cell.now.lo cell.now.hi)) edges.old.items edges.new.items) }
    ensures count { IfOk result (λ _. count_of edges.new.items ≤ count_of edges.old.items + voxel_count site.now.grid.axes) }
{
    let alloc = *edges.allocator();
    let mut recent = Recent::new(alloc)?;
    gather(edges, &mut recent, site, axis, cell)?;
    Ok(())
}

/// The same, with the places of edges that were added a short time ago.
pub(crate) fn gather(
    edges: &mut Vec<Edge>,
    recent: &mut Recent,
    site: &Site,
    axis: u32,
    cell: &Cell,
) -> Result<(), Memory>
    requires axis { axis < 3 }
    requires cell_fits { IsBox site.now.grid.axes cell.now.lo cell.now.hi }
    requires inner { 0 < slice_index cell.now.lo axis }
    requires room { count_of edges.old.items + volume_of cell.now.lo cell.now.hi ≤ most_edges }
    ensures gains { IfOk result (λ _. GainsContacts site.now.grid site.now.labels
        (ends_among axis (in_box site.now.grid.axes cell.now.lo cell.now.hi)) edges.old.items edges.new.items) }
    ensures count { IfOk result (λ _. count_of edges.new.items ≤ count_of edges.old.items + volume_of cell.now.lo cell.now.hi) }
{
    let dims = site.vol().dims();
    let [low_x, low_y, low_z] = cell.lo;
    let [high_x, high_y, high_z] = cell.hi;
    for z in low_z..high_z {
        for y in low_y..high_y {
            let row = dims.voxel(0, y, z);
            add_row(edges, recent, site, axis, row + low_x, row + high_x)?;
        }
    }
    Ok(())
}

/// The same for the voxels from `from` up to, but not including, `to`.
fn add_row(
    edges: &mut Vec<Edge>,
    recent: &mut Recent,
    site: &Site,
    axis: u32,
    from: u32,
    to: u32,
) -> Result<(), Memory>
    requires axis { axis < 3 }
    requires ascending { from ≤ to }
    requires voxels { to ≤ voxel_count site.now.grid.axes }
    requires inner { (v : ℕ) → from ≤ v → v < to → 0 < coordinate site.now.grid.axes v axis }
    requires room { count_of edges.old.items + (to - from) ≤ most_edges }
    ensures gains { IfOk result (λ _. GainsContacts site.now.grid site.now.labels
        (ends_among axis (in_run from to)) edges.old.items edges.new.items) }
    ensures count { IfOk result (λ _. count_of edges.new.items ≤ count_of edges.old.items + (to - from)) }
{
    let labels = site.labels().list();
    let bytes = site.vol().bytes();
    let stride = site.vol().dims().stride(axis);
    for v in from..to {
        let higher = labels[v as usize];
        let lower = labels[(v - stride) as usize];
        if higher != lower && higher != 0 && lower != 0 {
            let number = 3 * v + axis;
            let byte = bytes[number as usize];
            let edge = Edge::one(lower, higher, byte, number);
            let pair = edge.order();
            let place = add_edge_at(edges, recent.place(pair), edge)?;
            recent.keep(pair, place);
        }
    }
    Ok(())
}
