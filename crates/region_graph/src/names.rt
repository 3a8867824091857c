ghost use Rattle.std.specs.Prelude.{◌≡◌, ◌<◌, ◌≤◌, IfOk};
ghost use Rattle.agglo_model.specs.Axes.{voxel_count};
ghost use Rattle.region_graph.specs.Boxes.{GainsNames, IsBox, in_box, in_run};

use crate::graph::Region;
use crate::recent::Recent;
use crate::sums::add_region_at;
use agglo_model::Memory;
use seg_base::{Cell, Labels};

/// Adds the names that occur in a box, each with these faces. A name may be added many times: it is looked for
/// only where it was added a short time ago.
pub(crate) fn add_names(
    regions: &mut Vec<Region>,
    recent: &mut Recent,
    labels: &Labels,
    cell: &Cell,
    faces: u8,
) -> Result<(), Memory>
    requires { IsBox labels.now.axes cell.now.lo cell.now.hi }
    ensures { IfOk result (λ _. GainsNames labels.now.axes labels.now.labels
        (in_box labels.now.axes cell.now.lo cell.now.hi) faces regions.old.items regions.new.items) }
{
    let dims = labels.dims();
    let [low_x, low_y, low_z] = cell.lo;
    let [high_x, high_y, high_z] = cell.hi;
    for z in low_z..high_z {
        for y in low_y..high_y {
            let row = dims.voxel(0, y, z);
            add_row(regions, recent, labels, row + low_x, row + high_x, faces)?;
        }
    }
    Ok(())
}

/// The same for the voxels from `from` up to, but not including, `to`.
fn add_row(
    regions: &mut Vec<Region>,
    recent: &mut Recent,
    labels: &Labels,
    from: u32,
    to: u32,
    faces: u8,
) -> Result<(), Memory>
    requires ascending { from ≤ to }
    requires voxels { to ≤ voxel_count labels.now.axes }
    ensures { IfOk result (λ _. GainsNames labels.now.axes labels.now.labels
        (in_run from to) faces regions.old.items regions.new.items) }
{
    let labels = labels.list();
    for v in from..to {
        let name = labels[v as usize];
        if name != 0 {
            let number = u64::from(name);
            let place = add_region_at(regions, recent.place(number), Region { name, faces })?;
            recent.keep(number, place);
        }
    }
    Ok(())
}
