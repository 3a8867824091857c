ghost use Rattle.std.specs.Prelude.{◌≡◌, ◌<◌, IfOk, length};
ghost use Rattle.agglo_model.specs.Axes.{voxel_count};
ghost use Rattle.agglo_model.specs.Basins.{AreBasins};
ghost use Rattle.agglo_model.specs.Cutting.{cells_at};
ghost use Rattle.face_pointers.specs.Pieces.{AreClimbs, IsLeafClimb};

use crate::exits::Exits;
use agglo_model::Memory;
use chunk_tree::Cutting;
use seg_base::Labels;
use std::alloc::Global;
use std::thread::Threads;
use steepest_ascent::{Ends, climb};
use volume_file::Volume;

/// The ends of the ascents within a leaf of a cutting.
pub fn climb_leaf(
    alloc: Global,
    vol: &Volume,
    low: u8,
    cutting: &Cutting,
    leaf: u32,
) -> Result<Ends, Memory>
    requires axes { cutting.now.axes ≡ vol.now.axes }
    requires leaf { leaf < cells_at cutting.now 0 }
    ensures { IfOk result (λ ends. IsLeafClimb vol.now low cutting.now leaf ends) }
{
    climb(alloc, vol, low, &cutting.cell(leaf))
}

/// The basin labels of a volume, one for each voxel in order of number, from the ends of the ascents within
/// the leaves of a cutting. The pieces are those of all leaves, in order of number. Basins are those of
/// Zlateski and Seung, arXiv 1505.00249 (2015); that what a chunk cannot tell waits for its neighbours is
/// after Lu, Zlateski and Seung, arXiv 2106.10795 (2021). It works in several threads. The only error is want
/// of memory.
pub fn resolve<R: Threads + Sync>(
    rt: &R,
    alloc: Global,
    vol: &Volume,
    low: u8,
    cutting: &Cutting,
    pieces: Vec<Ends>,
) -> Result<Labels, Memory>
    requires axes { cutting.now.axes ≡ vol.now.axes }
    requires climbs { AreClimbs vol.now low cutting.now pieces.items }
    ensures axes { IfOk result (λ labels. labels.axes ≡ vol.now.axes) }
    ensures basins { IfOk result (λ labels. AreBasins vol.now low labels.labels) }
{
    let room = Vec::from_elem(alloc, 0, vol.dims().voxels() as usize)?;
    resolve_into(rt, alloc, vol, low, cutting, pieces, room)
}

/// The same as `resolve`, in a list that has a place for the label of each voxel; what stood there does not
/// matter. Where memory runs out, which is the only error, the list is given up.
pub fn resolve_into<R: Threads + Sync>(
    rt: &R,
    alloc: Global,
    vol: &Volume,
    low: u8,
    cutting: &Cutting,
    pieces: Vec<Ends>,
    room: Vec<u32>,
) -> Result<Labels, Memory>
    requires axes { cutting.now.axes ≡ vol.now.axes }
    requires climbs { AreClimbs vol.now low cutting.now pieces.items }
    requires room { length room.items ≡ voxel_count vol.now.axes }
    ensures axes { IfOk result (λ labels. labels.axes ≡ vol.now.axes) }
    ensures basins { IfOk result (λ labels. AreBasins vol.now low labels.labels) }
{
    let mut exits = Exits::of(vol, low, cutting, pieces);
    exits.follow_all(rt, alloc)?;
    let mut labels = room;
    exits.fill_all(rt, &mut labels);
    Ok(Labels::of(vol.dims(), labels))
}
