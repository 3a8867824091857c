ghost use Rattle.std.specs.Prelude.{◌≡◌, ◌<◌, IfOk, length};
ghost use Rattle.agglo_model.specs.Basins.{AreBasins};
ghost use Rattle.agglo_model.specs.Cutting.{cells_at};
ghost use Rattle.face_pointers.specs.Pieces.{AreClimbs, IsLeafClimb};

use agglo_model::Memory;
use chunk_tree::Cutting;
use face_pointers::{climb_leaf, resolve_into};
use rayon::current_num_threads;
use rayon::prelude::*;
use seg_base::Labels;
use std::alloc::{AllocError, Global};
use std::thread::{Threads, join};
use steepest_ascent::{Ends, whole_basins};
use volume_file::Volume;

/// The side, in voxels, of the pieces of a volume whose basins are worked out side by side.
const PIECE_SIDE: u32 = 64;

/// The basin labels of a volume, one for each voxel in order of number, worked out in as many threads as there are
/// processors. Where there is one, the volume is taken as a whole. The only error is want of memory.
pub fn basins_by_threads<R: Threads + Sync>(
    rt: &R,
    alloc: Global,
    vol: &Volume,
    low: u8,
) -> Result<Labels, Memory>
    ensures axes { IfOk result (λ labels. labels.axes ≡ vol.now.axes) }
    ensures basins { IfOk result (λ labels. AreBasins vol.now low labels.labels) }
{
    if current_num_threads(rt) == 1 {
        return whole_basins(alloc, vol, low);
    }
    match Cutting::new(vol.dims(), [PIECE_SIDE; 3]) {
        Ok(pieces) => basins(rt, alloc, vol, low, &pieces),
        Err(_) => whole_basins(alloc, vol, low),
    }
}

/// The basin labels of a volume, one for each voxel in order of number, worked out leaf by leaf of a cutting
/// in several threads. The only error is want of memory.
pub fn basins<R: Threads + Sync>(
    rt: &R,
    alloc: Global,
    vol: &Volume,
    low: u8,
    cutting: &Cutting,
) -> Result<Labels, Memory>
    requires { cutting.now.axes ≡ vol.now.axes }
    ensures axes { IfOk result (λ labels. labels.axes ≡ vol.now.axes) }
    ensures basins { IfOk result (λ labels. AreBasins vol.now low labels.labels) }
{
    if cutting.leaves() == 1 {
        return whole_basins(alloc, vol, low);
    }
    let voxels = vol.dims().voxels() as usize;
    let (room, pieces) = join(
        rt,
        || -> Result<Vec<u32>, AllocError>
            ensures { IfOk result (λ room. length room.items ≡ voxels) }
        { Vec::from_elem(alloc, 0, voxels) },
        || -> Result<Vec<Ends>, Memory>
            requires { cutting.now.axes ≡ vol.now.axes }
            ensures { IfOk result (λ pieces. AreClimbs vol.entry.now low cutting.entry.now pieces.items) }
        { climb_all(rt, alloc, vol, low, cutting) },
    );
    resolve_into(rt, alloc, vol, low, cutting, pieces?, room?)
}

/// The ends of the ascents within each leaf, in order of number.
fn climb_all<R: Threads + Sync>(
    rt: &R,
    alloc: Global,
    vol: &Volume,
    low: u8,
    cutting: &Cutting,
) -> Result<Vec<Ends>, Memory>
    requires { cutting.now.axes ≡ vol.now.axes }
    ensures { IfOk result (λ pieces. AreClimbs vol.now low cutting.now pieces.items) }
{
    (0..cutting.leaves())
        .into_par_iter()
        .with_min_len(1)
        .map(
            |leaf: u32| -> Result<Ends, Memory>
                requires { (leaf < cells_at cutting.now 0) × (cutting.now.axes ≡ vol.now.axes) }
                ensures { IfOk result (λ ends. IsLeafClimb vol.entry.now low cutting.entry.now leaf ends) }
            { climb_leaf(alloc, vol, low, cutting, leaf) },
        )
        .collect::<Result<Vec<Ends>, Memory>>(rt, alloc)?
}
