ghost use Rattle.std.specs.Prelude.{◌≡◌, IfOk};
ghost use Rattle.agglo_model.specs.Basins.{AreBasins};

use crate::ascent::Ascent;
use agglo_model::Memory;
use seg_base::Labels;
use std::alloc::Global;
use volume_file::Volume;

/// The basin labels of a volume, one for each voxel in order of number: the name of the basin to which the
/// ascent along best edges leads, and 0 where no edge is at least `low`. The watershed is after Zlateski and
/// Seung, arXiv 1505.00249 (2015). The only error is want of memory.
pub fn whole_basins(alloc: Global, vol: &Volume, low: u8) -> Result<Labels, Memory>
    ensures axes { IfOk result (λ labels. labels.axes ≡ vol.now.axes) }
    ensures basins { IfOk result (λ labels. AreBasins vol.now low labels.labels) }
{
    let ascent = Ascent::of(alloc, vol, low)?;
    let mut labels = Vec::from_elem(alloc, 0, vol.dims().voxels() as usize)?;
    ascent.settle_all(&mut labels);
    Ok(Labels::of(vol.dims(), labels))
}
