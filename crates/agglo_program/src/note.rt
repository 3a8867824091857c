ghost use Rattle.std.specs.Prelude.{◌≡◌, ◌==◌, ◌+◌, ◌<◌, ◌≤◌, ◌^◌, ℕ, IfOk, length, count_by, string_bytes};
ghost use Rattle.std.specs.List.{range_with_len};
ghost use Rattle.agglo_model.specs.Axes.{voxel_count};
ghost use Rattle.agglo_model.specs.Grid.{Grid};
ghost use Rattle.agglo_model.specs.Basins.{AreBasins, foreground, names};
ghost use Rattle.agglo_model.specs.Note.{basins_note, make_note};

use agglo_model::Memory;
use seg_base::{Dims, Labels};
use segment_run::count_basins;
use std::alloc::Global;

/// The note on basin labels: how many voxels there are, how many are foreground, and how many
/// basins.
pub fn basins_note(alloc: Global, labels: &Labels) -> Result<String, Memory>
    requires { (g : Grid) × (low : ℕ) × AreBasins g low labels.now.labels }
    ensures { IfOk result (λ note. string_bytes note ≡ basins_note labels.now.labels) }
{
    let voxels = labels.dims().voxels();
    let foreground = count_foreground(labels.list());
    let basins = count_basins(labels);
    let note = format!(in alloc; "voxels {voxels}\nforeground {foreground}\nbasins {basins}\n")?;
    Ok(note)
}

/// How many labels are not background.
fn count_foreground(labels: &[u32]) -> usize
    ensures { result ≡ foreground labels.now }
{
    labels.iter().filter(|&&label| label > 0).count()
}

/// The note on a volume that was generated.
pub fn make_note(alloc: Global, dims: &Dims) -> Result<String, Memory>
    ensures { IfOk result (λ note. string_bytes note ≡ make_note (voxel_count dims.now)) }
{
    let voxels = dims.voxels();
    let note = format!(in alloc; "voxels {voxels}\n")?;
    Ok(note)
}
