ghost use Rattle.std.specs.Prelude.{◌≡◌, ◌∷◌, [], IfOk, length, string_bytes};
ghost use Rattle.agglo_model.specs.Axes.{voxel_count};
ghost use Rattle.agglo_model.specs.Report.{level_lines, report, report_head};

use crate::answer::Answer;
use agglo_model::Memory;
use chunk_run::LevelCount;
use std::alloc::Global;

/// The report on a segmentation, in plain decimals: the numbers of voxels, of basins, of merges and of regions,
/// and a line for each level.
pub fn report_text(alloc: Global, answer: &Answer) -> Result<String, Memory>
    ensures { IfOk result (λ text. string_bytes text
        ≡ report (voxel_count answer.now.labels.axes) answer.now.basins (length answer.now.merges.items) answer.now.levels.items) }
{
    let mut text = totals(alloc, answer)?;
    for (number, level) in answer.levels.iter().enumerate() {
        text.push_str(&level_line(alloc, number, level)?)?;
    }
    Ok(text)
}

/// The first four lines.
fn totals(alloc: Global, answer: &Answer) -> Result<String, Memory>
    ensures { IfOk result (λ text. string_bytes text
        ≡ report_head (voxel_count answer.now.labels.axes) answer.now.basins (length answer.now.merges.items)) }
{
    let voxels = answer.labels.dims().voxels();
    let basins = answer.basins as usize;
    let merges = answer.merges.len();
    // no run has more merges than basins
    let regions = basins.saturating_sub(merges);
    let text = format!(in alloc;
        "voxels {voxels}\nbasins {basins}\nmerges {merges}\nregions {regions}\n"
    )?;
    Ok(text)
}

/// The line of a level.
fn level_line(alloc: Global, number: usize, level: &LevelCount) -> Result<String, Memory>
    ensures { IfOk result (λ text. string_bytes text ≡ level_lines number (level.now ∷ [])) }
{
    let nodes = level.nodes;
    let merges = level.merges;
    let passed = level.passed;
    let text = format!(in alloc; "level {number} nodes {nodes} merges {merges} passed {passed}\n")?;
    Ok(text)
}
