ghost use Rattle.std.specs.Prelude.{◌≡◌, ◌<◌, ◌^◌, ℕ, All, AllPairs, IfOk, IsPermutation, length, sum_by};
ghost use Rattle.agglo_model.specs.Basins.{AreBasins, names};
ghost use Rattle.agglo_model.specs.Greedy.{IsGreedyRun, after_merges};
ghost use Rattle.agglo_model.specs.Grid.{Grid};
ghost use Rattle.agglo_model.specs.MergeLaws.{AreFalling};
ghost use Rattle.agglo_model.specs.Segmentation.{AreLevels, IsSegmentation};
ghost use Rattle.merge_tree.specs.Order.{DifferInRank};
ghost use Rattle.merge_tree.specs.Renaming.{HasSmallNames};

use crate::answer::{Answer, Settings};
use crate::basin_run::{basins, basins_by_threads};
use crate::coarsening::coarsen;
use agglo_model::Memory;
use agglo_model::laws::{bounded_labels, counted_names};
use agglo_model::laws_of_merging::{greedy_merges_are_lawful, sorted_merges_are_greedy};
use agglo_model::laws_of_nodes::{basins_are_connected, works_are_a_run};
use chunk_run::{Gate, LevelCount, run_tree};
use chunk_tree::Cutting;
use merge_tree::{Merge, apply, apply_by_threads, in_order, sort_by_threads};
use region_graph::Site;
use seg_base::Labels;
use std::alloc::Global;
use std::thread::Threads;
use volume_file::Volume;
use work_laws::finer_levels_coarsen;

/// The longest side of a leaf, in voxels, that is worked as a whole if it can be halved.
const INNER_SIDE: u32 = 64;

/// The merges of all nodes, in pair order, and what each level did.
#[derive(Drop)]
struct Agglomeration {
    merges: Vec<Merge>,
    levels: Vec<LevelCount>,
}

/// The segmentation of a volume that is cut into chunks: its basins, merged by mean affinity as greedy
/// agglomeration of the whole volume merges them. How the volume is cut shows in the counts of levels alone.
/// The gate is told of each node that is worked once before it is merged; a large leaf is cut inside, into several.
/// There is a label for each voxel, and a count for each level of the cutting. The only error is want of memory.
///
/// The basins are after Zlateski and Seung, arXiv 1505.00249 (2015); work by chunks, with decisions at their
/// borders delayed until the neighbours are there, is after Lu, Zlateski and Seung, arXiv 2106.10795 (2021).
pub fn segment<R: Threads + Sync, G: Gate>(
    rt: &R,
    alloc: Global,
    vol: &Volume,
    cutting: &Cutting,
    settings: &Settings,
    gate: &G,
) -> Result<Answer, Memory>
    requires { cutting.now.axes ≡ vol.now.axes }
    ensures axes { IfOk result (λ answer. answer.labels.axes ≡ vol.now.axes) }
    ensures answer { IfOk result (λ answer. IsSegmentation vol.now settings.now.low settings.now.threshold cutting.now
        answer.labels.labels answer.basins answer.merges.items answer.levels.items) }
{
    let labels = start_labels(rt, alloc, vol, cutting, settings)?;
    let count = count_basins(&labels);
    let done = agglomerate_inside(rt, alloc, vol, &labels, cutting, settings, gate)?;
    Ok(Answer {
        labels: renamed(rt, alloc, labels, &done.merges, settings.workers)?,
        basins: count,
        merges: done.merges,
        levels: done.levels,
    })
}

/// The labels of basins, from the leaves of the cutting where there is one worker, and else by threads.
fn start_labels<R: Threads + Sync>(
    rt: &R,
    alloc: Global,
    vol: &Volume,
    cutting: &Cutting,
    settings: &Settings,
) -> Result<Labels, Memory>
    requires { cutting.now.axes ≡ vol.now.axes }
    ensures axes { IfOk result (λ labels. labels.axes ≡ vol.now.axes) }
    ensures basins { IfOk result (λ labels. AreBasins vol.now settings.now.low labels.labels) }
{
    if settings.workers > 1 {
        basins_by_threads(rt, alloc, vol, settings.low)
    } else {
        basins(rt, alloc, vol, settings.low, cutting)
    }
}

/// Merges basins over a cutting that goes on inside leaves with sides above `INNER_SIDE`, so that they take no more
/// memory than others, and several workers can work one leaf. The levels are those of the cutting that was given.
fn agglomerate_inside<R: Threads + Sync, G: Gate>(
    rt: &R,
    alloc: Global,
    vol: &Volume,
    labels: &Labels,
    cutting: &Cutting,
    settings: &Settings,
    gate: &G,
) -> Result<Agglomeration, Memory>
    requires labels_fit { labels.now.axes ≡ vol.now.axes }
    requires cutting_fits { cutting.now.axes ≡ vol.now.axes }
    requires basins { (low : ℕ) × AreBasins vol.now low labels.now.labels }
    ensures greedy { IfOk result (λ done. IsGreedyRun vol.now settings.now.threshold labels.now.labels done.merges.items) }
    ensures small { IfOk result (λ done. All HasSmallNames done.merges.items) }
    ensures levels { IfOk result (λ done. AreLevels vol.now settings.now.threshold cutting.now labels.now.labels done.levels.items) }
{
    basins_are_connected();
    finer_levels_coarsen();
    let finer = cutting.finer(INNER_SIDE);
    let done = agglomerate(rt, alloc, vol, labels, &finer.cutting, settings, gate)?;
    Ok(Agglomeration {
        merges: done.merges,
        levels: coarsen(done.levels, finer.levels),
    })
}

/// Merges basins, node by node.
fn agglomerate<R: Threads + Sync, G: Gate>(
    rt: &R,
    alloc: Global,
    vol: &Volume,
    labels: &Labels,
    cutting: &Cutting,
    settings: &Settings,
    gate: &G,
) -> Result<Agglomeration, Memory>
    requires labels_fit { labels.now.axes ≡ vol.now.axes }
    requires cutting_fits { cutting.now.axes ≡ vol.now.axes }
    requires basins { (low : ℕ) × AreBasins vol.now low labels.now.labels }
    ensures greedy { IfOk result (λ done. IsGreedyRun vol.now settings.now.threshold labels.now.labels done.merges.items) }
    ensures small { IfOk result (λ done. All HasSmallNames done.merges.items) }
    ensures levels { IfOk result (λ done. AreLevels vol.now settings.now.threshold cutting.now labels.now.labels done.levels.items) }
    ensures few { IfOk result (λ done. sum_by (λ level. level.merges) done.levels.items < 2 ^ 32) }
{
    basins_are_connected();
    works_are_a_run();
    sorted_merges_are_greedy();
    greedy_merges_are_lawful();
    bounded_labels();
    let site = Site::new(vol, labels, cutting, settings.threshold);
    let workers = settings.workers.clamp(1, 32);
    let done = run_tree(rt, alloc, &site, workers, gate)?;
    Ok(Agglomeration {
        merges: ordered(rt, alloc, done.merges, workers)?,
        levels: done.levels,
    })
}

/// The merges in pair order, sorted by threads where there are several workers.
fn ordered<R: Threads + Sync>(
    rt: &R,
    alloc: Global,
    merges: Vec<Merge>,
    workers: u32,
) -> Result<Vec<Merge>, Memory>
    requires apart { AllPairs DifferInRank merges.items }
    ensures same_merges { IfOk result (λ sorted. IsPermutation merges.items sorted.items) }
    ensures falling { IfOk result (λ sorted. AreFalling sorted.items) }
{
    if workers == 1 {
        return in_order(alloc, merges);
    }
    let mut sorted = merges;
    sort_by_threads(rt, &mut sorted);
    Ok(sorted)
}

/// The labels after the merges, filled in by threads where there are several workers.
fn renamed<R: Threads + Sync>(
    rt: &R,
    alloc: Global,
    labels: Labels,
    merges: &[Merge],
    workers: u32,
) -> Result<Labels, Memory>
    requires small { All HasSmallNames merges.now }
    ensures { IfOk result (λ renamed. renamed ≡ record labels { labels = after_merges labels.labels merges.now }) }
{
    if workers > 1 {
        return apply_by_threads(rt, alloc, labels, merges);
    }
    let mut renamed = labels;
    apply(alloc, &mut renamed, merges)?;
    Ok(renamed)
}

/// How many basins there are: a basin has the name of one of its voxels, the number of it plus 1.
pub fn count_basins(labels: &Labels) -> u32
    requires { (g : Grid) × (low : ℕ) × AreBasins g low labels.now.labels }
    ensures { result ≡ length (names labels.now.labels) }
{
    counted_names();
    let mut count = 0;
    for v in 0..labels.dims().voxels() {
        if labels.get(v) == v + 1 {
            count += 1;
        }
    }
    count
}
