ghost use Rattle.std.specs.Prelude.{◌≡◌, ◌<◌, List, Option, IfOk};
ghost use Rattle.agglo_model.specs.Cutting.{node_count};
ghost use Rattle.agglo_model.specs.RegionGraph.{RegionGraph};
ghost use Rattle.region_graph.specs.SiteView.{IsSite};
ghost use Rattle.chunk_run.specs.Lanes.{HasRun};

use crate::count::LevelCount;
use crate::gate::Gate;
use crate::progress::Progress;
use agglo_model::Memory;
use merge_tree::Merge;
use region_graph::Site;
use std::alloc::Global;
use std::thread::Threads;

/// What a run over all nodes of a cutting did: the merges of the nodes, the nodes in order of their work, and
/// what each level did, from the leaves up.
#[derive(Drop)]
pub struct TreeRun {
    pub merges: Vec<Merge>,
    pub worked: Vec<u32>,
    pub levels: Vec<LevelCount>,
}

/// Works all nodes of a site's cutting, one level after the other. The nodes of a level are worked in as many
/// lanes as there are workers: each lane has those nodes whose places in the level leave its number when they
/// are divided by the workers, and passes the gate once before each of them.
pub fn run_tree<R: Threads + Sync, G: Gate>(
    rt: &R,
    alloc: Global,
    site: &Site<'_>,
    workers: u32,
    gate: &G,
) -> Result<TreeRun, Memory>
    requires { 0 < workers }
    ensures run { IfOk result (λ run. (waiting : List (Option RegionGraph)) × HasRun site.now (node_count site.now.cutting)
        waiting run.merges.items run.worked.items run.levels.items) }
    ensures site { IsSite site.now }
{
    let cutting = site.cutting();
    let mut progress = Progress::new(alloc, cutting.levels())?;
    let mut first = 0;
    for level in 0..cutting.levels() {
        let end = cutting.level_end(level);
        progress.work_level(rt, alloc, site, first, end, workers, gate)?;
        first = end;
    }
    Ok(TreeRun {
        merges: progress.merges,
        worked: progress.worked,
        levels: progress.levels,
    })
}
