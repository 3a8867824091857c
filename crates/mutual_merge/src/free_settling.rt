ghost use Rattle.std.specs.Prelude.{◌<◌, ◌≤◌, ◌^◌, ℕ, IfOk};
ghost use Rattle.agglo_model.specs.RegionGraph.{grid_edges};
ghost use Rattle.agglo_model.specs.Settling.{Settles};
ghost use Rattle.mutual_merge.specs.Linked.{AreLinked};
ghost use Rattle.mutual_merge.specs.Parts.{AreGroups, AreListsJoined, SettlesGroup};

use crate::group_parts::settle_group;
use crate::groups::group_regions;
use crate::settling::{Settled, linked};
use crate::trimming::trim;
use agglo_model::Memory;
use mean_fraction::Threshold;
use merge_tree::Merge;
use region_graph::Graph;
use std::alloc::Global;
use std::thread;
use std::thread::Threads;

/// Merges the reciprocal pairs of a graph as `settle` does, where no region is held back, in so many threads where they
/// can be made. Regions are put into as many groups, which no contact that reaches the threshold joins, so no merge ever
/// leads from one to another, and each group is settled by itself. Nothing is left of the graph then.
///
/// Where all regions are connected by such contacts, there is one group, and one thread does the work.
///
/// Fails for want of memory alone; the graph is given up then.
pub fn settle_free<R: Threads + Sync>(
    rt: &R,
    alloc: Global,
    graph: Graph,
    threshold: &Threshold,
    workers: u32,
) -> Result<Settled, Memory>
    requires { 0 < workers }
    ensures settles { IfOk result (λ settled. Settles threshold.now 0 graph settled.merges.items settled.residue) }
    ensures fewer { IfOk result (λ settled. grid_edges settled.residue ≤ grid_edges graph) }
{
    let start = linked(alloc, graph)?;
    let trimmed = trim(alloc, &start, threshold, 0)?;
    drop(start);
    let groups = group_regions(alloc, &trimmed, threshold, workers)?;
    let lists = thread::map_indices(
        rt,
        alloc,
        workers as usize,
        &|group: usize| -> Result<Vec<Merge>, Memory>
            requires linked { AreLinked trimmed.regions.items trimmed.links.items }
            requires groups { (count : ℕ) × AreGroups threshold.now trimmed.regions.items trimmed.links.items count groups.items }
            requires below { group < 2 ^ 32 }
            ensures { IfOk result (λ merges. SettlesGroup threshold.entry.now trimmed.regions.items trimmed.links.items
                groups.items group merges.items) }
        { settle_group(alloc, &trimmed, &groups, group as u32, threshold) },
    )?;
    let merges = join_lists(alloc, lists)?;
    let residue = Graph::of(Vec::new(alloc), Vec::new(alloc));
    Ok(Settled { residue, merges })
}

/// The merges of all lists, one list after another, or the first error.
fn join_lists(alloc: Global, lists: Vec<Result<Vec<Merge>, Memory>>) -> Result<Vec<Merge>, Memory>
    ensures { IfOk result (λ merges. AreListsJoined lists.items merges.items) }
{
    let mut merges = Vec::new(alloc);
    for list in lists {
        let mut list = list?;
        merges.append(&mut list)?;
    }
    Ok(merges)
}
