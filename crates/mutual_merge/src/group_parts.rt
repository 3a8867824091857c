ghost use Rattle.std.specs.Prelude.{◌≡◌, ℕ, IfOk, map, nat_eq};
ghost use Rattle.mutual_merge.specs.Linked.{AreLinked};
ghost use Rattle.mutual_merge.specs.Parts.{AreGroups, SettlesGroup};

use crate::merging::LinkedGraph;
use crate::settling::settle_linked;
use crate::trimming::part_of;
use agglo_model::Memory;
use mean_fraction::Threshold;
use merge_tree::Merge;
use std::alloc::Global;

/// The merges of the part that has the regions of one group.
pub fn settle_group(
    alloc: Global,
    graph: &LinkedGraph,
    groups: &[u32],
    group: u32,
    threshold: &Threshold,
) -> Result<Vec<Merge>, Memory>
    requires linked { AreLinked graph.now.regions.items graph.now.links.items }
    requires groups { (count : ℕ) × AreGroups threshold.now graph.now.regions.items graph.now.links.items count groups.now }
    ensures { IfOk result (λ merges. SettlesGroup threshold.now graph.now.regions.items graph.now.links.items
        groups.now group merges.items) }
{
    let kept = are_of(alloc, groups, group)?;
    let part = part_of(alloc, graph, &kept)?;
    drop(kept);
    let settled = settle_linked(alloc, part, threshold, 0)?;
    Ok(settled.merges)
}

/// Whether each region is of this group.
fn are_of(alloc: Global, groups: &[u32], group: u32) -> Result<Vec<bool>, Memory>
    ensures { IfOk result (λ kept. kept.items ≡ map (λ other. nat_eq other group) groups.now) }
{
    let kept = groups.iter().map(|other| *other == group).collect(alloc)?;
    Ok(kept)
}
