ghost use Rattle.std.specs.Prelude.{◌≡◌, ◌≤◌, IfOk};
ghost use Rattle.agglo_model.specs.RegionGraph.{grid_edges};
ghost use Rattle.agglo_model.specs.Settling.{Settles};
ghost use Rattle.mutual_merge.specs.Linked.{AreLinked, graph_of, link_edges};
ghost use Rattle.mutual_merge.specs.Rounds.{HasMerged, IsSettled};

use crate::chains::{Chained, merge_chains};
use crate::firsts::first_contacts;
use crate::links::link_all;
use crate::merging::{LinkedGraph, merge_mates};
use crate::pairs::{note_merges, pair_up};
use crate::residue::leave;
use crate::trimming::trim;
use agglo_model::Memory;
use mean_fraction::Threshold;
use merge_tree::Merge;
use region_graph::Graph;
use std::alloc::Global;

/// What became of a graph.
#[derive(Drop)]
pub struct Settled {
    /// What is left: the regions that a later merge may take, and the edges among them.
    pub residue: Graph,
    /// The merges that were made, one after another.
    pub merges: Vec<Merge>,
}

/// Merges the reciprocal pairs of a graph until there is none: two regions whose contact reaches the threshold
/// and comes before all others at both, by its mean affinity. Regions that touch one of the faces `frozen` take
/// no part, since their fate is decided by a node above; the bits are those of `Region`.
///
/// This is agglomeration by mean affinity with delayed decisions, after Lu, Zlateski and Seung, Large-scale image
/// segmentation based on distributed clustering algorithms, arXiv 2106.10795 (2021).
///
/// Nearly all pairs are merged along chains of neighbours. What chains leave, as where two contacts have the same mean
/// and the same tie, is merged in rounds, each of which looks at the whole graph that is left.
///
/// Fails for want of memory alone; the graph is given up then.
pub fn settle(
    alloc: Global,
    graph: Graph,
    threshold: &Threshold,
    frozen: u8,
) -> Result<Settled, Memory>
    ensures settles { IfOk result (λ settled. Settles threshold.now frozen graph settled.merges.items settled.residue) }
    ensures fewer { IfOk result (λ settled. grid_edges settled.residue ≤ grid_edges graph) }
{
    let start = linked(alloc, graph)?;
    settle_linked(alloc, start, threshold, frozen)
}

/// `settle`, of a graph with links in the place of its edges.
pub fn settle_linked(
    alloc: Global,
    start: LinkedGraph,
    threshold: &Threshold,
    frozen: u8,
) -> Result<Settled, Memory>
    requires { AreLinked start.regions.items start.links.items }
    ensures settles { IfOk result (λ settled. Settles threshold.now frozen (graph_of start.regions.items start.links.items)
        settled.merges.items settled.residue) }
    ensures fewer { IfOk result (λ settled. grid_edges settled.residue ≤ link_edges start.links.items) }
{
    let trimmed = trim(alloc, &start, threshold, frozen)?;
    drop(start);
    let Chained { graph, mut merges } = merge_chains(alloc, trimmed, threshold, frozen)?;
    let swept = merge_rounds(alloc, graph, threshold, frozen)?;
    merges.extend_from_slice(&swept.merges)?;
    let residue = leave(alloc, swept.graph, threshold, frozen)?;
    Ok(Settled { residue, merges })
}

/// The graph with links in the place of its edges, which are given up.
pub fn linked(alloc: Global, graph: Graph) -> Result<LinkedGraph, Memory>
    ensures linked { IfOk result (λ start. AreLinked start.regions.items start.links.items) }
    ensures same { IfOk result (λ start. graph_of start.regions.items start.links.items ≡ graph) }
{
    let parts = graph.into_parts();
    let links = link_all(alloc, &parts.regions, &parts.edges)?;
    Ok(LinkedGraph {
        regions: parts.regions,
        links,
    })
}

/// Merges reciprocal pairs in rounds until there is none. Regions that no merge takes any more are let go before each
/// round, so that a round looks at the others alone.
fn merge_rounds(
    alloc: Global,
    start: LinkedGraph,
    threshold: &Threshold,
    frozen: u8,
) -> Result<Chained, Memory>
    requires { AreLinked start.regions.items start.links.items }
    ensures merged { IfOk result (λ swept. HasMerged threshold.now frozen start.regions.items start.links.items
        swept.merges.items swept.graph.regions.items swept.graph.links.items) }
    ensures settled { IfOk result (λ swept. IsSettled threshold.now frozen swept.graph.regions.items swept.graph.links.items) }
{
    let mut graph = start;
    let mut merges = Vec::new(alloc);
    loop {
        graph = trim(alloc, &graph, threshold, frozen)?;
        let firsts = first_contacts(alloc, &graph.links, graph.regions.len())?;
        let pairing = pair_up(alloc, &graph, &firsts, threshold, frozen)?;
        if pairing.pairs.is_empty() {
            return Ok(Chained { graph, merges });
        }
        note_merges(&mut merges, &graph.regions, &pairing.pairs)?;
        graph = merge_mates(alloc, &graph.regions, &graph.links, &pairing.mates)?;
    }
}
