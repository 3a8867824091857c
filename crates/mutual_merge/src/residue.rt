ghost use Rattle.std.specs.Prelude.{◌≡◌, ◌≤◌, All, IfOk, length};
ghost use Rattle.agglo_model.specs.RegionGraph.{grid_edges};
ghost use Rattle.agglo_model.specs.Settling.{IsLeftOf};
ghost use Rattle.mutual_merge.specs.Linked.{AreLinked, IsLink, graph_of, link_edges};
ghost use Rattle.mutual_merge.specs.Left.{AreHeldBack, AreLeft, KeepsReaching, edges_left, regions_left};

use crate::links::{Link, edge_of};
use crate::merging::LinkedGraph;
use crate::pairs::is_free;
use agglo_model::Memory;
use mean_fraction::Threshold;
use region_graph::{Edge, Graph, Region};
use std::alloc::Global;

/// What is left of a graph: the regions that are held back or whose edges reach the threshold, and the edges
/// among them.
pub fn leave(
    alloc: Global,
    settled: LinkedGraph,
    threshold: &Threshold,
    frozen: u8,
) -> Result<Graph, Memory>
    requires { AreLinked settled.regions.items settled.links.items }
    ensures left { IfOk result (λ left.
        IsLeftOf threshold.now frozen (graph_of settled.regions.items settled.links.items) left) }
    ensures fewer { IfOk result (λ left. grid_edges left ≤ link_edges settled.links.items) }
{
    let kept = choose(alloc, &settled.regions, &settled.links, threshold, frozen)?;
    let edges = edges_among(alloc, &settled.regions, &settled.links, &kept)?;
    let regions = regions_of(alloc, &settled.regions, &kept)?;
    Ok(Graph::of(regions, edges))
}

/// Whether each region is left.
pub fn choose(
    alloc: Global,
    regions: &[Region],
    links: &[Link],
    threshold: &Threshold,
    frozen: u8,
) -> Result<Vec<bool>, Memory>
    requires { All (IsLink (length regions.now)) links.now }
    ensures { IfOk result (λ kept. AreLeft threshold.now frozen regions.now links.now kept.items) }
{
    let mut kept = hold_back(alloc, regions, frozen)?;
    keep_reaching(&mut kept, links, threshold);
    Ok(kept)
}

/// Whether each region is held back.
pub fn hold_back(alloc: Global, regions: &[Region], frozen: u8) -> Result<Vec<bool>, Memory>
    ensures { IfOk result (λ held. AreHeldBack frozen regions.now held.items) }
{
    let mut held = Vec::with_capacity(alloc, regions.len())?;
    for region in regions {
        held.push(!is_free(region, frozen))?;
    }
    Ok(held)
}

/// Keeps the regions of links that reach the threshold too.
fn keep_reaching(kept: &mut [bool], links: &[Link], threshold: &Threshold)
    requires { All (IsLink (length kept.old)) links.now }
    ensures { KeepsReaching threshold.now links.now kept.old kept.new }
{
    for link in links {
        if threshold.reaches(&link.contact) {
            kept[link.a as usize] = true;
            kept[link.b as usize] = true;
        }
    }
}

/// The edges between regions that are kept.
pub fn edges_among(
    alloc: Global,
    regions: &[Region],
    links: &[Link],
    kept: &[bool],
) -> Result<Vec<Edge>, Memory>
    requires inside { All (IsLink (length regions.now)) links.now }
    requires one_each { length kept.now ≡ length regions.now }
    ensures { IfOk result (λ edges. edges.items ≡ edges_left regions.now links.now kept.now) }
{
    let mut edges = Vec::new(alloc);
    for link in links {
        if kept[link.a as usize] && kept[link.b as usize] {
            edges.push(edge_of(regions, link))?;
        }
    }
    Ok(edges)
}

/// The regions that are kept.
pub fn regions_of(alloc: Global, regions: &[Region], kept: &[bool]) -> Result<Vec<Region>, Memory>
    requires { length kept.now ≡ length regions.now }
    ensures { IfOk result (λ left. left.items ≡ regions_left regions.now kept.now) }
{
    let mut left = Vec::new(alloc);
    for (place, region) in regions.iter().enumerate() {
        if kept[place] {
            left.push(*region)?;
        }
    }
    Ok(left)
}
