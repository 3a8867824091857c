ghost use Rattle.std.specs.Prelude.{◌≡◌, ◌≢◌, ◌<◌, ◌≤◌, ◌+◌, ◌++◌, ◌∷◌, [], AllPairs, IfOk, List};
ghost use Rattle.std.specs.List.Sorted.{IsNonDecreasingBy};
ghost use Rattle.agglo_model.specs.PairOrder.{most_edges};
ghost use Rattle.agglo_model.specs.RegionGraph.{GraphEdge, StandsBefore};
ghost use Rattle.region_graph.specs.Lists.{AreNamed, AreOrdered, AreSummed, AreTouching, Gains, IsFit, SameContacts, SameRegions, count_of, order_of, with_contact, with_faces_of};

use crate::buckets::in_order;
use crate::graph::{Edge, Region};
use agglo_model::Memory;
use std::alloc::Global;

/// Sorts edges by their two names, and adds up those between the same two. Fails for want of memory alone.
pub fn sum_contacts(alloc: Global, edges: Vec<Edge>) -> Result<Vec<Edge>, Memory>
    requires within { count_of edges.items ≤ most_edges }
    requires ordered { AreOrdered edges.items }
    ensures ascend { IfOk result (λ summed. AllPairs StandsBefore summed.items) }
    ensures ordered { IfOk result (λ summed. AreOrdered summed.items) }
    ensures touching { IfOk result (λ summed. AreTouching summed.items) }
    ensures contacts { IfOk result (λ summed. SameContacts edges.items summed.items) }
    ensures count { IfOk result (λ summed. count_of summed.items ≡ count_of edges.items) }
{
    let buckets = in_order(alloc, edges)?;
    let mut summed = Vec::new(alloc);
    for bucket in &buckets {
        add_edges(&mut summed, bucket)?;
    }
    Ok(summed)
}

/// Adds edges one after the other, as `add_edge` does.
fn add_edges(summed: &mut Vec<Edge>, edges: &[Edge]) -> Result<(), Memory>
    requires { count_of summed.old.items + count_of edges.now ≤ most_edges }
    ensures { IfOk result (λ _. (done : List GraphEdge) → AreSummed done summed.old.items
        → IsNonDecreasingBy order_of (done ++ edges.now) → AreSummed (done ++ edges.now) summed.new.items) }
{
    for edge in edges {
        add_edge(summed, *edge)?;
    }
    Ok(())
}

/// Adds an edge to the last of the list, where that is between the same two names, and else appends it.
pub(crate) fn add_edge(edges: &mut Vec<Edge>, edge: Edge) -> Result<(), Memory>
    requires { count_of edges.old.items + edge.contact.count ≤ most_edges }
    ensures gains { IfOk result (λ _. Gains order_of with_contact edge edges.old.items edges.new.items) }
    ensures contacts { IfOk result (λ _. SameContacts (edges.old.items ++ edge ∷ []) edges.new.items) }
    ensures count { IfOk result (λ _. count_of edges.new.items ≡ count_of edges.old.items + edge.contact.count) }
    ensures fits { IsFit edge }
{
    let order = edge.order();
    if let Some(last) = edges.last_mut() {
        if last.order() == order {
            last.contact = last.contact.add(edge.contact);
            return Ok(());
        }
    }
    edges.push(edge)?;
    Ok(())
}

/// Adds an edge to the one at a place of the list, where that is between the same two names, and else
/// appends it. Answers the place where it is then.
pub(crate) fn add_edge_at(edges: &mut Vec<Edge>, place: usize, edge: Edge) -> Result<usize, Memory>
    requires { count_of edges.old.items + edge.contact.count ≤ most_edges }
    ensures ordered { IfOk result (λ _. AreOrdered edges.old.items → edge.a < edge.b → AreOrdered edges.new.items) }
    ensures contacts { IfOk result (λ _. SameContacts (edges.old.items ++ edge ∷ []) edges.new.items) }
    ensures count { IfOk result (λ _. count_of edges.new.items ≡ count_of edges.old.items + edge.contact.count) }
{
    let order = edge.order();
    let end = edges.len();
    if place < end && edges[place].order() == order {
        let there = &mut edges[place];
        there.contact = there.contact.add(edge.contact);
        return Ok(place);
    }
    edges.push(edge)?;
    Ok(end)
}

/// Sorts regions by name, and puts together the faces of those of one name. Fails for want of memory alone.
pub fn join_regions(alloc: Global, mut regions: Vec<Region>) -> Result<Vec<Region>, Memory>
    ensures ascend { IfOk result (λ joined. AllPairs (λ r s. r.name < s.name) joined.items) }
    ensures named { IfOk result (λ joined. AreNamed regions.items → AreNamed joined.items) }
    ensures same { IfOk result (λ joined. SameRegions regions.items joined.items) }
{
    regions.sort_unstable_by_key(|region| region.name);
    let mut joined = Vec::new(alloc);
    for region in &regions {
        add_region(&mut joined, *region)?;
    }
    Ok(joined)
}

/// Gives the faces of a region to the last of the list, where that has its name, and else appends it.
pub(crate) fn add_region(regions: &mut Vec<Region>, region: Region) -> Result<(), Memory>
    ensures { IfOk result (λ _. Gains (λ r. r.name) with_faces_of region regions.old.items regions.new.items) }
{
    if let Some(last) = regions.last_mut() {
        if last.name == region.name {
            last.faces |= region.faces;
            return Ok(());
        }
    }
    regions.push(region)?;
    Ok(())
}

/// Gives the faces of a region to the one at a place of the list, where that has its name, and else appends
/// it. Answers the place where it is then.
pub(crate) fn add_region_at(
    regions: &mut Vec<Region>,
    place: usize,
    region: Region,
) -> Result<usize, Memory>
    ensures named { IfOk result (λ _. AreNamed regions.old.items → region.name ≢ 0 → AreNamed regions.new.items) }
    ensures same { IfOk result (λ _. SameRegions (regions.old.items ++ region ∷ []) regions.new.items) }
{
    let end = regions.len();
    if place < end && regions[place].name == region.name {
        regions[place].faces |= region.faces;
        return Ok(place);
    }
    regions.push(region)?;
    Ok(end)
}
