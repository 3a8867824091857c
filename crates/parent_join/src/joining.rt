ghost use Rattle.std.specs.Prelude.{◌≡◌, ◌<◌, IfOk, length};
ghost use Rattle.agglo_model.specs.Cutting.{child_count, node_count};
ghost use Rattle.agglo_model.specs.Joining.{IsJoined};
ghost use Rattle.parent_join.specs.Kids.{KidsFit, graphs_of};

use crate::across::{add_named, gather_across};
use crate::kids::gather_kids;
use agglo_model::Memory;
use chunk_tree::Kids;
use region_graph::{Graph, Parts, Residue, Site, join_regions, sum_contacts};
use std::alloc::Global;

/// The graph of node `m`, made of the residues of its children in order of number: all names that they have,
/// each with those of its faces that are artificial faces of the node too, and for each two of these names
/// what the residues and the edges from child to child say of their contact.
pub fn join(alloc: Global, site: &Site, m: u32, kids: Kids<Residue>) -> Result<Graph, Memory>
    requires node { m < node_count site.now.cutting }
    requires parent { 0 < child_count site.now.cutting m }
    requires one_each { length kids ≡ child_count site.now.cutting m }
    requires fit { KidsFit site.now.grid site.now.cutting m (graphs_of kids) }
    ensures { IfOk result (λ graph. IsJoined site.now.grid site.now.cutting m site.now.labels (graphs_of kids) graph) }
{
    let Parts { regions, mut edges } = gather_kids(alloc, site, m, kids)?;
    let regions = join_regions(alloc, regions)?;
    let across = sum_contacts(alloc, gather_across(alloc, site, m)?)?;
    add_named(&mut edges, &across, &regions)?;
    let edges = sum_contacts(alloc, edges)?;
    Ok(Graph::of(regions, edges))
}
