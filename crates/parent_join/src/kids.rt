ghost use Rattle.std.specs.Prelude.{◌≡◌, ◌<◌, ◌++◌, All, IfOk, length, map};
ghost use Rattle.agglo_model.specs.Cutting.{child_count, node_count};
ghost use Rattle.agglo_model.specs.Joining.{kept_edges, kept_faces, kept_regions};
ghost use Rattle.agglo_model.specs.RegionGraph.{IsGraph};
ghost use Rattle.parent_join.specs.Kids.{graphs_of, shared_faces, with_faces_in};

use agglo_model::Memory;
use chunk_tree::{Cutting, Kids, bit};
use region_graph::{Parts, Region, Residue, Site};
use seg_base::Cell;
use std::alloc::Global;

/// The regions of all children of node `m`, with the faces that are kept, and their edges, in order of child.
pub(crate) fn gather_kids(
    alloc: Global,
    site: &Site,
    m: u32,
    mut kids: Kids<Residue>,
) -> Result<Parts, Memory>
    requires node { m < node_count site.now.cutting }
    requires one_each { length kids ≡ child_count site.now.cutting m }
    ensures regions { IfOk result (λ parts. parts.regions.items ≡ kept_regions site.now.cutting m 0 (graphs_of kids)) }
    ensures edges { IfOk result (λ parts. parts.edges.items ≡ kept_edges (graphs_of kids)) }
    ensures graphs { IfOk result (λ _. All IsGraph (graphs_of kids)) }
{
    take_all(alloc, site, m, &mut kids)
}

/// The same, taken out of the kids.
fn take_all(alloc: Global, site: &Site, m: u32, kids: &mut Kids<Residue>) -> Result<Parts, Memory>
    requires node { m < node_count site.now.cutting }
    requires one_each { length kids.old ≡ child_count site.now.cutting m }
    ensures regions { IfOk result (λ parts. parts.regions.items ≡ kept_regions site.now.cutting m 0 (graphs_of kids.old)) }
    ensures edges { IfOk result (λ parts. parts.edges.items ≡ kept_edges (graphs_of kids.old)) }
    ensures graphs { IfOk result (λ _. All IsGraph (graphs_of kids.old)) }
{
    let cutting = site.cutting();
    let mut regions = Vec::new(alloc);
    let mut edges = Vec::new(alloc);
    let mut i = 0;
    while let Some(kid) = kids.take_first() {
        let parts = kid.graph.into_parts();
        let faces = faces_kept(cutting, m, cutting.child(m, i));
        add_regions(&mut regions, &parts.regions, faces)?;
        edges.extend_from_slice(&parts.edges)?;
        i += 1;
    }
    Ok(Parts { regions, edges })
}

/// Appends regions with those of their faces that are kept.
fn add_regions(regions: &mut Vec<Region>, more: &[Region], kept: u8) -> Result<(), Memory>
    ensures { IfOk result (λ _. regions.new.items ≡ regions.old.items ++ map (with_faces_in kept) more.now) }
{
    for region in more {
        regions.push(Region {
            name: region.name,
            faces: region.faces & kept,
        })?;
    }
    Ok(())
}

/// The faces of a child of node `m` that lie on artificial faces of the node, as bits.
fn faces_kept(cutting: &Cutting, m: u32, child: u32) -> u8
    requires node { m < node_count cutting.now }
    requires child { child < node_count cutting.now }
    ensures { result ≡ kept_faces cutting.now m child }
{
    cutting.artificial(m) & faces_shared(&cutting.cell(child), &cutting.cell(m))
}

/// The faces of a cell that lie in the planes of the same faces of another, as bits.
fn faces_shared(cell: &Cell, outer: &Cell) -> u8
    ensures { result ≡ shared_faces cell.now.lo cell.now.hi outer.now.lo outer.now.hi }
{
    bit(cell.lo[0] == outer.lo[0], 1)
        + bit(cell.hi[0] == outer.hi[0], 2)
        + bit(cell.lo[1] == outer.lo[1], 4)
        + bit(cell.hi[1] == outer.hi[1], 8)
        + bit(cell.lo[2] == outer.lo[2], 16)
        + bit(cell.hi[2] == outer.hi[2], 32)
}
