ghost use Rattle.std.specs.Prelude.{◌≡◌, ◌≢◌, ℕ, ◌+◌, ◌^◌, ◌<◌, ◌≤◌, ◌&&◌, IfOk, slice_index};
ghost use Rattle.agglo_model.specs.Axes.{edge_count};
ghost use Rattle.agglo_model.specs.Cutting.{cells_at, length_on, node_count};
ghost use Rattle.agglo_model.specs.Freezing.{occurs_in, touched_faces};
ghost use Rattle.agglo_model.specs.Joining.{is_named, joined_faces};
ghost use Rattle.agglo_model.specs.PairOrder.{most_edges};
ghost use Rattle.agglo_model.specs.RegionGraph.{IsCellGraph, between_inside, contact_in};
ghost use Rattle.region_graph.specs.Boxes.{GainsFaces, GainsNames, IsBox, IsSomeBox, highest_from, in_box, lowest_to};
ghost use Rattle.region_graph.specs.Lists.{AreNamed, AreOrdered, count_of};
ghost use Rattle.region_graph.specs.SiteView.{IsSite};

use crate::blocks::gather_blocks;
use crate::graph::{Edge, Graph, Region};
use crate::names::add_names;
use crate::recent::Recent;
use crate::site::Site;
use crate::sums::{join_regions, sum_contacts};
use agglo_model::Memory;
use seg_base::{Cell, Dims, Labels};
use std::alloc::Global;

/// The graph of all names in the cell of leaf `m`, by the labels that the work starts from: each name with the
/// artificial faces that it touches, and for each two names the contact that the edges with both ends in the cell
/// make. Fails for want of memory alone.
///
/// It is the part inside one cell of the watershed basin graph of Zlateski and Seung, Image segmentation by
/// size-dependent single linkage clustering of a watershed basin graph, arXiv 1505.00249 (2015), with sums and
/// counts of affinities, since regions are merged by the mean.
pub fn of_leaf(alloc: Global, site: &Site, m: u32) -> Result<Graph, Memory>
    requires { m < cells_at site.now.cutting 0 }
    ensures { IfOk result (λ graph. IsCellGraph site.now.grid site.now.cutting m site.now.labels graph) }
{
    let regions = join_regions(alloc, names_inside(alloc, site, m)?)?;
    let edges = sum_contacts(alloc, contacts_inside(alloc, site, m)?)?;
    Ok(Graph::of(regions, edges))
}

/// The contacts of all edges with both ends in the cell of node `m`, in no order.
fn contacts_inside(alloc: Global, site: &Site, m: u32) -> Result<Vec<Edge>, Memory>
    requires { m < node_count site.now.cutting }
    ensures contacts { IfOk result (λ edges. (x y : ℕ) → contact_in (edge_count site.now.grid.axes) edges.items x y
        ≡ between_inside site.now.grid site.now.cutting m site.now.labels x y) }
    ensures ordered { IfOk result (λ edges. AreOrdered edges.items) }
    ensures count { IfOk result (λ edges. count_of edges.items ≤ most_edges) }
    ensures site { IsSite site.now }
{
    let cell = site.cutting().cell(m);
    let mut edges = Vec::new(alloc);
    let mut recent = Recent::new(alloc)?;
    gather_blocks(&mut edges, &mut recent, site, &cell, &cell)?;
    Ok(edges)
}

/// The names in the cell of node `m` with the artificial faces that they touch, in no order.
fn names_inside(alloc: Global, site: &Site, m: u32) -> Result<Vec<Region>, Memory>
    requires { m < node_count site.now.cutting }
    ensures named { IfOk result (λ regions. AreNamed regions.items) }
    ensures names { IfOk result (λ regions. (x : ℕ) → x ≢ 0 → is_named regions.items x
        ≡ occurs_in site.now.cutting m site.now.labels x) }
    ensures faces { IfOk result (λ regions. (x : ℕ) → x ≢ 0 → joined_faces regions.items x
        ≡ touched_faces site.now.cutting m site.now.labels x) }
{
    let cell = site.cutting().cell(m);
    let mut regions = Vec::new(alloc);
    let mut recent = Recent::new(alloc)?;
    add_names(&mut regions, &mut recent, site.labels(), &cell, 0)?;
    for axis in 0..3 {
        add_faces(&mut regions, &mut recent, site, &cell, axis)?;
    }
    Ok(regions)
}

/// Adds the names at the artificial faces of a cell on an axis.
fn add_faces(
    regions: &mut Vec<Region>,
    recent: &mut Recent,
    site: &Site,
    cell: &Cell,
    axis: u32,
) -> Result<(), Memory>
    requires axis { axis < 3 }
    requires cell_fits { IsSomeBox site.now.grid.axes cell.now.lo cell.now.hi }
    ensures { IfOk result (λ _. GainsFaces site.now.grid.axes site.now.labels cell.now.lo cell.now.hi axis
        regions.old.items regions.new.items) }
{
    let labels = site.labels();
    let bit = 4u8.pow(axis);
    let has_low = cell.lo[axis as usize] > 0;
    add_layer(regions, recent, labels, has_low, &lowest(cell, axis), bit)?;
    let has_high = cell.hi[axis as usize] < axis_length(labels.dims(), axis);
    add_layer(
        regions,
        recent,
        labels,
        has_high,
        &highest(cell, axis),
        2 * bit,
    )?;
    Ok(())
}

/// Adds the names of a layer with the bit of its face, where that is artificial.
fn add_layer(
    regions: &mut Vec<Region>,
    recent: &mut Recent,
    labels: &Labels,
    is_artificial: bool,
    layer: &Cell,
    face: u8,
) -> Result<(), Memory>
    requires { IsBox labels.now.axes layer.now.lo layer.now.hi }
    ensures { IfOk result (λ _. GainsNames labels.now.axes labels.now.labels
        (λ v. is_artificial && in_box labels.now.axes layer.now.lo layer.now.hi v) face regions.old.items regions.new.items) }
{
    if is_artificial {
        add_names(regions, recent, labels, layer, face)?;
    }
    Ok(())
}

/// The length of an axis.
fn axis_length(dims: &Dims, axis: u32) -> u32
    ensures { result ≡ length_on dims.now axis }
{
    match axis {
        0 => dims.nx(),
        1 => dims.ny(),
        _ => dims.nz(),
    }
}

/// The lowest layer of a cell on an axis.
fn lowest(cell: &Cell, axis: u32) -> Cell
    requires axis { axis < 3 }
    requires fits { slice_index cell.now.lo axis + 1 < 2 ^ 32 }
    ensures { result ≡ record cell.now { hi = lowest_to cell.now.lo cell.now.hi axis } }
{
    let mut layer = *cell;
    layer.hi[axis as usize] = cell.lo[axis as usize] + 1;
    layer
}

/// The highest layer of a cell on an axis.
fn highest(cell: &Cell, axis: u32) -> Cell
    requires axis { axis < 3 }
    requires some { 0 < slice_index cell.now.hi axis }
    ensures { result ≡ record cell.now { lo = highest_from cell.now.lo cell.now.hi axis } }
{
    let mut layer = *cell;
    layer.lo[axis as usize] = cell.hi[axis as usize] - 1;
    layer
}
