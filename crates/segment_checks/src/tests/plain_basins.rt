use super::plain_grid::Edge;
use std::alloc::{AllocError, Global};

/// The basin labels of the voxels below `voxels`. The two ends of an edge that is best at both are named after
/// the lower one, and names spread along best edges until no voxel takes another.
pub(crate) fn basin_labels(
    alloc: Global,
    edges: &[Edge],
    voxels: u32,
    low: u8,
) -> Result<Vec<u32>, AllocError> {
    let mut best = Vec::new(alloc);
    for voxel in 0..voxels {
        best.push(best_edge(edges, voxel, low))?;
    }
    let mut labels = root_names(alloc, &best, voxels)?;
    // a round in which anything changes names one voxel at least
    for _ in 0..voxels {
        spread(&mut labels, &best);
    }
    Ok(labels)
}

/// The first in edge order of the edges that meet a voxel and are strong enough.
fn best_edge(edges: &[Edge], voxel: u32, low: u8) -> Option<Edge> {
    let mut best: Option<Edge> = None;
    for edge in edges {
        let strong = edge.affinity >= low && edge.across(voxel).is_some();
        if strong && best.is_none_or(|other| edge.comes_before(&other)) {
            best = Some(*edge);
        }
    }
    best
}

/// The names of the voxels whose best edge is best at its other end too, and 0 for all others.
fn root_names(alloc: Global, best: &[Option<Edge>], voxels: u32) -> Result<Vec<u32>, AllocError> {
    let mut labels = Vec::new(alloc);
    for voxel in 0..voxels {
        labels.push(root_name(best, voxel).unwrap_or(0))?;
    }
    Ok(labels)
}

/// The name of a voxel whose best edge is best at both ends.
fn root_name(best: &[Option<Edge>], voxel: u32) -> Option<u32> {
    let edge = (*best.get(voxel as usize)?)?;
    let across = edge.across(voxel)?;
    if *best.get(across as usize)? == Some(edge) {
        Some(edge.lower + 1)
    } else {
        None
    }
}

/// Each voxel without a name takes that of the other end of its best edge.
fn spread(labels: &mut [u32], best: &[Option<Edge>]) {
    for voxel in 0..labels.len() {
        if labels[voxel] == 0 {
            labels[voxel] = name_across(labels, best, voxel).unwrap_or(0);
        }
    }
}

/// The label of the other end of a voxel's best edge.
fn name_across(labels: &[u32], best: &[Option<Edge>], voxel: usize) -> Option<u32> {
    let edge = (*best.get(voxel)?)?;
    let across = edge.across(u32::try_from(voxel).ok()?)?;
    labels.get(across as usize).copied()
}

/// How many names there are among the labels of the voxels below `voxels`.
pub(crate) fn name_count(labels: &[u32], voxels: u32) -> usize {
    (1..=voxels).filter(|name| labels.contains(name)).count()
}
