use super::plain_grid::Edge;
use mean_fraction::Threshold;
use std::alloc::{AllocError, Global};

/// A merge in plain numbers, or a pair of names that may be merged: the smaller name, the greater one, and the
/// sum, the count and the least number of the edges between them.
#[derive(Clone, Copy, Debug, PartialEq)]
pub(crate) struct Pair {
    pub(crate) survivor: u32,
    pub(crate) absorbed: u32,
    pub(crate) sum: u64,
    pub(crate) count: u64,
    pub(crate) tie: u32,
}

impl Pair {
    /// Whether the mean of this pair is the greater of two, or they are equal and its tie is the smaller.
    fn comes_before(&self, other: &Pair) -> bool {
        let here = u128::from(self.sum) * u128::from(other.count);
        let there = u128::from(other.sum) * u128::from(self.count);
        here > there || here == there && self.tie < other.tie
    }

    /// Whether the mean is at least the threshold.
    fn reaches(&self, threshold: Threshold) -> bool {
        u128::from(self.sum) * u128::from(threshold.q())
            >= u128::from(threshold.p()) * u128::from(self.count)
    }
}

/// The edges between two names. No other edge comes to lie between two names when names are merged.
pub(crate) fn contact_edges(
    alloc: Global,
    edges: &[Edge],
    labels: &[u32],
) -> Result<Vec<Edge>, AllocError> {
    let mut contact_edges = Vec::new(alloc);
    for edge in edges {
        if names_at(labels, edge).is_some() {
            contact_edges.push(*edge)?;
        }
    }
    Ok(contact_edges)
}

/// Merges the first pair as long as its mean reaches the threshold: the merges in order, while the labels are
/// renamed. Each step sums all contacts anew, so the time is quadratic in the edges for each merge.
pub(crate) fn agglomerate(
    alloc: Global,
    edges: &[Edge],
    labels: &mut [u32],
    threshold: Threshold,
) -> Result<Vec<Pair>, AllocError> {
    let mut merges = Vec::new(alloc);
    // each merge leaves one name less
    for _ in 0..labels.len() {
        let Some(pair) = first_pair(edges, labels) else {
            break;
        };
        if !pair.reaches(threshold) {
            break;
        }
        rename(labels, pair.absorbed, pair.survivor);
        merges.push(pair)?;
    }
    Ok(merges)
}

/// The pair that comes before all others.
fn first_pair(edges: &[Edge], labels: &[u32]) -> Option<Pair> {
    let mut first: Option<Pair> = None;
    for edge in edges {
        if let Some(names) = names_at(labels, edge) {
            let pair = pair_between(edges, labels, names);
            if first.is_none_or(|other| pair.comes_before(&other)) {
                first = Some(pair);
            }
        }
    }
    first
}

/// The names at the ends of a contact edge, the smaller first; none where the edge is no contact edge.
fn names_at(labels: &[u32], edge: &Edge) -> Option<(u32, u32)> {
    let one = *labels.get(edge.lower as usize)?;
    let other = *labels.get(edge.higher as usize)?;
    if one == 0 || other == 0 || one == other {
        return None;
    }
    Some((one.min(other), one.max(other)))
}

/// Two names with all edges between them.
fn pair_between(edges: &[Edge], labels: &[u32], names: (u32, u32)) -> Pair {
    let (survivor, absorbed) = names;
    let mut pair = Pair {
        survivor,
        absorbed,
        sum: 0,
        count: 0,
        tie: u32::MAX,
    };
    for edge in edges {
        if names_at(labels, edge) == Some(names) {
            // the sums of small volumes stay far below the end
            pair.sum = pair.sum.saturating_add(u64::from(edge.affinity));
            pair.count = pair.count.saturating_add(1);
            pair.tie = pair.tie.min(edge.number);
        }
    }
    pair
}

/// Gives all voxels of one name another.
fn rename(labels: &mut [u32], old: u32, new: u32) {
    for label in labels.iter_mut() {
        if *label == old {
            *label = new;
        }
    }
}
