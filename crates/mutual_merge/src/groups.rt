ghost use Rattle.std.specs.Prelude.{◌≡◌, ◌<◌, ◌≤◌, ◌^◌, All, IfOk, IsTrue, length};
ghost use Rattle.mutual_merge.specs.Groups.{AreParents};
ghost use Rattle.mutual_merge.specs.Linked.{AreLinked, IsLink};
ghost use Rattle.mutual_merge.specs.Parts.{AreGroups, AreTogether};

use crate::links::Link;
use crate::merging::LinkedGraph;
use crate::pairs::places;
use agglo_model::Memory;
use mean_fraction::Threshold;
use std::alloc::Global;

/// Groups of regions, so that no link that reaches the threshold joins two groups: the connected parts of the graph of
/// those links, shared out over `count` groups in the order of their first regions, so that each has about as many links.
///
/// The parts are found by union-find (Tarjan, Efficiency of a good but not linear set union algorithm, 1975) with path
/// halving. What is told of the groups does not rest on that: they are looked over, and all regions would be of one group
/// if a link led from one to another.
pub fn group_regions(
    alloc: Global,
    graph: &LinkedGraph,
    threshold: &Threshold,
    count: u32,
) -> Result<Vec<u32>, Memory>
    requires linked { AreLinked graph.now.regions.items graph.now.links.items }
    requires some { 0 < count }
    ensures { IfOk result (λ groups. AreGroups threshold.now graph.now.regions.items graph.now.links.items count groups.items) }
{
    let roots = find_roots(alloc, &graph.links, graph.regions.len(), threshold)?;
    let groups = share_out(alloc, &graph.links, &roots, count)?;
    if are_below(&groups, count) && are_together(&groups, &graph.links, threshold) {
        return Ok(groups);
    }
    let one = Vec::from_elem(alloc, 0, graph.regions.len())?;
    Ok(one)
}

/// For each of so many places the first one of its connected part.
#[tactic(auto, using(crate::proofs::ParentPlaces::parents_set))]
fn find_roots(
    alloc: Global,
    links: &[Link],
    count: usize,
    threshold: &Threshold,
) -> Result<Vec<u32>, Memory>
    requires inside { All (IsLink count) links.now }
    requires fit { count ≤ 2 ^ 32 }
    ensures { IfOk result (λ roots. AreParents count roots.items) }
{
    let mut parents = join_ends(alloc, links, count, threshold)?;
    for place in 0..count {
        parents[place] = parents[parents[place] as usize];
    }
    Ok(parents)
}

/// A forest of so many places, whose trees are the connected parts, with the first place of each as its root.
#[tactic(auto, using(crate::proofs::ParentPlaces::parents_set, crate::proofs::ParentPlaces::parents_start))]
fn join_ends(
    alloc: Global,
    links: &[Link],
    count: usize,
    threshold: &Threshold,
) -> Result<Vec<u32>, Memory>
    requires inside { All (IsLink count) links.now }
    requires fit { count ≤ 2 ^ 32 }
    ensures { IfOk result (λ parents. AreParents count parents.items) }
{
    let mut parents = places(alloc, count)?;
    for link in links {
        if threshold.reaches(&link.contact) {
            let a = root_of(&mut parents, link.a);
            let b = root_of(&mut parents, link.b);
            parents[a.max(b) as usize] = a.min(b);
        }
    }
    Ok(parents)
}

/// The root of the tree of a place. Each second place on the way comes to stand below its parent's parent, so that the
/// next way is half as long.
#[tactic(auto, using(crate::proofs::ParentPlaces::parents_set))]
fn root_of(parents: &mut [u32], place: u32) -> u32
    requires parents { AreParents (length parents.old) parents.old }
    requires inside { place < length parents.old }
    ensures parents { AreParents (length parents.old) parents.new }
    ensures inside { result < length parents.old }
{
    let mut here = place;
    while parents[here as usize] != here {
        let above = parents[parents[here as usize] as usize];
        parents[here as usize] = above;
        here = above;
    }
    here
}

/// The groups of places, by the roots of their parts: as many parts, one after another, as together have about one of
/// `count` shares of the links.
fn share_out(alloc: Global, links: &[Link], roots: &[u32], count: u32) -> Result<Vec<u32>, Memory>
    requires inside { All (IsLink (length roots.now)) links.now }
    requires roots { AreParents (length roots.now) roots.now }
    requires some { 0 < count }
    ensures { IfOk result (λ groups. length groups.items ≡ length roots.now) }
{
    let weights = weigh(alloc, links, roots)?;
    let mut groups = Vec::with_capacity(alloc, roots.len())?;
    let mut before = 0;
    for (place, root) in roots.iter().enumerate() {
        if *root as usize == place {
            groups.push(share(before, links.len() as u64, count))?;
            before = before.saturating_add(u64::from(weights[place]));
        } else {
            groups.push(groups[*root as usize])?;
        }
    }
    Ok(groups)
}

/// How many links the part of each root has, and none at other places.
fn weigh(alloc: Global, links: &[Link], roots: &[u32]) -> Result<Vec<u32>, Memory>
    requires inside { All (IsLink (length roots.now)) links.now }
    requires roots { AreParents (length roots.now) roots.now }
    ensures { IfOk result (λ weights. length weights.items ≡ length roots.now) }
{
    let mut weights: Vec<u32> = Vec::from_elem(alloc, 0, roots.len())?;
    for link in links {
        let root = roots[link.a as usize] as usize;
        weights[root] = weights[root].saturating_add(1);
    }
    Ok(weights)
}

/// The group of a part that has so many of all links before it.
fn share(before: u64, all: u64, count: u32) -> u32
    requires { 0 < count }
    ensures { result < count }
{
    let share = before.saturating_mul(u64::from(count)) / all.max(1);
    share.min(u64::from(count - 1)) as u32
}

/// Whether the number of each group is below this.
fn are_below(groups: &[u32], count: u32) -> bool
    ensures { IsTrue result → All (λ group. group < count) groups.now }
{
    groups.iter().all(|group| *group < count)
}

/// Whether each link that reaches the threshold joins regions of one group.
fn are_together(groups: &[u32], links: &[Link], threshold: &Threshold) -> bool
    requires { All (IsLink (length groups.now)) links.now }
    ensures { IsTrue result → All (AreTogether threshold.now groups.now) links.now }
{
    for link in links {
        if !is_together(groups, link, threshold) {
            return false;
        }
    }
    true
}

/// Whether a link joins regions of one group, or doesn't reach the threshold.
fn is_together(groups: &[u32], link: &Link, threshold: &Threshold) -> bool
    requires { IsLink (length groups.now) link.now }
    ensures { IsTrue result → AreTogether threshold.now groups.now link.now }
{
    groups[link.a as usize] == groups[link.b as usize] || !threshold.reaches(&link.contact)
}
