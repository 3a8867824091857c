ghost use Rattle.std.specs.Prelude.{◌≡◌, ◌≤◌, ◌^◌, All, IfOk, length};
ghost use Rattle.mutual_merge.specs.Linked.{AreLinked, IsLink};
ghost use Rattle.mutual_merge.specs.Trimmed.{AreKept, AreTrimmed, IsPart, kept_links};

use crate::links::Link;
use crate::merging::LinkedGraph;
use crate::residue::choose;
use agglo_model::Memory;
use mean_fraction::Threshold;
use region_graph::Region;
use std::alloc::Global;

/// The regions that are kept, and the place among them of each that is.
#[derive(Drop)]
struct Kept {
    regions: Vec<Region>,
    places: Vec<u32>,
}

/// The graph without the regions that no merge takes any more: they are not held back, and none of their
/// contacts reaches the threshold.
pub fn trim(
    alloc: Global,
    graph: &LinkedGraph,
    threshold: &Threshold,
    frozen: u8,
) -> Result<LinkedGraph, Memory>
    requires { AreLinked graph.now.regions.items graph.now.links.items }
    ensures { IfOk result (λ trimmed. AreTrimmed threshold.now frozen graph.now.regions.items graph.now.links.items
        trimmed.regions.items trimmed.links.items) }
{
    let kept = choose(alloc, &graph.regions, &graph.links, threshold, frozen)?;
    let part = part_of(alloc, graph, &kept)?;
    Ok(part)
}

/// The regions of which `kept` says so, and the links among them.
pub fn part_of(alloc: Global, graph: &LinkedGraph, kept: &[bool]) -> Result<LinkedGraph, Memory>
    requires linked { AreLinked graph.now.regions.items graph.now.links.items }
    requires one_each { length kept.now ≡ length graph.now.regions.items }
    ensures { IfOk result (λ part. IsPart graph.now.regions.items graph.now.links.items kept.now
        part.regions.items part.links.items) }
{
    let left = keep(alloc, &graph.regions, kept)?;
    let links = links_among(alloc, &graph.links, kept, &left.places)?;
    Ok(LinkedGraph {
        regions: left.regions,
        links,
    })
}

/// Keeps the regions of which `kept` says so.
fn keep(alloc: Global, regions: &[Region], kept: &[bool]) -> Result<Kept, Memory>
    requires one_each { length kept.now ≡ length regions.now }
    requires fit { length regions.now ≤ 2 ^ 32 }
    ensures { IfOk result (λ left. AreKept regions.now kept.now left.regions.items left.places.items) }
{
    let mut left = Vec::new(alloc);
    let mut places = Vec::with_capacity(alloc, regions.len())?;
    for (place, region) in regions.iter().enumerate() {
        places.push(left.len() as u32)?;
        if kept[place] {
            left.push(*region)?;
        }
    }
    Ok(Kept {
        regions: left,
        places,
    })
}

/// The links between regions that are kept, by their places among those.
fn links_among(
    alloc: Global,
    links: &[Link],
    kept: &[bool],
    places: &[u32],
) -> Result<Vec<Link>, Memory>
    requires inside { All (IsLink (length kept.now)) links.now }
    requires one_each { length places.now ≡ length kept.now }
    ensures { IfOk result (λ left. left.items ≡ kept_links kept.now places.now links.now) }
{
    let mut left = Vec::new(alloc);
    for link in links {
        let a = link.a as usize;
        let b = link.b as usize;
        if kept[a] && kept[b] {
            left.push(Link {
                a: places[a],
                b: places[b],
                contact: link.contact,
            })?;
        }
    }
    Ok(left)
}
