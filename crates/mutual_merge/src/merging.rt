ghost use Rattle.std.specs.Prelude.{◌≡◌, ◌+◌, ◌≤◌, ◌^◌, All, AllPairs, IfOk, bit_or, length};
ghost use Rattle.agglo_model.specs.PairOrder.{most_edges};
ghost use Rattle.mutual_merge.specs.Linked.{AreLinked, Ascend, link_edges};
ghost use Rattle.mutual_merge.specs.Merged.{AreJoined, AreMerged, AreMutual, AreSurvivors, IsJoinedLink, NoLater};
ghost use Rattle.mutual_merge.specs.Moved.{AreMoved, AreRelinked};
ghost use Rattle.mutual_merge.specs.Slots.{AreSlotLinks, IsSlotLink};

use crate::links::Link;
use agglo_model::Memory;
use region_graph::{Region, pair_key};
use std::alloc::Global;

/// Regions by ascending name, and the links between them in order.
#[derive(Drop)]
pub struct LinkedGraph {
    pub regions: Vec<Region>,
    pub links: Vec<Link>,
}

/// The regions that are left when mates are merged, and the place among them of each region's survivor.
#[derive(Drop)]
struct Survivors {
    kept: Vec<Region>,
    places: Vec<u32>,
}

/// The graph after each region is merged with its mate.
pub fn merge_mates(
    alloc: Global,
    regions: &[Region],
    links: &[Link],
    mates: &[u32],
) -> Result<LinkedGraph, Memory>
    requires linked { AreLinked regions.now links.now }
    requires back { AreMutual mates.now (length regions.now) }
    ensures { IfOk result (λ merged. AreMerged regions.now links.now mates.now merged.regions.items merged.links.items) }
{
    let survivors = keep_survivors(alloc, regions, mates)?;
    let links = relink(alloc, links, &survivors.places)?;
    Ok(LinkedGraph {
        regions: survivors.kept,
        links,
    })
}

/// Keeps the first of each two mates, with the faces of both.
fn keep_survivors(alloc: Global, regions: &[Region], mates: &[u32]) -> Result<Survivors, Memory>
    requires ascend { Ascend regions.now }
    requires fit { length regions.now ≤ 2 ^ 32 }
    requires back { AreMutual mates.now (length regions.now) }
    ensures { IfOk result (λ survivors. AreSurvivors regions.now mates.now survivors.kept.items survivors.places.items) }
{
    let mut kept = Vec::new(alloc);
    let mut places = Vec::with_capacity(alloc, regions.len())?;
    for (k, region) in regions.iter().enumerate() {
        let mate = mates[k] as usize;
        if mate < k {
            places.push(places[mate])?;
        } else {
            places.push(kept.len() as u32)?;
            kept.push(join_regions(region, &regions[mate]))?;
        }
    }
    Ok(Survivors { kept, places })
}

/// The region of two mates: the name of the first, and the faces of both.
fn join_regions(first: &Region, second: &Region) -> Region
    ensures { result ≡ record { name = first.now.name; faces = bit_or first.now.faces second.now.faces } }
{
    Region {
        name: first.name,
        faces: first.faces | second.faces,
    }
}

/// The links in order after each region moves to its place in `places`, where several regions may come to one place.
/// Links that join a place to itself are left out, and those between the same two places are added up.
pub fn relink(alloc: Global, links: &[Link], places: &[u32]) -> Result<Vec<Link>, Memory>
    requires { AreSlotLinks (length places.now) links.now }
    ensures { IfOk result (λ joined. AreRelinked links.now places.now joined.items) }
{
    let mut moved = move_links(alloc, links, places)?;
    moved.sort_unstable_by_key(|link| pair_key(link.a, link.b));
    join_links(alloc, &moved)
}

/// The links between the places that their regions move to, the smaller place first. Links that join a place to
/// itself are left out.
fn move_links(alloc: Global, links: &[Link], places: &[u32]) -> Result<Vec<Link>, Memory>
    requires { All (IsSlotLink (length places.now)) links.now }
    ensures { IfOk result (λ moved. AreMoved links.now places.now moved.items) }
{
    let mut moved = Vec::with_capacity(alloc, links.len())?;
    for link in links {
        let a = places[link.a as usize];
        let b = places[link.b as usize];
        if a != b {
            moved.push(Link {
                a: a.min(b),
                b: a.max(b),
                contact: link.contact,
            })?;
        }
    }
    Ok(moved)
}

/// Adds up the contacts of links between the same two regions, which stand beside each other.
fn join_links(alloc: Global, links: &[Link]) -> Result<Vec<Link>, Memory>
    requires sorted { AllPairs NoLater links.now }
    requires within { link_edges links.now ≤ most_edges }
    ensures { IfOk result (λ joined. AreJoined links.now joined.items) }
{
    let mut joined = Vec::with_capacity(alloc, links.len())?;
    for link in links {
        join(&mut joined, *link)?;
    }
    Ok(joined)
}

/// Adds the contact of a link to that of the last one, where they join the same regions, and else appends
/// the link.
fn join(joined: &mut Vec<Link>, link: Link) -> Result<(), Memory>
    requires { link_edges joined.old.items + link.contact.count ≤ most_edges }
    ensures { IfOk result (λ _. IsJoinedLink joined.old.items link joined.new.items) }
{
    let count = joined.len();
    if count > 0 && joined[count - 1].a == link.a && joined[count - 1].b == link.b {
        let last = &mut joined[count - 1];
        last.contact = last.contact.add(link.contact);
    } else {
        joined.push(link)?;
    }
    Ok(())
}
